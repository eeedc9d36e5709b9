//! The state of a tree as plain data, and what is said of it.
use std::alloc::Global;
use trs_core::OutOfMemory;
use worker_pool::{Mark, Problem, Question, Ticket, Verdict, strategies_of};

/// A step that decided a node, shown by numbers, and its children: so many, from the first on.
#[derive(Drop)]
pub struct Decided {
    pub shown: Vec<u64>,
    pub first: usize,
    pub count: usize,
}

#[derive(Drop)]
pub struct Node {
    pub goal: u32,
    pub problem: Problem,
    pub decision: Option<Decided>,
    pub marks: Vec<Mark>,
}

#[derive(Drop)]
pub struct State {
    pub goals: u32,
    pub nodes: Vec<Node>,
    pub tickets: Vec<Ticket>,
    pub winner: Option<u32>,
    pub is_aborted: bool,
}

/// An open node, of which no strategy was tried.
pub fn new_node(alloc: Global, goal: u32, problem: Problem) -> Result<Node, OutOfMemory> {
    let mut marks = Vec::new(alloc);
    for _ in strategies_of(&problem) {
        marks.push(Mark::Idle)?;
    }
    Ok(Node {
        goal,
        problem,
        decision: None,
        marks,
    })
}

fn roots(alloc: Global, question: Question) -> Result<Vec<Problem>, OutOfMemory> {
    Ok(match question {
        Question::Termination => Vec::from_array(alloc, [Problem::Sn, Problem::Loop])?,
        Question::Confluence => {
            Vec::from_array(alloc, [Problem::Cr, Problem::CrNewman, Problem::Fork])?
        }
        Question::Unique => {
            Vec::from_array(alloc, [Problem::Unr, Problem::UnrNewman, Problem::Split])?
        }
    })
}

/// One node for each goal.
pub fn opening(alloc: Global, question: Question) -> Result<State, OutOfMemory> {
    let mut nodes = Vec::new(alloc);
    let mut goals = 0u32;
    for problem in roots(alloc, question)? {
        nodes.push(new_node(alloc, goals, problem)?)?;
        goals = goals.saturating_add(1);
    }
    Ok(State {
        goals,
        nodes,
        tickets: Vec::new(alloc),
        winner: None,
        is_aborted: false,
    })
}

impl Node {
    /// Whether the node is open, and each of its strategies has failed.
    pub fn is_stuck(&self) -> bool {
        if self.decision.is_some() {
            return false;
        }
        for mark in &self.marks {
            if !matches!(mark, Mark::Failed(_)) {
                return false;
            }
        }
        true
    }

    /// The place of the first strategy that neither failed nor runs.
    pub fn first_idle(&self) -> Option<usize> {
        for (place, mark) in self.marks.iter().enumerate() {
            if matches!(mark, Mark::Idle) {
                return Some(place);
            }
        }
        None
    }
}

impl State {
    /// The nodes of a goal, each behind its parent, and children behind those that wait.
    pub fn walk(&self, alloc: Global, goal: u32) -> Result<Vec<usize>, OutOfMemory> {
        let mut order = Vec::from_array(alloc, [goal as usize])?;
        for i in 0..self.nodes.len() {
            let Some(n) = order.get(i).copied() else {
                return Ok(order);
            };
            if let Some(decided) = self.decision(n) {
                for k in 0..decided.count {
                    order.push(decided.first.saturating_add(k))?;
                }
            }
        }
        Ok(order)
    }

    /// The step that decided the node.
    pub fn decision(&self, n: usize) -> Option<&Decided> {
        self.nodes.get(n)?.decision.as_ref()
    }

    /// Whether each node of the goal is decided.
    fn is_won(&self, alloc: Global, goal: u32) -> Result<bool, OutOfMemory> {
        for n in &self.walk(alloc, goal)? {
            if self.decision(*n).is_none() {
                return Ok(false);
            }
        }
        Ok(true)
    }

    /// The first goal that is won.
    pub fn first_won(&self, alloc: Global) -> Result<Option<u32>, OutOfMemory> {
        for goal in 0..self.goals {
            if self.is_won(alloc, goal)? {
                return Ok(Some(goal));
            }
        }
        Ok(None)
    }

    /// Whether one of the goal's nodes is stuck.
    fn is_lost(&self, goal: u32) -> bool {
        for node in &self.nodes {
            if node.goal == goal && node.is_stuck() {
                return true;
            }
        }
        false
    }

    pub fn verdict(&self) -> Option<Verdict> {
        if let Some(goal) = self.winner {
            return Some(Verdict::Won(goal));
        }
        for goal in 0..self.goals {
            if !self.is_lost(goal) {
                return None;
            }
        }
        Some(Verdict::Maybe)
    }

    pub fn is_done(&self) -> bool {
        self.verdict().is_some() || self.is_aborted
    }

    pub fn is_running(&self) -> bool {
        self.tickets.iter().any(|ticket| ticket.is_running)
    }

    /// Whether no answer is wanted for the node any more.
    fn is_node_over(&self, node: &Node) -> bool {
        node.decision.is_some() || self.is_lost(node.goal) || self.is_done()
    }

    /// Whether no answer is wanted under the ticket any more.
    pub fn is_over(&self, ticket: u64) -> bool {
        let Some(ticket) = self.tickets.get(ticket as usize) else {
            return false;
        };
        match self.nodes.get(ticket.node) {
            Some(node) => self.is_node_over(node),
            None => false,
        }
    }

    /// The least node that is not over and has an idle strategy, and the place of the first one.
    pub fn free(&self) -> Option<(usize, usize)> {
        for (n, node) in self.nodes.iter().enumerate() {
            if let Some(place) = node.first_idle() {
                if !self.is_node_over(node) {
                    return Some((n, place));
                }
            }
        }
        None
    }
}
