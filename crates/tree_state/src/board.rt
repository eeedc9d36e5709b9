//! The parts of a tree that change: its history, nodes, tickets and goals.
ghost use Rattle.std.specs.Prelude.{◌≡◌, ◌+◌, ◌-◌, ◌<◌, ◌≤◌, ◌^◌, ℕ, List, None, Some, [], ◌∷◌, ◌++◌};
ghost use Rattle.std.specs.Prelude.{true, false, length, vec_len, map, slice_get};
ghost use Rattle.std.specs.Prelude.{IfOk, OnOk, OnErr, MatchOption};
ghost use Rattle.std.specs.Vec.{vec_capacity};
ghost use Rattle.tree_definitions.specs.cert_step.ProofProblem.{problem_of};
ghost use Rattle.tree_definitions.specs.strategies.Kinds.{strategies_for};
ghost use Rattle.tree_definitions.specs.Goals.{goal_root};
ghost use Rattle.tree_definitions.specs.History.{HistoryEntry, claimed, found};
ghost use Rattle.tree_state.specs.Seen.{entry_of, node_of, AreWithin};
ghost use Rattle.tree_definitions.specs.States.{TreeNode, new_node};
ghost use Rattle.tree_definitions.specs.Marks.{is_idle};
ghost use Rattle.tree_state.specs.Parts.{Parts, HasTicket, IsOpening, free_place, claimed_parts};
ghost use Rattle.tree_state.specs.Parts.{has_verdict_by, is_done_by, is_over_by};

use crate::entry::{Entry, Event};
use crate::goal_lists::{are_all_lost, is_lost};
use crate::goal_state::GoalState;
use crate::node::Node;
use crate::node_lists::set_mark;
use crate::searching::first_free;
use std::alloc::{AllocError, Global};
use std::marker::Model;
use tree_definitions::{Goal, Mark, Problem, Question, Strategy, Ticket, goals_of, strategies_of};
use trs_core::OutOfMemory;

/// The history, the nodes and tickets to which it leads, and what is counted of them. Contracts see
/// it as `Parts`.
#[derive(Drop)]
pub struct Board {
    pub(crate) history: Vec<Entry>,
    pub(crate) nodes: Vec<Node>,
    pub(crate) tickets: Vec<Ticket>,
    pub(crate) goals: Vec<GoalState>,
    pub(crate) winner: Option<u32>,
    pub(crate) is_aborted: bool,
    pub(crate) running: usize,
    pub(crate) cursor: usize,
}

impl Model for Board {
    ghost use Rattle.std.specs.Prelude.{map, ◌-◌, length, vec_len};
    ghost use Rattle.std.specs.Vec.{vec_capacity};
    ghost use Rattle.std.specs.Coded.{codes};
    ghost use Rattle.trs_defs.specs.Tree.{tree_code};
    ghost use Rattle.tree_definitions.specs.Marks.{is_idle};
    ghost use Rattle.tree_state.specs.Parts.{Parts};

    ghost Value = { Parts };

    ghost coded = { Prim.hlevel (codes, tree_code) };

    ghost use Rattle.tree_state.specs.Seen.{entry_of, node_of, AreWithin};

    ghost view = { λ a. record {
      history = map entry_of a.history.items;
      state = record {
        nodes = map (node_of (map entry_of a.history.items)) a.nodes.items;
        tickets = a.tickets.items;
        winner = a.winner;
        is_aborted = a.is_aborted;
      };
      goals = a.goals.items;
      running = a.running;
      room = vec_capacity a.history - vec_len a.history;
      node_room = vec_capacity a.nodes - vec_len a.nodes;
      cursor = a.cursor;
    } };

    ghost invariant = { λ a. AreWithin (length a.history.items) a.nodes.items };
}

impl Board {
    /// The goals' roots, with no history.
    pub fn new(alloc: Global, question: Question) -> Result<Board, AllocError>
        ensures { IfOk result (λ b. IsOpening question b) }
    {
        let mut nodes = Vec::new(alloc);
        let mut goals = Vec::new(alloc);
        for goal in goals_of(question) {
            push_root(&mut nodes, &mut goals, goal)?;
        }
        Ok(Board {
            history: Vec::new(alloc),
            nodes,
            tickets: Vec::new(alloc),
            goals,
            winner: None,
            is_aborted: false,
            running: 0,
            cursor: 0,
        })
    }

    /// Whether a goal was won, or each is lost.
    pub fn has_verdict(&self) -> bool
        ensures { result ≡ has_verdict_by self.now }
    {
        self.winner.is_some() || are_all_lost(&self.goals)
    }

    /// Whether nothing more is claimed.
    pub fn is_done(&self) -> bool
        ensures { result ≡ is_done_by self.now }
    {
        self.has_verdict() || self.is_aborted
    }

    pub fn winner(&self) -> Option<u32>
        ensures { result ≡ self.now.state.winner }
    {
        self.winner
    }

    pub fn is_aborted(&self) -> bool
        ensures { result ≡ self.now.state.is_aborted }
    {
        self.is_aborted
    }

    pub fn history_len(&self) -> usize
        ensures { result ≡ length self.now.history }
    {
        self.history.len()
    }

    /// Whether no answer is wanted under the ticket any more.
    pub fn is_over(&self, ticket: u64) -> bool
        requires { HasTicket self.now ticket }
        ensures { (h : HasTicket self.now ticket) → result ≡ is_over_by self.now h.node }
    {
        let node = &self.nodes[self.tickets[ticket as usize].node];
        node.decision.is_some() || is_lost(&self.goals, node.goal) || self.is_done()
    }

    /// Makes room for so many nodes.
    pub fn reserve_nodes(&mut self, count: usize) -> Result<(), AllocError>
        ensures parts { self.new ≡ record self.old { node_room = self.new.node_room } }
        ensures ok { OnOk result (count ≤ self.new.node_room) }
        ensures none { count ≤ self.old.node_room → OnErr result ⊥ }
    {
        self.nodes.reserve(count)
    }

    /// The least node, from the cursor on, with a strategy that can be claimed, and the strategy's
    /// place. The cursor goes there, or behind the last node.
    pub fn find(&mut self) -> (usize, Option<usize>)
        ensures parts { self.new ≡ record self.old { cursor = result.0 } }
        ensures later { self.old.cursor ≤ result.0 }
        ensures within { self.old.cursor ≤ length self.old.state.nodes
            → result.0 ≤ length self.old.state.nodes }
        ensures passed { (k : ℕ) (node : TreeNode) → self.old.cursor ≤ k → k < result.0
            → slice_get self.old.state.nodes k ≡ Some node → free_place self.old.goals node ≡ None }
        ensures found { MatchOption result.1 (length self.old.state.nodes ≤ result.0)
            (λ place. (node : TreeNode) × (slice_get self.old.state.nodes result.0 ≡ Some node)
            × (free_place self.old.goals node ≡ Some place)) }
    {
        let (n, place) = first_free(&self.nodes, &self.goals, self.cursor);
        self.cursor = n;
        (n, place)
    }

    /// The problem of node number n, and its strategy at a place.
    pub fn task(
        &self,
        alloc: Global,
        n: usize,
        place: usize,
    ) -> Result<(Problem, Strategy), OutOfMemory>
        requires { (node : TreeNode) × (slice_get self.now.state.nodes n ≡ Some node)
            × (place < length (strategies_for node.problem)) }
        ensures { IfOk result (λ t. (node : TreeNode) → slice_get self.now.state.nodes n ≡ Some node
            → (problem_of t.0 ≡ node.problem)
            × (slice_get (strategies_for node.problem) place ≡ Some t.1)) }
    {
        let problem = &self.nodes[n].problem;
        let strategy = strategies_of(problem)[place];
        Ok((problem.copy(alloc)?, strategy))
    }

    /// A claim of the strategy at a place of node number n, whose problem and strategy are given,
    /// under a new ticket. It makes room for the endings of all tickets that run.
    pub fn claim(
        &mut self,
        seat: u32,
        n: usize,
        place: usize,
        problem: Problem,
        strategy: Strategy,
    ) -> Result<u64, AllocError>
        requires node { (node : TreeNode) × (slice_get self.old.state.nodes n ≡ Some node)
            × (place < length node.marks) }
        requires few { self.old.running ≤ length self.old.state.tickets }
        ensures ticket { IfOk result (λ t. t ≡ length self.old.state.tickets) }
        ensures parts { OnOk result ((node : TreeNode)
            → slice_get self.old.state.nodes n ≡ Some node → self.new ≡ record
            (claimed_parts self.old seat n place (problem_of problem) strategy node)
            { room = self.new.room }) }
        ensures room { OnOk result (self.old.running < self.new.room) }
        ensures err { OnErr result (self.new ≡ record self.old { room = self.new.room }) }
        ensures err_room { OnErr result (self.old.room ≤ self.new.room) }
    {
        self.history.reserve(self.running + 2)?;
        self.tickets.reserve(1)?;
        let ticket = self.tickets.len() as u64;
        self.tickets.push_reserved(Ticket {
            seat,
            node: n,
            place,
            is_running: true,
        });
        set_mark(&mut self.nodes, n, place, Mark::Running);
        self.running += 1;
        self.history.push_reserved(Entry {
            seat,
            ticket,
            event: Event::Claimed(problem, strategy),
        });
        Ok(ticket)
    }
}

// The next goal, with its root.
fn push_root(
    nodes: &mut Vec<Node>,
    goals: &mut Vec<GoalState>,
    goal: &Goal,
) -> Result<(), AllocError>
    requires { length goals.old.items < 2 ^ 32 }
    ensures goals { OnOk result (goals.new.items
        ≡ goals.old.items ++ record { open_nodes = 1; is_lost = false } ∷ []) }
    ensures nodes { OnOk result ((history : List HistoryEntry)
        → map (node_of history) nodes.new.items ≡ map (node_of history) nodes.old.items
        ++ new_node (length goals.old.items) (goal_root goal.now) ∷ []) }
    ensures within { OnOk result ((bound : ℕ)
        → AreWithin bound nodes.old.items → AreWithin bound nodes.new.items) }
{
    let number = goals.len() as u32;
    nodes.push(Node::new(number, goal.root()))?;
    goals.push(GoalState {
        open_nodes: 1,
        is_lost: false,
    })?;
    Ok(())
}
