//! Calls of a tree, each beside what the plain state says.
use crate::events::{Entry, Event, event_of};
use crate::replay::state_after;
use crate::state::State;
use crate::trial::Trial;
use std::alloc::Global;
use std::test::Fail;
use trs_core::Trs;
use worker_pool::{Claimed, Polled, Posted, Question, Task, strategies_of};

/// A tree, the list of all events, and the state to which it leads.
#[derive(Drop)]
pub struct Pair<'a> {
    pub trial: Trial<'a>,
    question: Question,
    entries: Vec<Entry>,
    pub state: State,
}

impl<'a> Pair<'a> {
    pub fn new(
        alloc: Global,
        question: Question,
        trs: &'a Trs,
        budget: u64,
    ) -> Result<Pair<'a>, Fail> {
        let entries = Vec::new(alloc);
        let state = state_after(alloc, question, &entries)?;
        Ok(Pair {
            trial: Trial::new(alloc, question, trs, budget)?,
            question,
            entries,
            state,
        })
    }

    /// The event of a ticket comes next.
    fn note(&mut self, alloc: Global, seat: u32, ticket: u64, event: Event) -> Result<(), Fail> {
        self.entries.push(Entry {
            seat,
            ticket,
            event,
        })?;
        self.state = state_after(alloc, self.question, &self.entries)?;
        Ok(())
    }

    /// Whether the tree shows what the state says.
    pub fn agrees(&self) -> bool {
        let tree = self.trial.tree();
        tree.history_len() == self.entries.len() as u64
            && tree.is_aborted() == self.state.is_aborted
            && tree.verdict() == self.state.verdict()
    }

    /// Whether the task is what is free.
    fn is_task(&self, task: &Task) -> bool {
        let Some((n, place)) = self.state.free() else {
            return false;
        };
        let Some(node) = self.state.nodes.get(n) else {
            return false;
        };
        task.ticket == self.state.tickets.len() as u64
            && task.problem.same(&node.problem)
            && strategies_of(&node.problem).get(place) == Some(&task.strategy)
    }

    /// Claims, and says whether the answer was right.
    pub fn claim(&mut self, alloc: Global, seat: u32) -> Result<bool, Fail> {
        let is_done = self.state.is_done();
        match self.trial.claim(alloc, seat)?? {
            Claimed::Task(task) => {
                let is_right = !is_done && self.is_task(&task);
                self.note(alloc, seat, task.ticket, Event::Claimed)?;
                Ok(is_right)
            }
            Claimed::Again => {
                Ok(!is_done && self.state.free().is_none() && self.state.is_running())
            }
            Claimed::Done => Ok(is_done),
        }
    }

    /// Polls a running ticket, and says whether the answer was right.
    pub fn poll(&mut self, alloc: Global, ticket: u64) -> Result<bool, Fail> {
        let is_over = self.state.is_over(ticket);
        match self.trial.poll(ticket).ok_or("not running")? {
            Polled::Go => Ok(!is_over),
            Polled::Cancelled => {
                self.note(alloc, 0, ticket, Event::Cancelled)?;
                Ok(is_over)
            }
        }
    }

    /// Posts what is held for a running ticket, and says whether the answer was right.
    pub fn post(&mut self, alloc: Global, ticket: u64) -> Result<bool, Fail> {
        let is_over = self.state.is_over(ticket);
        let outcome = self.trial.outcome(ticket).ok_or("not running")?;
        let event = event_of(alloc, outcome.findings())?;
        let posted = self.trial.post(ticket)?;
        self.note(alloc, 0, ticket, event)?;
        Ok(posted == if is_over { Posted::Late } else { Posted::Taken })
    }

    /// Aborts a running ticket.
    pub fn abort(&mut self, alloc: Global, ticket: u64) -> Result<(), Fail> {
        let _taken = self.trial.abort(ticket).ok_or("not running")?;
        self.note(alloc, 0, ticket, Event::Aborted)
    }
}
