//! A tree whose outcomes are held back.
ghost use Rattle.std.specs.Prelude.{◌≡◌};

use crate::calls::{claim, clear, end_by_abort, is_running, poll, post, settle};
use std::alloc::Global;
use std::marker::Model;
use trs_core::{OutOfMemory, Trs};
use worker_pool::{Aborted, Claimed, Limits, Outcome, Polled, Posted, Question, Tree};

/// A tree, and the outcome of each running ticket at the ticket's number.
#[derive(Drop)]
pub struct Trial<'a> {
    tree: Tree<'a>,
    held: Vec<Option<Outcome<'a>>>,
}

impl<'a> Model for Trial<'a> {
    ghost use Rattle.std.specs.Coded.{codes};
    ghost use Rattle.trs_defs.specs.Tree.{tree_code};
    ghost use Rattle.worker_pool.specs.tree_core.tree_definitions.Trees.{ProofTree};

    ghost Value = { ProofTree };

    ghost coded = { Prim.hlevel (codes, tree_code) };

    ghost use Rattle.tree_tests.specs.Held.{AreHeld};

    ghost view = { λ a. a.tree };

    ghost invariant = { λ a. AreHeld a.tree a.held.items };
}

impl<'a> Trial<'a> {
    pub fn new(
        alloc: Global,
        question: Question,
        trs: &'a Trs,
        budget: u64,
    ) -> Result<Trial<'a>, OutOfMemory> {
        Ok(Trial {
            tree: Tree::new(alloc, question, trs, Limits { budget })?,
            held: Vec::new(alloc),
        })
    }

    pub fn tree(&self) -> &Tree<'a>
        ensures { result.now ≡ self.now }
    {
        &self.tree
    }

    /// What is held for the ticket.
    pub fn outcome(&self, ticket: u64) -> Option<&Outcome<'a>> {
        self.held.get(ticket as usize)?.as_ref()
    }

    /// Claims a task, and runs it. The inner answer is the tree's own.
    pub fn claim(
        &mut self,
        alloc: Global,
        seat: u32,
    ) -> Result<Result<Claimed, OutOfMemory>, OutOfMemory> {
        claim(alloc, &mut self.tree, &mut self.held, seat)
    }

    /// Polls a ticket that is running.
    pub fn poll(&mut self, ticket: u64) -> Option<Polled> {
        if !is_running(&self.tree, &self.held, ticket) {
            return None;
        }
        let polled = poll(&mut self.tree, ticket);
        settle(&mut self.held, ticket, polled);
        Some(polled)
    }

    /// Posts what is held for a ticket that is running. A post that the tree refuses loses it.
    pub fn post(&mut self, ticket: u64) -> Result<Posted, OutOfMemory> {
        post(&mut self.tree, &mut self.held, ticket)
    }

    /// Aborts a ticket that is running.
    pub fn abort(&mut self, ticket: u64) -> Option<Aborted> {
        if !is_running(&self.tree, &self.held, ticket) {
            return None;
        }
        let aborted = end_by_abort(&mut self.tree, ticket);
        clear(&mut self.held, ticket);
        Some(aborted)
    }
}
