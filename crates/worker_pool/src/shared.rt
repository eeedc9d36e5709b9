//! The proof tree that workers share, and its calls by a seat.
ghost use Rattle.std.specs.Prelude.{◌≡◌, ◌∷◌, [], ◌<◌, ◌^◌, IfOk, length};
ghost use Rattle.tree_core.specs.cert_step.ProofProblem.{problem_of};
ghost use Rattle.tree_core.specs.tree_definitions.History.{Runs};
ghost use Rattle.tree_core.specs.tree_definitions.Replies.{IfTask, IsRunnable};
ghost use Rattle.turn_lock.specs.Rules.{of, AddsOne};
ghost use Rattle.worker_pool.specs.Shared.{history_of, opening_of, tree_entries, HasEnded, HasTask};

use crate::entry::Entry;
use crate::laws::{histories_are_short, tickets_have_one_seat};
use std::alloc::Global;
use tree_core::{Claimed, Limits, Outcome, Polled, Question, Tree};
use trs_core::{OutOfMemory, Trs};
use turn_lock::Chronicle;

/// A proof tree with its history: an opening, which no seat made and which has the question, the system
/// and the budget, and then the tree's entries, each of the seat that claimed its ticket.
#[derive(Drop)]
pub(crate) struct SharedTree<'a> {
    pub(crate) tree: Tree<'a>,
}

impl<'a> Chronicle for SharedTree<'a> {
    type Entry = Entry;

    ghost history = { λ s. history_of s.tree };

    fn length(&self) -> u64 {
        self.tree.history_len() + 1
    }
}

impl<'a> SharedTree<'a> {
    /// A tree with its opening.
    pub(crate) fn new(
        alloc: Global,
        question: Question,
        trs: &'a Trs,
        limits: Limits,
    ) -> Result<SharedTree<'a>, OutOfMemory>
        ensures { IfOk result (λ s.
            history_of s.tree ≡ opening_of question trs.now limits.budget ∷ []) }
    {
        let tree = Tree::new(alloc, question, trs, limits)?;
        Ok(SharedTree { tree })
    }

    /// A task for the seat.
    pub(crate) fn claim(&mut self, alloc: Global, seat: u32) -> Result<Claimed, OutOfMemory>
        ensures adds { AddsOne seat (history_of self.old.tree) (history_of self.new.tree) }
        ensures short { length (history_of self.new.tree) < 2 ^ 62 }
        ensures task { IfOk result (IfTask (λ task. HasTask seat
            (of seat (history_of self.new.tree)) task.ticket (problem_of task.problem) task.strategy)) }
        ensures runnable { IfOk result (IfTask (IsRunnable self.old.tree.system)) }
    {
        let claimed = self.tree.claim(alloc, seat);
        histories_are_short(&self.tree);
        claimed
    }

    /// Whether the seat is to go on with the ticket's search. If not, the ticket ends.
    pub(crate) fn poll(&mut self, seat: u32, ticket: u64) -> Polled
        requires { Runs ticket (tree_entries (of seat (history_of self.old.tree))) }
        ensures adds { AddsOne seat (history_of self.old.tree) (history_of self.new.tree) }
        ensures short { length (history_of self.new.tree) < 2 ^ 62 }
        ensures goes { result ≡ Polled.Go → history_of self.new.tree ≡ history_of self.old.tree }
        ensures ended { result ≡ Polled.Cancelled
            → HasEnded ticket (of seat (history_of self.new.tree)) }
    {
        tickets_have_one_seat(&self.tree);
        let polled = self.tree.poll(ticket);
        histories_are_short(&self.tree);
        polled
    }

    /// Ends the seat's ticket by what its search answered. Where memory is wanting for what it leaves, the
    /// ticket is aborted, and the outcome comes back.
    pub(crate) fn post(
        &mut self,
        seat: u32,
        ticket: u64,
        outcome: Outcome<'a>,
    ) -> Option<Outcome<'a>>
        requires task { HasTask seat (of seat (history_of self.old.tree)) ticket outcome.problem
            outcome.strategy }
        requires system { outcome.system ≡ self.old.tree.system }
        requires budget { outcome.budget ≡ self.old.tree.budget }
        ensures adds { AddsOne seat (history_of self.old.tree) (history_of self.new.tree) }
        ensures short { length (history_of self.new.tree) < 2 ^ 62 }
        ensures ended { HasEnded ticket (of seat (history_of self.new.tree)) }
    {
        tickets_have_one_seat(&self.tree);
        match self.tree.post(ticket, outcome) {
            Ok(_) => {
                histories_are_short(&self.tree);
                None
            }
            Err(outcome) => {
                self.abort(seat, ticket);
                Some(outcome)
            }
        }
    }

    /// Ends the seat's ticket, and aborts the tree where no verdict stands.
    pub(crate) fn abort(&mut self, seat: u32, ticket: u64)
        requires { Runs ticket (tree_entries (of seat (history_of self.old.tree))) }
        ensures adds { AddsOne seat (history_of self.old.tree) (history_of self.new.tree) }
        ensures short { length (history_of self.new.tree) < 2 ^ 62 }
        ensures ended { HasEnded ticket (of seat (history_of self.new.tree)) }
    {
        tickets_have_one_seat(&self.tree);
        self.tree.abort(ticket);
        histories_are_short(&self.tree);
    }
}
