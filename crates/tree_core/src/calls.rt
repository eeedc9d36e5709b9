//! The calls of a tree.
ghost use Rattle.std.specs.Prelude.{◌≡◌, ◌<◌, ◌^◌, ℕ, [], Some, All, map, slice_get, length};
ghost use Rattle.std.specs.Prelude.{IfOk, OnErr, MatchResult};
ghost use Rattle.tree_state.specs.cert_step.ProofProblem.{Says};
ghost use Rattle.trs_core.specs.Valid.{IsValid};
ghost use Rattle.tree_state.specs.cert_step.ProofStep.{node_step_of, IsWellMade};
ghost use Rattle.tree_state.specs.tree_definitions.Reports.{AreStepsOf, IsFoundStep};
ghost use Rattle.tree_state.specs.cert_step.Nodes.{IsAccepted};
ghost use Rattle.tree_state.specs.tree_definitions.Questions.{goal_count, claims};
ghost use Rattle.tree_state.specs.tree_definitions.History.{Runs, IsOwned, IsFresh, aborted};
ghost use Rattle.tree_state.specs.strategies.Truth.{found_of};
ghost use Rattle.tree_state.specs.Seen.{event_of as event_seen};
ghost use Rattle.tree_state.specs.tree_definitions.States.{opening};
ghost use Rattle.tree_state.specs.tree_definitions.Events.{Replays};
ghost use Rattle.tree_state.specs.tree_definitions.Legal.{IsLegal};
ghost use Rattle.tree_state.specs.tree_definitions.Verdicts.{IsWon};
ghost use Rattle.tree_state.specs.tree_definitions.Replies.{IsClaim, IsPoll, IsPost, IsTaskOf, IsVerdict, Notes};
ghost use Rattle.tree_state.specs.tree_definitions.Replies.{event_of_found, left_of, LeavesProblems};
ghost use Rattle.tree_state.specs.tree_definitions.Replies.{IfTask, IsRunnable};

use crate::tree::Tree;
use std::alloc::Global;
use tree_state::{
    Aborted, Board, Claim, Claimed, Event, Failure, Findings, Limits, Mark, Outcome, Polled,
    Posted, Proof, Question, Task, Verdict, goals_of,
};
use trs_core::{OutOfMemory, Trs};

impl<'a> Tree<'a> {
    /// The tree of a question on a system, with its opening nodes and an empty history.
    pub fn new(
        alloc: Global,
        question: Question,
        system: &'a Trs,
        limits: Limits,
    ) -> Result<Tree<'a>, OutOfMemory>
        ensures { IfOk result (λ t. t ≡ record {
          question = question;
          system = system.now;
          budget = limits.budget;
          history = [];
          state = opening question;
        }) }
    {
        systems_are_valid(system);
        let board = Board::new(alloc, question)?;
        Ok(Tree {
            question,
            system,
            limits,
            board,
        })
    }

    /// Claims a task for a seat: the least open node whose goal is neither won nor lost and that has
    /// a strategy which neither failed nor runs, and the first such strategy. It makes room for the
    /// ending of its ticket.
    pub fn claim(&mut self, alloc: Global, seat: u32) -> Result<Claimed, OutOfMemory>
        ensures claim { IfOk result (IsClaim self.old seat self.new) }
        ensures runnable { IfOk result (IfTask (IsRunnable self.old.system)) }

        // Want of memory leaves the tree as before.
        ensures memory { OnErr result (self.new ≡ self.old) }
    {
        if self.board.is_done() {
            return Ok(Claimed::Done);
        }
        let (n, place) = self.board.find();
        let place = match place {
            None => return Ok(Claimed::Again),
            Some(place) => place,
        };
        let (problem, strategy) = self.board.task(alloc, n, place)?;
        let given = problem.copy(alloc)?;
        let ticket = self.board.claim(seat, n, place, given, strategy)?;
        Ok(Claimed::Task(Task {
            ticket,
            problem,
            strategy,
        }))
    }

    /// Whether an outcome is still wanted under the ticket. If not, the ticket ends.
    pub fn poll(&mut self, ticket: u64) -> Polled
        requires { Runs ticket self.old.history }
        ensures { IsPoll self.old ticket self.new result }
    {
        if !self.board.is_over(ticket) {
            return Polled::Go;
        }
        self.board.end(ticket, Event::Cancelled, Mark::Idle);
        Polled::Cancelled
    }

    /// Posts the outcome of the ticket's task. The ticket ends. `Err` is want of memory: it hands the
    /// outcome back, leaves the tree as before, and comes only for a step that leaves problems.
    pub fn post(&mut self, ticket: u64, outcome: Outcome<'a>) -> Result<Posted, Outcome<'a>>
        requires running { Runs ticket self.old.history }
        requires outcome { IsTaskOf self.old ticket outcome }
        ensures post { IfOk result
            (IsPost self.old ticket (event_of_found outcome.entry.found) self.new) }
        ensures memory { OnErr result (self.new ≡ self.old) }
        ensures back { MatchResult result (λ _. Unit {0})
            (λ o. (o ≡ outcome.entry) × LeavesProblems outcome.entry.found) }
    {
        if self.board.is_over(ticket) {
            self.board
                .end(ticket, event_of(outcome.into_findings()), Mark::Idle);
            return Ok(Posted::Late);
        }
        if self
            .board
            .reserve_nodes(count_left(outcome.findings()))
            .is_err()
        {
            return Err(outcome);
        }
        match outcome.into_findings() {
            Findings::Found(step, left) => self.board.decide(ticket, step, left),
            Findings::NotThere => self.board.fail(ticket, Failure::NotThere),
            Findings::Spent => self.board.fail(ticket, Failure::Spent),
        }
        Ok(Posted::Taken)
    }

    /// Ends the ticket. Where no verdict stands, the tree is aborted, and nothing more is claimed.
    pub fn abort(&mut self, ticket: u64) -> Aborted
        requires { Runs ticket self.old.history }
        ensures { Notes self.old ticket aborted self.new }
    {
        self.board.abort(ticket);
        Aborted::Taken
    }

    /// The goal that was won first, or that all goals are lost.
    pub fn verdict(&self) -> Option<Verdict>
        ensures { IsVerdict self.now result }
    {
        match self.board.winner() {
            Some(goal) => Some(Verdict::Won(goal)),
            None if self.board.has_verdict() => Some(Verdict::Maybe),
            None => None,
        }
    }

    /// The proof of the goal that was won. Its claim is true of the system.
    pub fn certificate(&self, alloc: Global) -> Result<Proof, OutOfMemory>
        requires won { (g : ℕ) × (self.now.state.winner ≡ Some g) }
        ensures claim { IfOk result (λ p. (g : ℕ) → self.now.state.winner ≡ Some g
            → slice_get (claims self.now.question) g ≡ Some p.claim) }

        // The steps are those of the goal, in the order of the walk.
        ensures steps { IfOk result (λ p. (g : ℕ) → self.now.state.winner ≡ Some g
            → AreStepsOf self.now.state.nodes g (map node_step_of p.steps.items)) }
        ensures well_made { IfOk result (λ p. All (λ s. IsWellMade self.now.system s.step)
            (map node_step_of p.steps.items)) }
        ensures found { IfOk result (λ p. All (λ s. IsFoundStep self.now.system self.now.budget s.step)
            (map node_step_of p.steps.items)) }
        ensures accepted { IfOk result (λ p. IsAccepted self.now.system p.claim
            (map node_step_of p.steps.items)) }
        ensures true_claim { IfOk result (λ p. Says self.now.system p.claim) }
    {
        let Some(goal) = self.board.winner() else {
            unreachable!();
        };
        let steps = self.board.steps_of(alloc, goal)?;
        let claim = claim_of(self.question, goal);
        Ok(Proof { claim, steps })
    }

    pub fn is_aborted(&self) -> bool
        ensures { result ≡ self.now.state.is_aborted }
    {
        self.board.is_aborted()
    }

    /// The number of entries of the history. The state is what the history leads to, and legal.
    pub fn history_len(&self) -> u64
        ensures length { result ≡ length self.now.history }
        ensures bound { length self.now.history < 2 ^ 21 }
        ensures replays { Replays (goal_count self.now.question) self.now.system
            (opening self.now.question) self.now.history self.now.state }
        ensures legal { IsLegal (goal_count self.now.question) self.now.system self.now.budget
            self.now.state }

        // All entries about a ticket are of one seat, and none is about a ticket not yet given.
        ensures owned { IsOwned self.now.history }
        ensures fresh { IsFresh (length self.now.state.tickets) self.now.history }

        // At most one goal is ever won.
        ensures once { (g h : ℕ) → g < goal_count self.now.question
            → h < goal_count self.now.question → IsWon self.now.state.nodes g
            → IsWon self.now.state.nodes h → g ≡ h }
    {
        self.board.history_len() as u64
    }

    pub fn system(&self) -> &'a Trs
        ensures { result.now ≡ self.now.system }
    {
        self.system
    }

    pub fn question(&self) -> Question
        ensures { result ≡ self.now.question }
    {
        self.question
    }

    pub fn limits(&self) -> Limits
        ensures { result.budget ≡ self.now.budget }
    {
        self.limits
    }
}

// A law, with nothing to run but the reading of the system: each system is valid.
fn systems_are_valid(system: &Trs)
    ensures { IsValid system.now }
{
    let _rules = system.rules();
}

// What an outcome says of its ticket.
fn event_of(findings: Findings) -> Event
    ensures { event_seen result ≡ event_of_found (found_of findings) }
{
    match findings {
        Findings::Found(step, _) => Event::Found(step),
        Findings::NotThere => Event::Failed(Failure::NotThere),
        Findings::Spent => Event::Failed(Failure::Spent),
    }
}

// How many problems are left.
fn count_left(findings: &Findings) -> usize
    ensures { result ≡ left_of (found_of findings.now) }
{
    match findings {
        Findings::Found(_, left) => left.len(),
        _ => 0,
    }
}

// What a goal claims.
fn claim_of(question: Question, goal: u32) -> Claim
    requires { goal < goal_count question }
    ensures { slice_get (claims question) goal ≡ Some result }
{
    goals_of(question)[goal as usize].claim()
}
