//! What late posts and cancelled tickets leave.
use crate::comparing::Pair;
use crate::endings::ends_as;
use crate::systems::{Case, system};
use std::alloc::Global;
use std::test::Fail;
use worker_pool::{Findings, Question};

/// Claims so many tasks, and says whether there were so many.
fn claim_all(alloc: Global, pair: &mut Pair, count: u64) -> Result<bool, Fail> {
    for seat in 0..count {
        let before = pair.state.tickets.len();
        if !pair.claim(alloc, (seat % 5) as u32)? || pair.state.tickets.len() == before {
            return Ok(false);
        }
    }
    Ok(true)
}

/// Posts the outcomes of these tickets, and says whether the answers were right.
fn post_all(alloc: Global, pair: &mut Pair, from: u64, to: u64) -> Result<bool, Fail> {
    for ticket in from..to {
        if !pair.post(alloc, ticket)? || !pair.agrees() {
            return Ok(false);
        }
    }
    Ok(true)
}

/// How many problems the ticket's outcome leaves.
fn count_left(pair: &Pair, ticket: u64) -> usize {
    match pair.trial.outcome(ticket) {
        Some(outcome) => match outcome.findings() {
            Findings::Found(_, left) => left.len(),
            _ => 0,
        },
        None => 0,
    }
}

/// Calls, and what holds between them.
enum Call {
    /// So many claims, each of which gives a task.
    Claims(u64),
    /// A claim that gives none.
    ClaimsNothing,
    /// Posts of the outcomes of the tickets from one number up to another.
    Posts(u64, u64),
    Poll(u64),
    /// The ticket's outcome leaves so many problems.
    Leaves(u64, usize),
    /// There are so many nodes.
    HasNodes(usize),
}

/// Makes the calls, and says whether the answers were right.
fn is_right(alloc: Global, pair: &mut Pair, call: &Call) -> Result<bool, Fail> {
    match call {
        Call::Claims(count) => claim_all(alloc, pair, *count),
        Call::ClaimsNothing => Ok(!claim_all(alloc, pair, 1)?),
        Call::Posts(from, to) => post_all(alloc, pair, *from, *to),
        Call::Poll(ticket) => Ok(pair.poll(alloc, *ticket)? && pair.agrees()),
        Call::Leaves(ticket, count) => Ok(count_left(pair, *ticket) == *count),
        Call::HasNodes(count) => Ok(pair.state.nodes.len() == *count),
    }
}

/// Two strategies find steps for both pairs: the subterm criterion leaves one problem and the graph
/// two. The children of the first alone are made.
const OF_TWO_FOUND: Case = Case {
    question: Question::Termination,
    letters: b"fgs",
    rules: &[b"fsx>fx", b"gx>gx"],
    budget: 100,
};

const WITH_A_LATE_POST: [Call; 11] = [
    Call::Claims(2),
    Call::Posts(0, 1),
    Call::Claims(6),
    Call::Leaves(2, 2),
    Call::Leaves(3, 1),
    Call::Posts(3, 4),
    Call::HasNodes(4),
    Call::Posts(2, 3),
    Call::HasNodes(4),
    Call::Claims(6),
    Call::ClaimsNothing,
];

#[test]
fn a_late_post_adds_no_children(rt: HostRuntime) -> Result<(), Fail> {
    let case = &OF_TWO_FOUND;
    let trs = system(rt.alloc(), case)?;
    let mut pair = Pair::new(rt.alloc(), case.question, &trs, case.budget)?;
    for (number, call) in WITH_A_LATE_POST.iter().enumerate() {
        assert!(rt; is_right(rt.alloc(), &mut pair, call)?, "call {number}");
    }
    Ok(())
}

/// No search has a budget. Of two groups the second has failed, while a strategy of the first was
/// running: after that is cancelled, the report names the second group, place 3 of the walk.
const OF_NO_BUDGET: Case = Case {
    question: Question::Termination,
    letters: b"fgs",
    rules: &[b"fsx>fx", b"gsx>gx"],
    budget: 0,
};

const WITH_A_CANCELLED_TICKET: [Call; 8] = [
    Call::Claims(2),
    Call::Posts(0, 2),
    Call::Claims(1),
    Call::Posts(2, 3),
    Call::Claims(12),
    Call::Posts(3, 8),
    Call::Posts(9, 15),
    Call::Poll(8),
];

#[test]
fn a_cancelled_strategy_has_not_failed(rt: HostRuntime) -> Result<(), Fail> {
    let case = &OF_NO_BUDGET;
    let trs = system(rt.alloc(), case)?;
    let mut pair = Pair::new(rt.alloc(), case.question, &trs, case.budget)?;
    for (number, call) in WITH_A_CANCELLED_TICKET.iter().enumerate() {
        assert!(rt; is_right(rt.alloc(), &mut pair, call)?, "call {number}");
    }
    assert!(rt; ends_as(rt.alloc(), &pair.state, pair.trial.tree())?);
    Ok(())
}
