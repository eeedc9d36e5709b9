//! The state to which a list of events leads, by going through all of it.
use crate::events::{Entry, Event, FoundStep};
use crate::state::{Decided, State, new_node, opening};
use std::alloc::Global;
use trs_core::OutOfMemory;
use worker_pool::{Mark, Problem, Question, Ticket};

/// The state after these entries.
pub fn state_after(
    alloc: Global,
    question: Question,
    entries: &[Entry],
) -> Result<State, OutOfMemory> {
    let mut state = opening(alloc, question)?;
    for entry in entries {
        follow(alloc, &mut state, entry)?;
    }
    Ok(state)
}

fn follow(alloc: Global, state: &mut State, entry: &Entry) -> Result<(), OutOfMemory> {
    let is_over = state.is_over(entry.ticket);
    match &entry.event {
        Event::Claimed => claim(state, entry.seat),
        Event::Found(found) if !is_over => decide(alloc, state, entry.ticket, found),
        Event::Failed(failure) if !is_over => {
            Ok(end(state, entry.ticket, Mark::Failed(*failure)))
        }
        Event::Aborted => Ok(abort(state, entry.ticket)),
        _ => Ok(end(state, entry.ticket, Mark::Idle)),
    }
}

/// The seat has claimed what is free.
fn claim(state: &mut State, seat: u32) -> Result<(), OutOfMemory> {
    let Some((node, place)) = state.free() else {
        return Ok(());
    };
    set_mark(state, node, place, Mark::Running);
    state.tickets.push(Ticket {
        seat,
        node,
        place,
        is_running: true,
    })?;
    Ok(())
}

fn set_mark(state: &mut State, n: usize, place: usize, mark: Mark) {
    if let Some(node) = state.nodes.get_mut(n) {
        if let Some(slot) = node.marks.get_mut(place) {
            *slot = mark;
        }
    }
}

/// The ticket has ended, and its strategy has this mark.
fn end(state: &mut State, number: u64, mark: Mark) {
    let Some(ticket) = state.tickets.get(number as usize).copied() else {
        return;
    };
    set_mark(state, ticket.node, ticket.place, mark);
    if let Some(slot) = state.tickets.get_mut(number as usize) {
        slot.is_running = false;
    }
}

fn abort(state: &mut State, number: u64) {
    let aborts = state.verdict().is_none();
    end(state, number, Mark::Idle);
    if aborts {
        state.is_aborted = true;
    }
}

/// The step has decided the ticket's node, and what it leaves are the next nodes.
fn decide(
    alloc: Global,
    state: &mut State,
    number: u64,
    found: &FoundStep,
) -> Result<(), OutOfMemory> {
    end(state, number, Mark::Idle);
    let Some(ticket) = state.tickets.get(number as usize).copied() else {
        return Ok(());
    };
    let first = state.nodes.len();
    let Some(node) = state.nodes.get_mut(ticket.node) else {
        return Ok(());
    };
    let goal = node.goal;
    node.decision = Some(Decided {
        shown: found.shown.to_vec(alloc)?,
        first,
        count: found.left.len(),
    });
    add_nodes(alloc, state, goal, &found.left)?;
    state.winner = state.first_won(alloc)?;
    Ok(())
}

/// Open nodes of a goal with these problems are the next ones.
fn add_nodes(
    alloc: Global,
    state: &mut State,
    goal: u32,
    problems: &[Problem],
) -> Result<(), OutOfMemory> {
    for problem in problems {
        let node = new_node(alloc, goal, problem.copy(alloc)?)?;
        state.nodes.push(node)?;
    }
    Ok(())
}
