//! Lists of events, in which a step is shown by numbers.
use rewrite_core::PathStep;
use std::alloc::Global;
use trs_core::OutOfMemory;
use worker_pool::{Failure, Findings, GraphItem, Join, Problem, Step};

/// A step that was found, and the problems that it leaves.
#[derive(Drop)]
pub struct FoundStep {
    pub shown: Vec<u64>,
    pub left: Vec<Problem>,
}

/// What becomes of a ticket.
#[derive(Drop)]
pub enum Event {
    Claimed,
    Found(FoundStep),
    Failed(Failure),
    Cancelled,
    Aborted,
}

/// An event, its seat and its ticket.
#[derive(Drop)]
pub struct Entry {
    pub seat: u32,
    pub ticket: u64,
    pub event: Event,
}

/// Copies of problems.
fn copies(alloc: Global, problems: &[Problem]) -> Result<Vec<Problem>, OutOfMemory> {
    let mut copied = Vec::new(alloc);
    for problem in problems {
        copied.push(problem.copy(alloc)?)?;
    }
    Ok(copied)
}

/// What a post of these findings says of its ticket.
pub fn event_of(alloc: Global, findings: &Findings) -> Result<Event, OutOfMemory> {
    match findings {
        Findings::Found(step, left) => Ok(Event::Found(FoundStep {
            shown: numbers_of(alloc, step)?,
            left: copies(alloc, left)?,
        })),
        Findings::NotThere => Ok(Event::Failed(Failure::NotThere)),
        Findings::Spent => Ok(Event::Failed(Failure::Spent)),
    }
}

/// The numbers that show a step.
pub fn numbers_of(alloc: Global, step: &Step) -> Result<Vec<u64>, OutOfMemory> {
    let mut numbers = Vec::new(alloc);
    show(step, &mut numbers)?;
    Ok(numbers)
}

fn show(step: &Step, numbers: &mut Vec<u64>) -> Result<(), OutOfMemory> {
    numbers.push(kind(step))?;
    match step {
        Step::Graph(items) => show_items(items, numbers),
        Step::Subterm(places) => show_places(places, numbers),
        Step::Loop { path, .. } => show_path(path, numbers),
        Step::Newman(joins) => show_joins(joins, numbers),
        Step::Fork { left, right, .. } => {
            show_path(left, numbers)?;
            show_path(right, numbers)
        }
        _ => Ok(()),
    }
}

fn kind(step: &Step) -> u64 {
    match step {
        Step::Dp => 0,
        Step::Graph(_) => 1,
        Step::Subterm(_) => 2,
        Step::Order(_) => 3,
        Step::UsablePoly(_) => 4,
        Step::Loop { .. } => 5,
        Step::Newman(_) => 6,
        Step::Parallel(_) => 7,
        Step::Strong(_) => 8,
        Step::Label { .. } => 9,
        Step::Fork { .. } => 10,
        Step::Confluence => 11,
    }
}

fn show_items(items: &[GraphItem], numbers: &mut Vec<u64>) -> Result<(), OutOfMemory> {
    for item in items {
        numbers.push(u64::from(matches!(item, GraphItem::Single(_))))?;
        for pair in item.members() {
            numbers.push(u64::from(*pair))?;
        }
    }
    Ok(())
}

fn show_places(places: &[(u32, u8)], numbers: &mut Vec<u64>) -> Result<(), OutOfMemory> {
    for (symbol, place) in places {
        numbers.push(u64::from(*symbol))?;
        numbers.push(u64::from(*place))?;
    }
    Ok(())
}

fn show_path(path: &[PathStep], numbers: &mut Vec<u64>) -> Result<(), OutOfMemory> {
    numbers.push(path.len() as u64)?;
    for step in path {
        numbers.push(u64::from(step.rule))?;
    }
    Ok(())
}

fn show_joins(joins: &[Join], numbers: &mut Vec<u64>) -> Result<(), OutOfMemory> {
    for join in joins {
        show_path(&join.left, numbers)?;
        show_path(&join.right, numbers)?;
    }
    Ok(())
}
