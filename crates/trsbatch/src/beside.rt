//! Workers that answer a question about problems, by one or by several beside each other.
ghost use Rattle.std.specs.Prelude.{◌≡◌, ◌<◌, ℕ, IfOk, IfSome, All, length, slice_index_or};
ghost use Rattle.trsbatch.specs.Problems.{IsWithinLimit, IsBlockOf, AreBlocksOf};
ghost use Rattle.trsbatch.specs.Placing.{ArePlaced, AreInSlots};

use crate::answering::block_of;
use crate::block::Block;
use crate::longest_first::longest_first;
use crate::placed::{Placed, in_slots};
use crate::problem::Problem;
use command_line::Question;
use program_edge::Gate;
use std::alloc::{AllocError, Global};
use std::sync::atomic::{AtomicUsize, Ordering};
use std::thread;
use std::thread::Threads;

/// The blocks of problems, answered one after the other.
pub(crate) fn blocks_alone<G: Gate>(
    alloc: Global,
    problems: &[Problem],
    question: Question,
    budget: u64,
    gate: &G,
) -> Result<Vec<Block>, AllocError>
    requires { All IsWithinLimit problems.now }
    ensures { IfOk result (λ blocks. AreBlocksOf question budget problems.now blocks.items) }
{
    let mut blocks = Vec::new(alloc);
    for (place, problem) in problems.iter().enumerate() {
        blocks.push(block_at(alloc, place, problem, question, budget, gate))?;
    }
    Ok(blocks)
}

/// The blocks of problems, answered beside each other by so many workers.
pub(crate) fn blocks_beside<R: Threads + Sync, G: Gate>(
    rt: &R,
    alloc: Global,
    problems: &[Problem],
    question: Question,
    budget: u64,
    workers: u32,
    gate: &G,
) -> Result<Vec<Block>, AllocError>
    requires { All IsWithinLimit problems.now }
    ensures { IfOk result (λ blocks. AreBlocksOf question budget problems.now blocks.items) }
{
    let workers = problems.len().min(workers as usize);
    let order = longest_first(alloc, problems)?;
    let placed = placed_blocks(rt, alloc, problems, &order, question, budget, workers, gate)?;
    let slots = in_slots(alloc, problems, placed)?;
    blocks_of(alloc, problems, slots, question, budget, gate)
}

// The blocks that each worker makes. Whoever is free takes the next problem of the order.
fn placed_blocks<R: Threads + Sync, G: Gate>(
    rt: &R,
    alloc: Global,
    problems: &[Problem],
    order: &[usize],
    question: Question,
    budget: u64,
    workers: usize,
    gate: &G,
) -> Result<Vec<Vec<Placed>>, AllocError>
    requires within { All IsWithinLimit problems.now }
    requires order { All (λ place. place < length problems.now) order.now }
    ensures len { IfOk result (λ lists. length lists.items ≡ workers) }
    ensures each { IfOk result (λ lists. (i : ℕ) (d : _) → i < workers →
        ArePlaced question budget problems.now (slice_index_or lists.items i d)) }
{
    let next = AtomicUsize::new(0);
    thread::map_indices(
        rt,
        alloc,
        workers,
        &|_worker: usize| -> Vec<Placed>
            requires within { All IsWithinLimit problems.now }
            requires order { All (λ place. place < length problems.now) order.now }
            ensures { ArePlaced question budget problems.entry.now result }
        { placed_by_one(alloc, problems, order, question, budget, &next, gate) },
    )
}

// The blocks that one worker makes. Where memory for the list of them is wanting, it stops.
fn placed_by_one<G: Gate>(
    alloc: Global,
    problems: &[Problem],
    order: &[usize],
    question: Question,
    budget: u64,
    next: &AtomicUsize,
    gate: &G,
) -> Vec<Placed>
    requires within { All IsWithinLimit problems.now }
    requires order { All (λ place. place < length problems.now) order.now }
    ensures { ArePlaced question budget problems.now result }
{
    let mut placed = Vec::new(alloc);
    for _ in order {
        let turn = next.fetch_add(1, Ordering::SeqCst);
        if turn >= order.len() {
            break;
        }
        let place = order[turn];
        let block = block_at(alloc, place, &problems[place], question, budget, gate);
        if placed.push(Placed { place, block }).is_err() {
            break;
        }
    }
    placed
}

// The blocks of problems, in order. One that is in no slot, since a worker stopped, is made here.
fn blocks_of<G: Gate>(
    alloc: Global,
    problems: &[Problem],
    slots: Vec<Option<Block>>,
    question: Question,
    budget: u64,
    gate: &G,
) -> Result<Vec<Block>, AllocError>
    requires within { All IsWithinLimit problems.now }
    requires slots { AreInSlots question budget problems.now slots.items }
    ensures { IfOk result (λ blocks. AreBlocksOf question budget problems.now blocks.items) }
{
    let mut slots = slots;
    let mut blocks = Vec::new(alloc);
    for (place, problem) in problems.iter().enumerate() {
        let made = slots[place].take();
        blocks.push(block_or(alloc, made, place, problem, question, budget, gate))?;
    }
    Ok(blocks)
}

// The block that was made for a problem. If none was, it is made here.
fn block_or<G: Gate>(
    alloc: Global,
    made: Option<Block>,
    place: usize,
    problem: &Problem,
    question: Question,
    budget: u64,
    gate: &G,
) -> Block
    requires within { IsWithinLimit problem.now }
    requires made { IfSome made (IsBlockOf question budget problem.now) }
    ensures { IsBlockOf question budget problem.now result }
{
    match made {
        Some(block) => block,
        None => block_at(alloc, place, problem, question, budget, gate),
    }
}

// The block of a problem, which stands at a place of the list.
fn block_at<G: Gate>(
    alloc: Global,
    place: usize,
    problem: &Problem,
    question: Question,
    budget: u64,
    gate: &G,
) -> Block
    requires { IsWithinLimit problem.now }
    ensures { IsBlockOf question budget problem.now result }
{
    gate.before(place as u64);
    let block = block_of(alloc, problem, question, budget);
    gate.after(place as u64);
    block
}
