//! How many nodes the critical peaks of a system seem to have. Only time and memory depend on it.
use crate::apart::RulesApart;
use crate::overlapping::overlap;
use crate::sides::MOST_NODES;
use crate::skeleton::Skeleton;
use std::alloc::Global;
use trs_core::{OutOfMemory, Rule, Term};

/// The peaks of about so many outer rules are looked at, and of fewer than twice as many.
const SAMPLED: usize = 16;

/// Of fewer rules too many would be unified twice.
const MANY_RULES: usize = 64;

/// An outer rule whose peaks are looked at: its number, and the numbers of nodes of its sides.
#[derive(Clone, Copy)]
struct Sample {
    number: usize,
    left: u64,
    right: u64,
    /// Whether left sides are unified. Otherwise rules seem to overlap wherever no symbols clash.
    unifies: bool,
}

impl Sample {
    fn of(number: usize, outer: &Rule, unifies: bool) -> Sample {
        Sample {
            number,
            left: outer.left.size(),
            right: outer.right.size(),
            unifies,
        }
    }
}

/// How many nodes all peaks seem to have, by those of some outer rules: wherever no symbols clash there
/// seems to be one, of rules whose right sides are as large as those of the outer rule.
pub(crate) fn expected_nodes(alloc: Global, rules: &RulesApart) -> Result<u64, OutOfMemory> {
    sampled_nodes(alloc, rules, false)
}

/// Whether all peaks seem to have too many nodes. Where no symbols clash, left sides of these outer
/// rules are unified too: rules in which variables occur twice may seldom overlap.
pub(crate) fn too_many_expected(alloc: Global, rules: &RulesApart) -> Result<bool, OutOfMemory> {
    if rules.rules().len() < MANY_RULES || expected_nodes(alloc, rules)? <= MOST_NODES {
        return Ok(false);
    }
    let total = sampled_nodes(alloc, rules, true)?;
    Ok(MOST_NODES < total)
}

fn sampled_nodes(alloc: Global, rules: &RulesApart, unifies: bool) -> Result<u64, OutOfMemory> {
    let all = rules.rules();
    let step = all.len() / SAMPLED + 1;
    let mut places = Vec::new(alloc);
    let mut total: u64 = 0;
    for (j, outer) in all.iter().enumerate() {
        if j % step == 0 {
            if let Some(skeleton) = rules.skeletons().get(j) {
                let sample = Sample::of(j, outer, unifies);
                let more = nodes_from(alloc, rules, sample, &outer.left, skeleton, &mut places)?;
                total = total.saturating_add(more);
            }
        }
    }
    Ok(total.saturating_mul(step as u64))
}

/// Those of the peaks of an outer rule at a part of its left side and below.
fn nodes_from(
    alloc: Global,
    rules: &RulesApart,
    sample: Sample,
    part: &Term,
    skeleton: &Skeleton,
    places: &mut Vec<usize>,
) -> Result<u64, OutOfMemory> {
    match part {
        Term::Var(_) => Ok(0),
        Term::App(f, args) => {
            let mut total = nodes_at(alloc, rules, sample, part, skeleton, *f, places)?;
            for (arg, below) in args.items.iter().zip(skeleton.parts()) {
                let more = nodes_from(alloc, rules, sample, arg, below, places)?;
                total = total.saturating_add(more);
            }
            Ok(total)
        }
    }
}

/// Those of the peaks of an outer rule at a part of its left side, which has this root.
fn nodes_at(
    alloc: Global,
    rules: &RulesApart,
    sample: Sample,
    part: &Term,
    skeleton: &Skeleton,
    root: u32,
    places: &mut Vec<usize>,
) -> Result<u64, OutOfMemory> {
    let mut count: u64 = 0;
    for i in rules.with_root(root) {
        if seem_to_overlap(alloc, rules, sample, part, skeleton, *i as usize, places)? {
            count = count.saturating_add(1);
        }
    }
    if count == 0 {
        return Ok(0);
    }
    let top = sample.left;
    let right = sample.right;
    let left = top.saturating_sub(part.size()).saturating_add(right);
    Ok(count.saturating_mul(top.saturating_add(left).saturating_add(right)))
}

/// Whether rule `i` seems to overlap a part of the left side of an outer rule.
fn seem_to_overlap(
    alloc: Global,
    rules: &RulesApart,
    sample: Sample,
    part: &Term,
    skeleton: &Skeleton,
    i: usize,
    places: &mut Vec<usize>,
) -> Result<bool, OutOfMemory> {
    let (Some(inner), Some(left)) = (rules.skeletons().get(i), rules.apart_lefts().get(i)) else {
        return Ok(false);
    };
    if skeleton.clashes(inner) {
        return Ok(false);
    }
    if !sample.unifies {
        return Ok(true);
    }
    let occurrences = rules.occurrences(i, sample.number);
    match overlap(alloc, part, left.term(), occurrences, places)? {
        None => Ok(false),
        Some(unifier) => {
            unifier.hand_back(places);
            Ok(true)
        }
    }
}
