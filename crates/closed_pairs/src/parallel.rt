ghost use Rattle.std.specs.Prelude.{◌↔◌, IfOk, IsTrue, map};
ghost use Rattle.trs_defs.specs.Claims.{IsConfluent};
ghost use Rattle.confluence_theory.specs.Peak.{Covers};
ghost use Rattle.rewrite_core.specs.Check.{Answers};
ghost use Rattle.crit_pairs.specs.PlainPeak.{plain};
ghost use Rattle.closed_pairs.specs.ParallelClosed.{paths_of, IsParallel};
ghost use Rattle.closed_pairs.specs.ParallelClosed.{closes_in_parallel, are_parallel_closed};
ghost use Rattle.closed_pairs.specs.ParallelClosed.{critical_peaks_are_closed};
ghost use Rattle.closed_pairs.specs.ParallelClosed.{parallel_conditions_on, parallel_conditions};
ghost use Rattle.closed_pairs.specs.LeftOf.{IsLeftOf};

use crate::counting::peaks_for;
use crate::covering::parallel_list_concludes;
use crate::ends::{ItemPath, end_of, run, same_ends};
use crate::linear::left_linear_check;
use crate::pooled_closings::pooled_peaks_are_closed;
use crit_pairs::PooledPeaks;
use rewrite_core::{BuiltTop, CheckFault, PathStep, Peak, StepRefused};
use std::alloc::Global;
use trs_core::Trs;

/// Sees that the system is left-linear, and that one parallel step leads from the left side of each
/// critical peak to its right one.
pub fn parallel_closed_check(
    alloc: Global,
    trs: &Trs,
    steps: &[Vec<PathStep>],
) -> Result<(), CheckFault>
    ensures answers { Answers (parallel_conditions trs.now (paths_of steps.now)) result }
{
    left_linear_check(trs)?;
    let found = PooledPeaks::of(alloc, trs, steps.len())?;
    match found {
        Some(pooled) => pooled_peaks_are_closed(alloc, trs, pooled, steps),
        None => listed_peaks_are_closed(alloc, trs, steps),
    }
}

/// Sees that one parallel step leads from the left side of each critical peak to its right one. The
/// peaks are listed.
fn listed_peaks_are_closed(
    alloc: Global,
    trs: &Trs,
    steps: &[Vec<PathStep>],
) -> Result<(), CheckFault>
    ensures { Answers
        (critical_peaks_are_closed trs.now.rules (paths_of steps.now)) result }
{
    let peaks = peaks_for(alloc, trs, steps.len())?;
    peaks_are_closed(alloc, trs, &peaks, steps)
}

/// Sees that the system is left-linear, and that there is an item for each peak, which is one
/// parallel step from its left side to its right one.
pub fn parallel_check(
    alloc: Global,
    trs: &Trs,
    peaks: &[Peak],
    steps: &[Vec<PathStep>],
) -> Result<(), CheckFault>
    ensures answers { Answers
        (parallel_conditions_on trs.now.rules peaks.now (paths_of steps.now)) result }
    ensures confluent { Covers trs.now.rules (map plain peaks.now) →
        IfOk result (λ _. IsConfluent trs.now) }
{
    parallel_list_concludes(trs);
    left_linear_check(trs)?;
    peaks_are_closed(alloc, trs, peaks, steps)
}

/// Sees that there is an item for each peak, which is one parallel step from its left side to its
/// right one.
fn peaks_are_closed<T: BuiltTop>(
    alloc: Global,
    trs: &Trs,
    peaks: &[Peak<T>],
    steps: &[Vec<PathStep>],
) -> Result<(), CheckFault>
    ensures { Answers
        (are_parallel_closed trs.now.rules peaks.now (paths_of steps.now)) result }
{
    if steps.len() != peaks.len() {
        return Err(CheckFault::Refused(StepRefused::Count(peaks.len() as u64, steps.len() as u64)));
    }
    for (n, peak) in peaks.iter().enumerate() {
        peak_is_closed(alloc, trs, n as u64, peak, &steps[n])?;
    }
    Ok(())
}

/// Sees that item number `n` is one parallel step from the left side of a peak to its right one.
fn peak_is_closed<T: BuiltTop>(
    alloc: Global,
    trs: &Trs,
    n: u64,
    peak: &Peak<T>,
    path: &[PathStep],
) -> Result<(), CheckFault>
    ensures { Answers (closes_in_parallel trs.now.rules n peak.now path.now) result }
{
    if !is_parallel(path) {
        return Err(CheckFault::Refused(StepRefused::NotParallel(n)));
    }
    let left = T::term(&peak.left);
    let path = ItemPath {
        start: left,
        steps: path,
        number: 0,
    };
    let made = run(alloc, trs, n, &path)?;
    same_ends(end_of(left, &made), T::term(&peak.right), n)
}

/// Whether the path is one parallel step, written from the left: each position stands before the
/// next one, and is parallel to it. It costs as much as the positions have places.
pub(crate) fn is_parallel(path: &[PathStep]) -> bool
    ensures { IsTrue result ↔ IsParallel path.now }
{
    let [first, rest @ ..] = path else {
        return true;
    };
    let mut previous = first;
    for step in rest {
        if !is_left_of(previous.place.places(), step.place.places()) {
            return false;
        }
        previous = step;
    }
    true
}

/// Whether the first places that differ are smaller in the first position.
fn is_left_of(p: &[u8], q: &[u8]) -> bool
    ensures { IsTrue result ↔ IsLeftOf p.now q.now }
{
    for (i, place) in p.iter().enumerate() {
        let Some(other) = q.get(i) else {
            return false;
        };
        if place != other {
            return place < other;
        }
    }
    false
}
