ghost use Rattle.std.specs.Prelude.{IfOk, map};
ghost use Rattle.trs_defs.specs.Claims.{IsTerminating, IsConfluent};
ghost use Rattle.confluence_theory.specs.Peak.{Covers};
ghost use Rattle.rewrite_core.specs.Check.{Answers};
ghost use Rattle.crit_pairs.specs.PlainPeak.{plain};
ghost use Rattle.closed_pairs.specs.Joined.{joins, are_joined, newman_conditions};

use crate::counting::peaks_for;
use crate::covering::joined_list_concludes;
use crate::ends::{ItemPath, meet};
use crate::pooled::pooled_peaks_are_joined;
use crit_pairs::PooledPeaks;
use rewrite_core::{BuiltTop, CheckFault, Join, Peak, StepRefused};
use std::alloc::Global;
use trs_core::Trs;

/// Sees that the paths join each critical peak. They may refuse for `PeaksTooLarge`,
/// `PeaksTooMany`, and what `join_check` does.
pub fn newman_check(alloc: Global, trs: &Trs, joins: &[Join]) -> Result<(), CheckFault>
    ensures answers { Answers (newman_conditions trs.now joins.now) result }
{
    let found = PooledPeaks::of(alloc, trs, joins.len())?;
    match found {
        Some(pooled) => pooled_peaks_are_joined(alloc, trs, pooled, joins),
        None => listed_peaks_are_joined(alloc, trs, joins),
    }
}

/// The same, where the peaks are listed.
fn listed_peaks_are_joined(alloc: Global, trs: &Trs, joins: &[Join]) -> Result<(), CheckFault>
    ensures { Answers (newman_conditions trs.now joins.now) result }
{
    let peaks = peaks_for(alloc, trs, joins.len())?;
    peaks_are_joined(alloc, trs, &peaks, joins)
}

/// Sees that there is an item for each peak, and that its paths join the peak. Of a system that
/// terminates, the list may be any one that covers it.
pub fn join_check(
    alloc: Global,
    trs: &Trs,
    peaks: &[Peak],
    joins: &[Join],
) -> Result<(), CheckFault>
    ensures answers { Answers (are_joined trs.now.rules peaks.now joins.now) result }
    ensures confluent { Covers trs.now.rules (map plain peaks.now) → IsTerminating trs.now →
        IfOk result (λ _. IsConfluent trs.now) }
{
    joined_list_concludes(trs);
    peaks_are_joined(alloc, trs, peaks, joins)
}

/// Sees that there is an item for each peak, and that its paths join the peak.
fn peaks_are_joined<T: BuiltTop>(
    alloc: Global,
    trs: &Trs,
    peaks: &[Peak<T>],
    joins: &[Join],
) -> Result<(), CheckFault>
    ensures { Answers (are_joined trs.now.rules peaks.now joins.now) result }
{
    if joins.len() != peaks.len() {
        return Err(CheckFault::Refused(StepRefused::Count(peaks.len() as u64, joins.len() as u64)));
    }
    for (n, peak) in peaks.iter().enumerate() {
        peak_is_joined(alloc, trs, n as u64, peak, &joins[n])?;
    }
    Ok(())
}

/// Sees that the two paths of item number `n` lead from the sides of a peak to one term.
pub fn peak_is_joined<T: BuiltTop>(
    alloc: Global,
    trs: &Trs,
    n: u64,
    peak: &Peak<T>,
    join: &Join,
) -> Result<(), CheckFault>
    ensures answers { Answers (joins trs.now.rules n peak.now join.now) result }
{
    let left = ItemPath {
        start: T::term(&peak.left),
        steps: &join.left,
        number: 0,
    };
    let right = ItemPath {
        start: T::term(&peak.right),
        steps: &join.right,
        number: 1,
    };
    meet(alloc, trs, n, &left, &right)
}
