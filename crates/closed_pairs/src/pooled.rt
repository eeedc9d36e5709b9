//! Peaks that are joined by paths in the pool in which their sides have ids.
ghost use Rattle.std.specs.Prelude.{◌≡◌, ◌<◌, List, Some, slice_get};
ghost use Rattle.rewrite_core.specs.PlacedPeak.{PlacedPeak};
ghost use Rattle.rewrite_core.specs.Check.{Answers, Needs};
ghost use Rattle.rewrite_core.specs.declared.checks.refusals.StepRefused.TheVariants.{EndsDiffer};
ghost use Rattle.crit_pairs.specs.PooledPeaks.{HasId, tree_of, count_of, HoldsPeaks, ArePooled};
ghost use Rattle.closed_pairs.specs.Joined.{joins, newman_conditions};

use crit_pairs::PooledPeaks;
use rewrite_core::{CheckFault, Join, StepRefused};
use std::alloc::Global;
use trs_core::Trs;

/// Sees that there is an item for each critical peak, and that its paths join the peak.
pub(crate) fn pooled_peaks_are_joined(
    alloc: Global,
    trs: &Trs,
    peaks: PooledPeaks,
    joins: &[Join],
) -> Result<(), CheckFault>
    requires { ArePooled trs.now.rules peaks }
    ensures { Answers (newman_conditions trs.now joins.now) result }
{
    let count = peaks.len();
    if joins.len() != count {
        return Err(CheckFault::Refused(StepRefused::Count(count as u64, joins.len() as u64)));
    }
    let mut pooled = peaks;
    for (n, join) in joins.iter().enumerate() {
        pooled.make_room();
        pooled_peak_is_joined(alloc, trs, n, &mut pooled, join)?;
    }
    Ok(())
}

/// Sees that the two paths of item number `n` lead from the sides of the peak of this number to one
/// term.
fn pooled_peak_is_joined(
    alloc: Global,
    trs: &Trs,
    n: usize,
    peaks: &mut PooledPeaks,
    join: &Join,
) -> Result<(), CheckFault>
    requires peaks { ArePooled trs.now.rules peaks.old }
    requires there { n < count_of peaks.old }
    ensures answers { (all : List PlacedPeak) (p : PlacedPeak) → HoldsPeaks all peaks.old
        → slice_get all n ≡ Some p → Answers (joins trs.now.rules n p join.now) result }
    ensures peaks { (all : List PlacedPeak) → HoldsPeaks all peaks.old → HoldsPeaks all peaks.new }
{
    let pair = peaks.pair(n);
    let item = n as u64;
    let left = peaks.end_of_path(alloc, trs, pair.left, &join.left, item, 0)?;
    let right = peaks.end_of_path(alloc, trs, pair.right, &join.right, item, 1)?;
    same_ids(peaks, left, right, item)
}

/// Sees that the ids of two ends of an item stand for one term.
pub(crate) fn same_ids(
    peaks: &PooledPeaks,
    first: u32,
    second: u32,
    item: u64,
) -> Result<(), CheckFault>
    requires first { HasId peaks.now first }
    requires second { HasId peaks.now second }
    ensures { Answers (Needs (tree_of peaks.now first ≡ tree_of peaks.now second)
        (EndsDiffer item)) result }
{
    if peaks.is_same(first, second) {
        Ok(())
    } else {
        Err(CheckFault::Refused(StepRefused::EndsDiffer(item)))
    }
}
