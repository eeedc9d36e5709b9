//! Peaks that are closed by parallel steps, in the pool in which their sides have ids.
ghost use Rattle.std.specs.Prelude.{◌≡◌, ◌<◌, List, Some, slice_get};
ghost use Rattle.rewrite_core.specs.PlacedPeak.{PlacedPeak};
ghost use Rattle.rewrite_core.specs.Check.{Answers};
ghost use Rattle.crit_pairs.specs.PooledPeaks.{count_of, HoldsPeaks, ArePooled};
ghost use Rattle.closed_pairs.specs.ParallelClosed.{paths_of, closes_in_parallel};
ghost use Rattle.closed_pairs.specs.ParallelClosed.{critical_peaks_are_closed};

use crate::parallel::is_parallel;
use crate::pooled::same_ids;
use crit_pairs::PooledPeaks;
use rewrite_core::{CheckFault, PathStep, StepRefused};
use std::alloc::Global;
use trs_core::Trs;

/// Sees that there is an item for each critical peak, which is one parallel step from its left side to
/// its right one.
pub(crate) fn pooled_peaks_are_closed(
    alloc: Global,
    trs: &Trs,
    peaks: PooledPeaks,
    steps: &[Vec<PathStep>],
) -> Result<(), CheckFault>
    requires { ArePooled trs.now.rules peaks }
    ensures { Answers
        (critical_peaks_are_closed trs.now.rules (paths_of steps.now)) result }
{
    let count = peaks.len();
    if steps.len() != count {
        return Err(CheckFault::Refused(StepRefused::Count(count as u64, steps.len() as u64)));
    }
    let mut pooled = peaks;
    for (n, path) in steps.iter().enumerate() {
        pooled.make_room();
        pooled_peak_is_closed(alloc, trs, n, &mut pooled, path)?;
    }
    Ok(())
}

/// Sees that item number `n` is one parallel step from the left side of the peak of this number to its
/// right one.
fn pooled_peak_is_closed(
    alloc: Global,
    trs: &Trs,
    n: usize,
    peaks: &mut PooledPeaks,
    path: &[PathStep],
) -> Result<(), CheckFault>
    requires peaks { ArePooled trs.now.rules peaks.old }
    requires there { n < count_of peaks.old }
    ensures answers { (all : List PlacedPeak) (p : PlacedPeak) → HoldsPeaks all peaks.old
        → slice_get all n ≡ Some p
        → Answers (closes_in_parallel trs.now.rules n p path.now) result }
    ensures peaks { (all : List PlacedPeak) → HoldsPeaks all peaks.old → HoldsPeaks all peaks.new }
{
    let item = n as u64;
    if !is_parallel(path) {
        return Err(CheckFault::Refused(StepRefused::NotParallel(item)));
    }
    let pair = peaks.pair(n);
    let end = peaks.end_of_path(alloc, trs, pair.left, path, item, 0)?;
    same_ids(peaks, end, pair.right, item)
}
