ghost use Rattle.std.specs.Prelude.{◌≡◌, IfOk, IfErr};
ghost use Rattle.rewrite_core.specs.Check.{Refuses};
ghost use Rattle.crit_pairs.specs.PeaksCheck.{ListsCriticalPeaks, peaks_refusal};
ghost use Rattle.crit_pairs.specs.FirstPeaks.{AreFirst};

use crate::listing::list_peaks;
use crate::{Peak, PeakFault, UnbuiltTop};
use rewrite_core::{CheckFault, StepRefused};
use std::alloc::Global;
use trs_core::Trs;

/// The first critical peaks of a system, and the number of all of them. Their tops are not built.
#[derive(Drop)]
pub struct FirstPeaks<'a> {
    pub peaks: Vec<Peak<UnbuiltTop<'a>>>,
    pub count: u64,
}

/// The critical peaks, for a step that has `most` items: all are counted, and so many at most are
/// listed.
pub fn first_peaks<'a>(
    alloc: Global,
    trs: &'a Trs,
    most: usize,
) -> Result<FirstPeaks<'a>, CheckFault>
    ensures first { IfOk result (AreFirst trs.now.rules most) }
    ensures refused { IfErr result (Refuses (ListsCriticalPeaks trs.now.rules)) }
{
    match list_peaks(alloc, trs, most) {
        Ok(found) => Ok(FirstPeaks {
            peaks: found.list,
            count: found.count,
        }),
        Err(fault) => Err(peaks_refused(fault)),
    }
}

/// What a check answers where the critical peaks are not listed.
fn peaks_refused(fault: PeakFault) -> CheckFault
    ensures { result ≡ peaks_refusal fault }
{
    match fault {
        PeakFault::TooLarge => CheckFault::Refused(StepRefused::PeaksTooLarge),
        PeakFault::TooMany => CheckFault::Refused(StepRefused::PeaksTooMany),
        PeakFault::OutOfMemory => CheckFault::OutOfMemory,
    }
}
