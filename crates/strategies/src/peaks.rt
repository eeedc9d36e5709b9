ghost use Rattle.std.specs.Prelude.{IfOk};
ghost use Rattle.strategies.specs.Tables.{AreKnownPeaks};

use loop_find::{PeakFault, PooledList, pooled_peaks};
use std::alloc::Global;
use trs_core::{OutOfMemory, Trs};

/// The critical peaks of a system.
#[derive(Drop)]
pub(crate) enum KnownPeaks<'a> {
    /// All of them, with the pairs of their sides.
    Listed(PooledList<'a>),
    /// They pass a limit.
    PastLimit,
}

/// The critical peaks of a system, or that they pass a limit.
pub(crate) fn known_peaks<'a>(alloc: Global, trs: &'a Trs) -> Result<KnownPeaks<'a>, OutOfMemory>
    ensures { IfOk result (AreKnownPeaks trs.now) }
{
    match pooled_peaks(alloc, trs) {
        Ok(found) => Ok(KnownPeaks::Listed(found)),
        Err(PeakFault::TooLarge) => Ok(KnownPeaks::PastLimit),
        Err(PeakFault::TooMany) => Ok(KnownPeaks::PastLimit),
        Err(PeakFault::OutOfMemory) => Err(OutOfMemory),
    }
}
