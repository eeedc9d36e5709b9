ghost use Rattle.rewrite_core.specs.Check.{AnswersBy};
ghost use Rattle.closed_pairs.specs.PeaksFor.{peaks_for as peaks_for_items};

use crit_pairs::{UnbuiltTop, first_peaks};
use rewrite_core::{CheckFault, Peak, StepRefused};
use std::alloc::Global;
use trs_core::Trs;

/// The critical peaks, for a step with so many items: there must be as many. Otherwise they are only
/// counted, and no more of them are made than there are items.
pub(crate) fn peaks_for<'a>(
    alloc: Global,
    trs: &'a Trs,
    items: usize,
) -> Result<Vec<Peak<UnbuiltTop<'a>>>, CheckFault>
    ensures { AnswersBy (λ peaks. peaks.items) (peaks_for_items trs.now.rules items) result }
{
    let found = first_peaks(alloc, trs, items)?;
    let items = items as u64;
    if items != found.count {
        return Err(CheckFault::Refused(StepRefused::Count(found.count, items)));
    }
    Ok(found.peaks)
}
