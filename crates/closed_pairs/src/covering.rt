ghost use Rattle.closed_pairs.specs.Laws.{JoinedListConcludes, ParallelListConcludes};
ghost use Rattle.closed_pairs.specs.Laws.{StrongListConcludes};

use confluence_theory::{
    joined_peaks, parallel_closed_peaks, parallel_paths, strongly_closed_peaks,
};
use trs_core::Trs;

/// What the check of joined peaks shows of any list of peaks that covers the system.
pub(crate) fn joined_list_concludes(trs: &Trs)
    ensures { JoinedListConcludes trs.now }
{
    trs.rules();
    joined_peaks();
}

/// What the check of parallel closed peaks shows of any list of peaks that covers the system.
pub(crate) fn parallel_list_concludes(trs: &Trs)
    ensures { ParallelListConcludes trs.now }
{
    trs.rules();
    parallel_closed_peaks();
    parallel_paths();
}

/// What the check of strongly joined peaks shows of any list of peaks that covers the system.
pub(crate) fn strong_list_concludes(trs: &Trs)
    ensures { StrongListConcludes trs.now }
{
    trs.rules();
    strongly_closed_peaks();
}
