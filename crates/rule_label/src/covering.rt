ghost use Rattle.rule_label.specs.Laws.{DecreasingListConcludes};

use confluence_theory::{decreasing_peaks, followed_paths};
use trs_core::Trs;

/// What the check of decreasing peaks shows of any list of peaks that covers the system.
pub(crate) fn decreasing_list_concludes(trs: &Trs)
    ensures { DecreasingListConcludes trs.now }
{
    trs.rules();
    decreasing_peaks();
    followed_paths();
}
