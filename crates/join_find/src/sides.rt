ghost use Rattle.std.specs.Prelude.{List, Ok};
ghost use Rattle.rewrite_core.specs.PlacedPeak.{PlacedPeak};
ghost use Rattle.closed_pairs.specs.crit_pairs.PeakList.{ListsPeaks};
ghost use Rattle.join_find.specs.Sides.{HaveSides};

use trs_core::{Trs, systems_are_valid};

/// A law, with nothing to run but the reading of the system: the sides of its critical peaks keep
/// the limits, and no symbol of them has more than 255 arguments.
pub fn critical_peaks_have_sides(trs: &Trs)
    ensures { (peaks : List PlacedPeak) → ListsPeaks trs.now.rules (Ok peaks) → HaveSides peaks }
{
    systems_are_valid(trs);
}
