//! The peak at the root that an inner rule has beside that of a rule with the same left side.
ghost use Rattle.std.specs.Prelude.{◌≡◌, ℕ, List, [], IsTrue, false, IfOk, IfErr, OnOk, IfSome, slice_get};
ghost use Rattle.trs_defs.specs.System.{RewriteRule};
ghost use Rattle.crit_pairs.specs.EqualLefts.{left_side};
ghost use Rattle.crit_pairs.specs.Repeated.{IsLonger};
ghost use Rattle.crit_pairs.specs.RepeatedTops.{IsTopAt};
ghost use Rattle.crit_pairs.specs.Walk.{Adds, StopsAt, one_spot};
ghost use Rattle.crit_pairs.specs.WholeSides.{IsRightOf, IsWholeSide};

use crate::adding::{position_of, push_peak};
use crate::listing::Peaks;
use crate::repeated_tops::RepeatedTop;
use crate::sides::PeakTop;
use crate::whole_sides::WholeSide;
use crate::{Peak, PeakFault};
use std::alloc::Global;

/// Adds the peak at the root of an inner rule with this right side, where its top and its right result
/// are known from a rule with the same left side. `false` where nothing is known, or no copy can be
/// listed.
pub(crate) fn add_beside<'a, T: PeakTop<'a>>(
    alloc: Global,
    known: Option<RepeatedTop>,
    inner: u32,
    side: &WholeSide<'a>,
    place: &[u8],
    peaks: &mut Peaks<T, T::Terms>,
) -> Result<bool, PeakFault>
    requires root { place.now ≡ [] }
    requires held { (rules : List RewriteRule) × (r : RewriteRule)
        × T.holds peaks.old.terms rules peaks.old.list.items
        × (slice_get rules inner ≡ Some r) × IsWholeSide r.right side.now }
    ensures moves { IfOk result (λ is_added. IsTrue is_added → (rules : List RewriteRule) (j : ℕ)
        → IsRightOf rules inner side.now → IfSome known (IsTopAt rules j place.now
        (left_side (slice_get rules inner)) peaks.old.list.items)
        → Adds rules peaks.old (one_spot j place.now inner) peaks.new) }
    ensures same { IfOk result (λ is_added. is_added ≡ false → peaks.new ≡ peaks.old) }
    ensures longer { OnOk result (IsLonger peaks.old.list.items peaks.new.list.items) }
    ensures stops { IfErr result (λ fault. (rules : List RewriteRule) (j : ℕ)
        → IsRightOf rules inner side.now → IfSome known (IsTopAt rules j place.now
        (left_side (slice_get rules inner)) peaks.old.list.items)
        → StopsAt rules peaks.old (one_spot j place.now inner) fault) }
    ensures held { (rules : List RewriteRule)
        → T.holds peaks.old.terms rules peaks.old.list.items
        → OnOk result (T.holds peaks.new.terms rules peaks.new.list.items) }
{
    let Some(known) = known else {
        return Ok(false);
    };
    let nodes = known.nodes.saturating_add(side.size);
    if !peaks.has_room() {
        peaks.count_one(nodes)?;
        return Ok(true);
    }
    let Some(number) = known.number else {
        return Ok(false);
    };
    let Some(peak) = peaks.list.get(number) else {
        return Ok(false);
    };
    let Some(top) = T::copied(alloc, &peak.top)? else {
        return Ok(false);
    };
    let terms = &mut peaks.terms;
    let (left, right) = T::sides_beside(alloc, inner, side, number, &peak.right, terms)?;
    let next = Peak {
        top,
        left,
        right,
        outer: peak.outer,
        inner,
        place: position_of(alloc, place)?,
    };
    push_peak(&mut peaks.list, next)?;
    peaks.count_one(nodes)?;
    Ok(true)
}
