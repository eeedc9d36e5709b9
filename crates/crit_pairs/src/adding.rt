//! Critical peaks as they are added to a list, or only counted.
ghost use Rattle.std.specs.Prelude.{◌≡◌, ◌<◌, ◌≤◌, ◌++◌, ℕ, List, ◌∷◌, [], All, IsTrue, Some, false};
ghost use Rattle.std.specs.Prelude.{IfOk, IfErr, OnOk, IfSome, length, slice_get};
ghost use Rattle.trs_defs.specs.Position.{subterm_at};
ghost use Rattle.trs_defs.specs.System.{RewriteRule};
ghost use Rattle.trs_defs.specs.Unifier.{IsMostGeneralUnifier};
ghost use Rattle.trs_core.specs.SystemLimits.{HaveSmallVariables};
ghost use Rattle.trs_core.specs.View.{tree};
ghost use Rattle.crit_pairs.specs.Apart.{renamed_apart};
ghost use Rattle.crit_pairs.specs.MadePairs.{spot};
ghost use Rattle.crit_pairs.specs.Overlapping.{substitution};
ghost use Rattle.crit_pairs.specs.Repeated.{IsAdded, IsRepeated, IsLonger};
ghost use Rattle.crit_pairs.specs.Walk.{Adds, StopsAt, IsPartOf, one_spot};

use crate::apart::RulesApart;
use crate::listing::Peaks;
use crate::overlapping::{OverlapUnifier, overlap};
use crate::repeated::AddedPeak;
use crate::results::count_overlap;
use crate::sides::PeakTop;
use crate::{Peak, PeakFault};
use confluence_theory::overlaps_unify;
use std::alloc::Global;
use trs_core::{OutOfMemory, Position, Rule, Term};

/// Adds the peak of an inner rule at a position, where that of an equal rule is known. `false` where
/// nothing is known, or no copy can be listed.
pub(crate) fn add_again<'a, T: PeakTop<'a>>(
    alloc: Global,
    known: Option<AddedPeak>,
    inner: u32,
    place: &[u8],
    peaks: &mut Peaks<T, T::Terms>,
) -> Result<bool, PeakFault>
    requires positive { All (λ n. 0 < n) place.now }
    requires held { (rules : List RewriteRule)
        × T.holds peaks.old.terms rules peaks.old.list.items }
    ensures moves { IfOk result (λ is_added. IsTrue is_added → (rules : List RewriteRule) (j : ℕ)
        → IfSome known (IsRepeated rules j place.now (slice_get rules inner) peaks.old.list.items)
        → Adds rules peaks.old (one_spot j place.now inner) peaks.new) }
    ensures same { IfOk result (λ is_added. is_added ≡ false → peaks.new ≡ peaks.old) }
    ensures longer { OnOk result (IsLonger peaks.old.list.items peaks.new.list.items) }
    ensures stops { IfErr result (λ fault. (rules : List RewriteRule) (j : ℕ)
        → IfSome known (IsRepeated rules j place.now (slice_get rules inner) peaks.old.list.items)
        → StopsAt rules peaks.old (one_spot j place.now inner) fault) }
    ensures held { (rules : List RewriteRule)
        → T.holds peaks.old.terms rules peaks.old.list.items
        → OnOk result (T.holds peaks.new.terms rules peaks.new.list.items) }
{
    let Some(known) = known else {
        return Ok(false);
    };
    if !peaks.has_room() {
        peaks.count_one(known.nodes)?;
        return Ok(true);
    }
    let Some(number) = known.number else {
        return Ok(false);
    };
    let Some(peak) = peaks.list.get(number) else {
        return Ok(false);
    };
    let Some(top) = T::copied(alloc, &peak.top)? else {
        return Ok(false);
    };
    let terms = &mut peaks.terms;
    let (left, right) = T::same_sides(alloc, number, &peak.left, &peak.right, terms)?;
    let copy = Peak {
        top,
        left,
        right,
        outer: peak.outer,
        inner,
        place: position_of(alloc, place)?,
    };
    push_peak(&mut peaks.list, copy)?;
    peaks.count_one(known.nodes)?;
    Ok(true)
}

/// Adds the peak of rule i in rule j at a position, if they overlap there.
pub(crate) fn add_new<'a, T: PeakTop<'a>>(
    alloc: Global,
    rules: &RulesApart<'a>,
    j: usize,
    part: &Term,
    place: &[u8],
    i: u32,
    peaks: &mut Peaks<T, T::Terms>,
) -> Result<Option<AddedPeak>, PeakFault>
    requires outer { IsPartOf rules.now.rules j place.now (tree part.now) }
    requires inner { i < length rules.now.rules }
    requires positive { All (λ n. 0 < n) place.now }
    requires few { length rules.now.rules ≤ 4095 }
    requires small { HaveSmallVariables rules.now.rules }
    requires held { T.holds peaks.old.terms rules.now.rules peaks.old.list.items }
    ensures moves { OnOk result
        (Adds rules.now.rules peaks.old (one_spot j place.now i) peaks.new) }
    ensures added { IfOk result (λ found. IfSome found
        (IsAdded rules.now.rules (spot j place.now i) peaks.new.list.items)) }
    ensures longer { OnOk result (IsLonger peaks.old.list.items peaks.new.list.items) }
    ensures stops { IfErr result
        (StopsAt rules.now.rules peaks.old (one_spot j place.now i)) }
    ensures held { OnOk result
        (T.holds peaks.new.terms rules.now.rules peaks.new.list.items) }
{
    let outer = &rules.rules()[j];
    let inner = &rules.rules()[i as usize];
    let inner_left = rules.apart_left(i as usize);
    let occurrences = rules.occurrences(i as usize, j);
    let found = overlap(alloc, part, inner_left, occurrences, &mut peaks.places)?;
    let Some(unifier) = found else {
        overlaps_unify();
        return Ok(None);
    };
    let added = add_found(
        alloc, rules, j, outer, i, inner, place, part, &unifier, peaks,
    )?;
    unifier.hand_back(&mut peaks.places);
    Ok(Some(added))
}

/// Adds the peak of two rules that overlap, by a most general unifier.
fn add_found<'a, T: PeakTop<'a>>(
    alloc: Global,
    rules: &RulesApart<'a>,
    j: usize,
    outer: &Rule,
    i: u32,
    inner: &Rule,
    place: &[u8],
    part: &Term,
    unifier: &OverlapUnifier,
    peaks: &mut Peaks<T, T::Terms>,
) -> Result<AddedPeak, PeakFault>
    requires outer { slice_get rules.now.rules j ≡ Some outer.now }
    requires inner { slice_get rules.now.rules i ≡ Some inner.now }
    requires there { subterm_at place.now outer.now.left ≡ Some (tree part.now) }
    requires positive { All (λ n. 0 < n) place.now }
    requires few { length rules.now.rules ≤ 4095 }
    requires small { HaveSmallVariables rules.now.rules }
    requires unifier { IsMostGeneralUnifier (tree part.now) (renamed_apart inner.now).left
        (substitution unifier.now) }
    requires held { T.holds peaks.old.terms rules.now.rules peaks.old.list.items }
    ensures moves { OnOk result
        (Adds rules.now.rules peaks.old (one_spot j place.now i) peaks.new) }
    ensures added { IfOk result
        (IsAdded rules.now.rules (spot j place.now i) peaks.new.list.items) }
    ensures longer { OnOk result (IsLonger peaks.old.list.items peaks.new.list.items) }
    ensures stops { IfErr result
        (StopsAt rules.now.rules peaks.old (one_spot j place.now i)) }
    ensures held { OnOk result
        (T.holds peaks.new.terms rules.now.rules peaks.new.list.items) }
{
    if peaks.has_room() {
        return list_found(
            alloc, rules, j, outer, i, inner, place, part, unifier, peaks,
        );
    }
    let before = peaks.nodes;
    let total = count_overlap(
        alloc, rules, unifier, j, outer, i as usize, inner, place, part, before,
    )?;
    peaks.nodes = total;
    peaks.count = peaks.count.saturating_add(1);
    Ok(AddedPeak {
        nodes: total.saturating_sub(before),
        number: None,
    })
}

/// The same, where the list has room.
fn list_found<'a, T: PeakTop<'a>>(
    alloc: Global,
    rules: &RulesApart<'a>,
    j: usize,
    outer: &Rule,
    i: u32,
    inner: &Rule,
    place: &[u8],
    part: &Term,
    unifier: &OverlapUnifier,
    peaks: &mut Peaks<T, T::Terms>,
) -> Result<AddedPeak, PeakFault>
    requires room { length peaks.old.list.items < peaks.old.most }
    requires outer { slice_get rules.now.rules j ≡ Some outer.now }
    requires inner { slice_get rules.now.rules i ≡ Some inner.now }
    requires there { subterm_at place.now outer.now.left ≡ Some (tree part.now) }
    requires positive { All (λ n. 0 < n) place.now }
    requires few { length rules.now.rules ≤ 4095 }
    requires small { HaveSmallVariables rules.now.rules }
    requires unifier { IsMostGeneralUnifier (tree part.now) (renamed_apart inner.now).left
        (substitution unifier.now) }
    requires held { T.holds peaks.old.terms rules.now.rules peaks.old.list.items }
    ensures moves { OnOk result
        (Adds rules.now.rules peaks.old (one_spot j place.now i) peaks.new) }
    ensures added { IfOk result
        (IsAdded rules.now.rules (spot j place.now i) peaks.new.list.items) }
    ensures longer { OnOk result (IsLonger peaks.old.list.items peaks.new.list.items) }
    ensures stops { IfErr result
        (StopsAt rules.now.rules peaks.old (one_spot j place.now i)) }
    ensures held { OnOk result
        (T.holds peaks.new.terms rules.now.rules peaks.new.list.items) }
{
    let before = peaks.nodes;
    let names = &mut peaks.names;
    let terms = &mut peaks.terms;
    let made = T::made(
        alloc, rules, j, outer, i as usize, inner, place, part, unifier, before, names, terms,
    )?;
    peaks.nodes = made.nodes;
    peaks.count = peaks.count.saturating_add(1);
    let peak = Peak {
        top: made.top,
        left: made.left,
        right: made.right,
        outer: j as u32,
        inner: i,
        place: position_of(alloc, place)?,
    };
    let number = peaks.list.len();
    push_peak(&mut peaks.list, peak)?;
    Ok(AddedPeak {
        nodes: peaks.nodes.saturating_sub(before),
        number: Some(number),
    })
}

/// The position of these places. Most peaks are at the root, whose position has none.
#[inline(always)]
pub(crate) fn position_of(alloc: Global, place: &[u8]) -> Result<Position, OutOfMemory>
    requires { All (λ n. 0 < n) place.now }
    ensures { IfOk result (λ p. p ≡ place.now) }
{
    if place.is_empty() {
        return Ok(Position::new(alloc));
    }
    Position::of(alloc, place)
}

/// One more peak. Room is made first, since a push that may hand the peak back moves it twice.
#[inline(always)]
pub(crate) fn push_peak<'a, T: PeakTop<'a>>(
    list: &mut Vec<Peak<T>>,
    peak: Peak<T>,
) -> Result<(), OutOfMemory>
    ensures { OnOk result (list.new.items ≡ list.old.items ++ peak ∷ []) }
{
    if list.len() == list.capacity() {
        list.reserve(1)?;
    }
    list.push_reserved(peak);
    Ok(())
}
