//! The critical peaks of new rules with each other and with the rules before them.
ghost use Rattle.std.specs.Prelude.{◌≡◌, ◌≤◌, ◌<◌, ◌+◌, ◌-◌, ◌++◌, ◌∷◌, [], ℕ, List, All, drop};
ghost use Rattle.std.specs.Prelude.{length, slice_get, IfOk, OnOk};
ghost use Rattle.trs_defs.specs.Tree.{Tree};
ghost use Rattle.trs_defs.specs.System.{RewriteRule};
ghost use Rattle.trs_core.specs.SystemLimits.{HaveSmallVariables};
ghost use Rattle.trs_core.specs.View.{tree};
ghost use Rattle.term_pool.specs.Redexes.{IsNarrow};
ghost use Rattle.term_pool.specs.Pooled.{Extends};
ghost use Rattle.crit_pairs.specs.Skeletons.{opened};
ghost use Rattle.crit_pairs.specs.SkeletonView.{skeleton_view};
ghost use Rattle.crit_pairs.specs.Walk.{IsPartOf, one_spot, spot_unless};
ghost use Rattle.crit_pairs.specs.Prepared.{ArePrepared};
ghost use Rattle.crit_pairs.specs.GroundSides.{AreGroundRights};
ghost use Rattle.crit_pairs.specs.PeakList.{Spot};
ghost use Rattle.crit_pairs.specs.Table.{Site, site, sites_from};
ghost use Rattle.crit_pairs.specs.MadePairs.{IsMade};
ghost use Rattle.crit_pairs.specs.KnownPeaks.{HasPair, Knows, KnowsEach};
ghost use Rattle.crit_pairs.specs.Growing.{IsGrown, IsAtSite, AddsOne, AddsPeaks};
ghost use Rattle.crit_pairs.specs.Growing.{GrowsAt, GrowsBy, sites_in};

use crate::PeakFault;
use crate::ground_sides::GroundSide;
use crate::known_peak::{KnownPeak, KnownPeaks};
use crate::making::{MadePair, make_pair};
use crate::names::Names;
use crate::overlapping::overlap;
use crate::prepared::PreparedRules;
use crate::room::Room;
use crate::sides::within_most;
use crate::skeleton::Skeleton;
use crate::table::PeakPair;
use confluence_theory::overlaps_unify;
use std::alloc::Global;
use term_pool::Pool;
use trs_core::{OutOfMemory, Rule, Term};

/// Lists of peaks, one for each position of a symbol, and how far they have grown.
#[derive(Drop)]
pub(crate) struct Growth {
    pub lists: Vec<Vec<PeakPair>>,
    /// How many positions have all their peaks.
    pub done: usize,
    /// The nodes of all peaks.
    pub nodes: u64,
    pub room: Room,
    /// Where bindings stand while an overlap is looked for.
    pub places: Vec<usize>,
    /// The names of variables while a peak is made.
    pub names: Names,
}

/// Adds the peaks of the outer rules from `start` to `end` with the inner rules from `from` on.
pub(crate) fn grow_rules(
    alloc: Global,
    rules: &[Rule],
    prepared: &PreparedRules,
    rights: &[Option<GroundSide>],
    start: usize,
    end: usize,
    from: usize,
    pool: &mut Pool,
    growth: &mut Growth,
) -> Result<(), PeakFault>
    requires prepared { ArePrepared rules.now prepared.now }
    requires rights { AreGroundRights rules.now pool.old rights.now }
    requires small { HaveSmallVariables rules.now }
    requires narrow { All (λ r. IsNarrow r.left) rules.now }
    requires end { end ≤ length rules.now }
    requires inside { growth.old.done ≤ length growth.old.lists.items }
    ensures grows { OnOk result ((known more : List RewriteRule) → rules.now ≡ known ++ more →
        end ≡ length known → GrowsBy rules.now from (sites_from start (drop start known))
        pool.old growth.old pool.new growth.new) }
    ensures kept { Extends pool.old pool.new }
    ensures inside { OnOk result (growth.new.done ≤ length growth.new.lists.items) }
{
    for j in start..end {
        let outer = &rules[j];
        let skeleton = &prepared.skeletons[j];
        let mut place = Vec::new(alloc);
        grow_below(
            alloc,
            rules,
            prepared,
            rights,
            j,
            from,
            &outer.left,
            skeleton,
            &mut place,
            pool,
            growth,
        )?;
    }
    Ok(())
}

/// Adds the peaks of outer rule j with the inner rules from `from` on, at a position and below it,
/// where `part` stands.
fn grow_below(
    alloc: Global,
    rules: &[Rule],
    prepared: &PreparedRules,
    rights: &[Option<GroundSide>],
    j: usize,
    from: usize,
    part: &Term,
    skeleton: &Skeleton,
    place: &mut Vec<u8>,
    pool: &mut Pool,
    growth: &mut Growth,
) -> Result<(), PeakFault>
    requires prepared { ArePrepared rules.now prepared.now }
    requires rights { AreGroundRights rules.now pool.old rights.now }
    requires small { HaveSmallVariables rules.now }
    requires outer { IsPartOf rules.now j place.old.items (tree part.now) }
    requires skeleton { skeleton_view skeleton.now ≡ opened (tree part.now) }
    requires narrow { IsNarrow (tree part.now) }
    requires positive { All (λ n. 0 < n) place.old.items }
    requires inside { growth.old.done ≤ length growth.old.lists.items }
    ensures grows { OnOk result (GrowsBy rules.now from (sites_in j place.old.items (tree part.now))
        pool.old growth.old pool.new growth.new) }
    ensures place { OnOk result (place.new.items ≡ place.old.items) }
    ensures kept { Extends pool.old pool.new }
    ensures inside { OnOk result (growth.new.done ≤ length growth.new.lists.items) }
{
    match part {
        Term::Var(_) => Ok(()),
        Term::App(_f, args) => {
            grow_at(
                alloc, rules, prepared, rights, j, from, part, skeleton, place, pool, growth,
            )?;
            let parts = skeleton.parts();
            for (i, arg) in args.items.iter().enumerate() {
                place.push(i as u8 + 1)?;
                grow_below(
                    alloc, rules, prepared, rights, j, from, arg, &parts[i], place, pool, growth,
                )?;
                place.pop();
            }
            Ok(())
        }
    }
}

/// Adds the peaks of outer rule j with the inner rules from `from` on at a position, where `part`
/// stands.
fn grow_at(
    alloc: Global,
    rules: &[Rule],
    prepared: &PreparedRules,
    rights: &[Option<GroundSide>],
    j: usize,
    from: usize,
    part: &Term,
    skeleton: &Skeleton,
    place: &[u8],
    pool: &mut Pool,
    growth: &mut Growth,
) -> Result<(), PeakFault>
    requires prepared { ArePrepared rules.now prepared.now }
    requires rights { AreGroundRights rules.now pool.old rights.now }
    requires small { HaveSmallVariables rules.now }
    requires outer { IsPartOf rules.now j place.now (tree part.now) }
    requires skeleton { skeleton_view skeleton.now ≡ opened (tree part.now) }
    requires positive { All (λ n. 0 < n) place.now }
    requires inside { growth.old.done ≤ length growth.old.lists.items }
    ensures grows { OnOk result (
        GrowsAt rules.now from j place.now pool.old growth.old pool.new growth.new) }
    ensures kept { Extends pool.old pool.new }
    ensures inside { OnOk result (growth.new.done ≤ length growth.new.lists.items) }
{
    begin_list(alloc, growth)?;
    let mut known = KnownPeaks::new(alloc);
    for i in from..rules.len() {
        grow_by(
            alloc, rules, prepared, rights, j, i, part, skeleton, place, &mut known, pool, growth,
        )?;
    }
    growth.done += 1;
    Ok(())
}

/// Makes a list for the next position, if there is none yet.
fn begin_list(alloc: Global, growth: &mut Growth) -> Result<(), OutOfMemory>
    requires { growth.old.done ≤ length growth.old.lists.items }
    ensures begins { OnOk result ((rules : List RewriteRule) (from : ℕ) (pool : List Tree)
        (s : Site) (left after : List Site) → IsGrown rules from pool growth.old (s ∷ left) after →
        IsAtSite rules from from pool growth.new s left after) }
    ensures inside { OnOk result (growth.new.done < length growth.new.lists.items) }
{
    if growth.done < growth.lists.len() {
        return Ok(());
    }
    growth.lists.push(Vec::new(alloc))?;
    Ok(())
}

/// Adds the peak of rule i in rule j at a position, if they overlap there, but for a rule in itself
/// at the root. Skeletons that clash are seen here, since what adds a peak has large locals.
fn grow_by(
    alloc: Global,
    rules: &[Rule],
    prepared: &PreparedRules,
    rights: &[Option<GroundSide>],
    j: usize,
    i: usize,
    part: &Term,
    skeleton: &Skeleton,
    place: &[u8],
    known: &mut KnownPeaks,
    pool: &mut Pool,
    growth: &mut Growth,
) -> Result<(), PeakFault>
    requires prepared { ArePrepared rules.now prepared.now }
    requires rights { AreGroundRights rules.now pool.old rights.now }
    requires small { HaveSmallVariables rules.now }
    requires inner { i < length rules.now }
    requires outer { IsPartOf rules.now j place.now (tree part.now) }
    requires skeleton { skeleton_view skeleton.now ≡ opened (tree part.now) }
    requires positive { All (λ n. 0 < n) place.now }
    requires known { KnowsEach rules.now j place.now pool.old known.old.by_first.items }
    requires inside { growth.old.done < length growth.old.lists.items }
    ensures adds { OnOk result (AddsPeaks rules.now (spot_unless j place.now i)
        pool.old growth.old pool.new growth.new) }
    ensures known { OnOk result (
        KnowsEach rules.now j place.now pool.new known.new.by_first.items) }
    ensures kept { Extends pool.old pool.new }
    ensures done { OnOk result (growth.new.done ≡ growth.old.done) }
    ensures inside { OnOk result (growth.new.done < length growth.new.lists.items) }
{
    if place.is_empty() && i == j {
        return Ok(());
    }
    if prepared.clashes(i, skeleton) {
        overlaps_unify();
        return Ok(());
    }
    let here = known.of(&prepared.equal, i);
    let found = grow_by_known(
        alloc, rules, prepared, rights, j, i, part, place, here, pool, growth,
    )?;
    known.note(&prepared.equal, i, found)?;
    Ok(())
}

/// Adds the peak of rule i in rule j at a position, if they overlap there. What is known of an equal
/// rule is not looked for again.
fn grow_by_known(
    alloc: Global,
    rules: &[Rule],
    prepared: &PreparedRules,
    rights: &[Option<GroundSide>],
    j: usize,
    i: usize,
    part: &Term,
    place: &[u8],
    known: KnownPeak,
    pool: &mut Pool,
    growth: &mut Growth,
) -> Result<KnownPeak, PeakFault>
    requires prepared { ArePrepared rules.now prepared.now }
    requires rights { AreGroundRights rules.now pool.old rights.now }
    requires small { HaveSmallVariables rules.now }
    requires inner { i < length rules.now }
    requires outer { IsPartOf rules.now j place.now (tree part.now) }
    requires positive { All (λ n. 0 < n) place.now }
    requires known { Knows rules.now j place.now (slice_get rules.now i) pool.old known }
    requires inside { growth.old.done < length growth.old.lists.items }
    ensures adds { OnOk result (AddsPeaks rules.now (one_spot j place.now i)
        pool.old growth.old pool.new growth.new) }
    ensures known { IfOk result (Knows rules.now j place.now (slice_get rules.now i) pool.new) }
    ensures kept { Extends pool.old pool.new }
    ensures done { OnOk result (growth.new.done ≡ growth.old.done) }
    ensures inside { OnOk result (growth.new.done < length growth.new.lists.items) }
{
    match known {
        KnownPeak::Absent => Ok(known),
        KnownPeak::Made(pair, nodes) => {
            add_again(growth, pair, nodes)?;
            Ok(known)
        }
        KnownPeak::Unknown => grow_by_overlap(
            alloc, rules, prepared, rights, j, i, part, place, pool, growth,
        ),
    }
}

/// Adds the pair of a peak with so many nodes once more, for an equal rule.
fn add_again(growth: &mut Growth, pair: PeakPair, nodes: u64) -> Result<(), PeakFault>
    requires { growth.old.done < length growth.old.lists.items }
    ensures adds { OnOk result ((rules : List RewriteRule) (s : Spot) (pool : List Tree) →
        HasPair rules s pool pair nodes →
        AddsPeaks rules (s ∷ []) pool growth.old pool growth.new) }
    ensures done { OnOk result (growth.new.done ≡ growth.old.done) }
    ensures inside { OnOk result (growth.new.done < length growth.new.lists.items) }
{
    let total = within_most(growth.nodes.saturating_add(nodes))?;
    let made = MadePair {
        pair,
        nodes: total,
        is_built: false,
    };
    add_made(growth, &made)
}

/// Adds a pair to the list of the position at hand.
fn add_made(growth: &mut Growth, made: &MadePair) -> Result<(), PeakFault>
    requires { growth.old.done < length growth.old.lists.items }
    ensures adds { OnOk result ((rules : List RewriteRule) (s : Spot) (pool next : List Tree) →
        IsMade rules s next growth.old.nodes made.now →
        AddsOne rules (s ∷ []) pool growth.old next growth.new) }
    ensures done { OnOk result (growth.new.done ≡ growth.old.done) }
    ensures inside { OnOk result (growth.new.done < length growth.new.lists.items) }
{
    let room = growth.room.after(made, growth.nodes)?;
    let list = &mut growth.lists[growth.done];
    list.push(made.pair)?;
    growth.nodes = made.nodes;
    growth.room = room;
    Ok(())
}

/// Adds the peak of rule i in rule j at a position, if they overlap there.
fn grow_by_overlap(
    alloc: Global,
    rules: &[Rule],
    prepared: &PreparedRules,
    rights: &[Option<GroundSide>],
    j: usize,
    i: usize,
    part: &Term,
    place: &[u8],
    pool: &mut Pool,
    growth: &mut Growth,
) -> Result<KnownPeak, PeakFault>
    requires prepared { ArePrepared rules.now prepared.now }
    requires rights { AreGroundRights rules.now pool.old rights.now }
    requires small { HaveSmallVariables rules.now }
    requires inner { i < length rules.now }
    requires outer { IsPartOf rules.now j place.now (tree part.now) }
    requires positive { All (λ n. 0 < n) place.now }
    requires inside { growth.old.done < length growth.old.lists.items }
    ensures adds { OnOk result (AddsPeaks rules.now (one_spot j place.now i)
        pool.old growth.old pool.new growth.new) }
    ensures known { IfOk result (Knows rules.now j place.now (slice_get rules.now i) pool.new) }
    ensures kept { Extends pool.old pool.new }
    ensures done { OnOk result (growth.new.done ≡ growth.old.done) }
    ensures inside { OnOk result (growth.new.done < length growth.new.lists.items) }
{
    let inner_left = &prepared.apart_lefts[i];
    let occurrences = prepared.occurrences.in_both(i, j);
    let found = overlap(alloc, part, inner_left, occurrences, &mut growth.places)?;
    match found {
        None => {
            overlaps_unify();
            Ok(KnownPeak::Absent)
        }
        Some(unifier) => {
            let before = growth.nodes;
            let made = make_pair(
                alloc,
                rules,
                rights,
                j,
                i,
                place,
                &unifier,
                &mut growth.names,
                pool,
                before,
            )?;
            add_made(growth, &made)?;
            unifier.hand_back(&mut growth.places);
            let nodes = made.nodes.saturating_sub(before);
            Ok(KnownPeak::Made(made.pair, nodes))
        }
    }
}
