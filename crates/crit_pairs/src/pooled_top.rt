//! Critical peaks whose sides stand in one pool.
use crate::apart::RulesApart;
use crate::names::Names;
use crate::overlapping::OverlapUnifier;
use crate::peak_pairs::PeakPairs;
use crate::pooled_terms::PooledTerms;
use crate::seen_side::SeenSide;
use crate::sides::{MadeSides, PeakTop};
use crate::whole_sides::WholeSide;
use crate::{Peak, PeakFault, UnbuiltTop};
use rewrite_core::Top;
use std::alloc::Global;
use trs_core::{OutOfMemory, Rule, Term};

/// Critical peaks, and the pool in which their sides stand.
#[derive(Drop)]
pub struct PooledList<'a> {
    pub list: Vec<Peak<PooledTop<'a>>>,
    pub pairs: PeakPairs,
}

/// The top of a critical peak that is not built, nor are its sides.
#[derive(Drop)]
pub struct PooledTop<'a> {
    top: UnbuiltTop<'a>,
}

impl<'a> Top for PooledTop<'a> {
    ghost use Rattle.crit_pairs.specs.PooledTop.{pooled_tree};

    type Side = SeenSide;

    ghost top_tree = { pooled_tree };
}

impl<'a> PeakTop<'a> for PooledTop<'a> {
    ghost use Rattle.std.specs.Prelude.{◌≡◌, ◌++◌, List, [], ◌∷◌, Some, IfOk, slice_get};
    ghost use Rattle.trs_defs.specs.System.{RewriteRule};
    ghost use Rattle.rewrite_core.specs.PlacedPeak.{PlacedPeak};
    ghost use Rattle.crit_pairs.specs.PooledTerms.{HoldSides};
    ghost use Rattle.crit_pairs.specs.SeenSide.{seen_side};

    type Terms = PooledTerms;

    ghost holds = { λ terms rules peaks. HoldSides rules peaks terms };

    fn no_terms(alloc: Global, _rules: &RulesApart<'a>) -> Result<PooledTerms, OutOfMemory> {
        Ok(PooledTerms::new(alloc))
    }

    fn made(
        alloc: Global,
        rules: &RulesApart<'a>,
        j: usize,
        outer: &Rule,
        i: usize,
        inner: &Rule,
        place: &[u8],
        part: &Term,
        unifier: &OverlapUnifier,
        nodes: u64,
        names: &mut Names,
        terms: &mut PooledTerms,
    ) -> Result<MadeSides<PooledTop<'a>>, PeakFault> {
        let added = terms.add_peak(
            alloc, rules, j, outer, i, inner, place, part, unifier, nodes, names,
        )?;
        let top = UnbuiltTop::of(alloc, unifier, &outer.left)?;
        Ok(MadeSides {
            top: PooledTop { top },
            left: SeenSide::of(&terms.pool, added.pair.left),
            right: SeenSide::of(&terms.pool, added.pair.right),
            nodes: added.nodes,
        })
    }

    fn copied(_alloc: Global, top: &PooledTop<'a>) -> Result<Option<PooledTop<'a>>, OutOfMemory> {
        match top.top.again() {
            Some(again) => Ok(Some(PooledTop { top: again })),
            None => Ok(None),
        }
    }

    fn same_sides(
        _alloc: Global,
        n: usize,
        left: &SeenSide,
        right: &SeenSide,
        terms: &mut PooledTerms,
    ) -> Result<(SeenSide, SeenSide), OutOfMemory>
        requires held { (rules : List RewriteRule) × (peaks : List PlacedPeak)
            × (p : PlacedPeak) × HoldSides rules peaks terms.old × (slice_get peaks n ≡ Some p)
            × (p.left ≡ seen_side left.now) × (p.right ≡ seen_side right.now) }
        ensures left { IfOk result (λ s. seen_side s.0 ≡ seen_side left.now) }
        ensures right { IfOk result (λ s. seen_side s.1 ≡ seen_side right.now) }
        ensures held { (rules : List RewriteRule) (peaks : List PlacedPeak) (p : PlacedPeak)
            → HoldSides rules peaks terms.old → IfOk result (λ s.
            p.left ≡ seen_side s.0 → p.right ≡ seen_side s.1
            → HoldSides rules (peaks ++ p ∷ []) terms.new) }
    {
        let pair = terms.add_again(n)?;
        Ok((
            SeenSide::of(&terms.pool, pair.left),
            SeenSide::of(&terms.pool, pair.right),
        ))
    }

    fn sides_beside(
        _alloc: Global,
        rule: u32,
        _side: &WholeSide<'a>,
        n: usize,
        _right: &SeenSide,
        terms: &mut PooledTerms,
    ) -> Result<(SeenSide, SeenSide), OutOfMemory> {
        let pair = terms.add_beside(rule, n)?;
        Ok((
            SeenSide::of(&terms.pool, pair.left),
            SeenSide::of(&terms.pool, pair.right),
        ))
    }
}
