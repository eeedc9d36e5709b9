//! The sides of critical peaks as ids in one pool, as they are made.
ghost use Rattle.std.specs.Prelude.{◌≡◌, ◌<◌, ◌++◌, List, [], ◌∷◌, All, Some, IfOk, IfErr, IfSome, slice_get};
ghost use Rattle.trs_defs.specs.Tree.{Tree};
ghost use Rattle.trs_defs.specs.Position.{subterm_at, replaced_at};
ghost use Rattle.trs_defs.specs.Substitution.{apply};
ghost use Rattle.trs_defs.specs.System.{RewriteRule};
ghost use Rattle.trs_defs.specs.Unifier.{IsMostGeneralUnifier};
ghost use Rattle.trs_core.specs.View.{tree};
ghost use Rattle.term_pool.specs.LeftSides.{IsGround};
ghost use Rattle.term_pool.specs.Pooled.{Extends, tree_at};
ghost use Rattle.rewrite_core.specs.PlacedPeak.{PlacedPeak};
ghost use Rattle.crit_pairs.specs.Apart.{renamed_apart};
ghost use Rattle.crit_pairs.specs.InOrder.{in_order};
ghost use Rattle.crit_pairs.specs.Overlapping.{substitution};
ghost use Rattle.crit_pairs.specs.PooledTerms.{ArePooledRules};
ghost use Rattle.crit_pairs.specs.Sides.{AreRenumbered, KeepsLimits, PassesLimit};

use crate::PeakFault;
use crate::apart::RulesApart;
use crate::names::Names;
use crate::overlapping::OverlapUnifier;
use crate::peak_pairs::PeakPairs;
use crate::pooled_results::make_results;
use crate::pooled_rules::PooledRules;
use crate::table::PeakPair;
use std::alloc::Global;
use term_pool::Pool;
use trs_core::{OutOfMemory, Rule, Term};

/// The sides of critical peaks, and those of the rules of which they are made.
#[derive(Drop)]
pub(crate) struct PooledTerms {
    pub pool: Pool,
    pub pairs: Vec<PeakPair>,
    /// They are put into the pool before the first peak: many systems have none.
    pub sides: Option<PooledRules>,
}

/// The pair of a peak that was added, and the number of nodes of all peaks.
#[derive(Clone, Copy)]
pub(crate) struct AddedPair {
    pub pair: PeakPair,
    pub nodes: u64,
}

impl PooledTerms {
    ghost use Rattle.crit_pairs.specs.PeakPairs.{HoldPairsOf};
    ghost use Rattle.crit_pairs.specs.PooledTerms.{HoldSides};

    /// No peak was added. It takes no memory.
    pub fn new(alloc: Global) -> PooledTerms
        ensures { (rules : List RewriteRule) → HoldSides rules [] result }
    {
        PooledTerms {
            pool: Pool::new(alloc),
            pairs: Vec::new(alloc),
            sides: None,
        }
    }

    /// Adds the sides of the peak of rule `i` in rule `j` at a place, by a most general unifier. The
    /// peaks before have so many nodes.
    pub fn add_peak(
        &mut self,
        alloc: Global,
        rules: &RulesApart,
        j: usize,
        outer: &Rule,
        i: usize,
        inner: &Rule,
        place: &[u8],
        part: &Term,
        unifier: &OverlapUnifier,
        nodes: u64,
        names: &mut Names,
    ) -> Result<AddedPair, PeakFault>
        requires outer { slice_get rules.now.rules j ≡ Some outer.now }
        requires inner { slice_get rules.now.rules i ≡ Some inner.now }
        requires there { subterm_at place.now outer.now.left ≡ Some (tree part.now) }
        requires positive { All (λ n. 0 < n) place.now }
        requires unifier { IsMostGeneralUnifier (tree part.now) (renamed_apart inner.now).left
            (substitution unifier.now) }
        requires holds { (peaks : List PlacedPeak) × HoldSides rules.now.rules peaks self.old }
        ensures renumbered { IfOk result (λ added. (u : Tree)
            → replaced_at place.now outer.now.left (renamed_apart inner.now).right ≡ Some u
            → AreRenumbered
            (apply (substitution unifier.now) outer.now.left) (apply (substitution unifier.now) u)
            (apply (substitution unifier.now) outer.now.right)
            (in_order (apply (substitution unifier.now) outer.now.left))
            (tree_at self.new.pool added.pair.left) (tree_at self.new.pool added.pair.right)) }
        ensures limits { IfOk result (λ added. (u : Tree)
            → replaced_at place.now outer.now.left (renamed_apart inner.now).right ≡ Some u
            → KeepsLimits nodes added.nodes
            (apply (substitution unifier.now) outer.now.left) (apply (substitution unifier.now) u)
            (apply (substitution unifier.now) outer.now.right)) }
        ensures fault { IfErr result (λ fault. (u : Tree)
            → replaced_at place.now outer.now.left (renamed_apart inner.now).right ≡ Some u
            → PassesLimit fault nodes
            (apply (substitution unifier.now) outer.now.left) (apply (substitution unifier.now) u)
            (apply (substitution unifier.now) outer.now.right)) }
        ensures holds { (peaks : List PlacedPeak) (p : PlacedPeak)
            → HoldSides rules.now.rules peaks self.old → IfOk result (λ added.
            p.left ≡ tree_at self.new.pool added.pair.left
            → p.right ≡ tree_at self.new.pool added.pair.right
            → HoldSides rules.now.rules (peaks ++ p ∷ []) self.new) }
    {
        let known = self.sides.take();
        let mut sides = sides_in_pool(alloc, rules, known, &mut self.pool)?;
        let added = make_results(
            alloc,
            rules,
            j,
            outer,
            i,
            inner,
            place,
            part,
            unifier,
            nodes,
            names,
            &mut sides,
            &mut self.pool,
        )?;
        self.sides = Some(sides);
        self.pairs.push(added.pair)?;
        Ok(added)
    }

    /// Adds the pair of peak number `n` once more.
    pub fn add_again(&mut self, n: usize) -> Result<PeakPair, OutOfMemory>
        requires there { (rules : List RewriteRule) × (peaks : List PlacedPeak)
            × (p : PlacedPeak) × HoldSides rules peaks self.old × (slice_get peaks n ≡ Some p) }
        ensures left { (rules : List RewriteRule) (peaks : List PlacedPeak) (p : PlacedPeak)
            → HoldSides rules peaks self.old → slice_get peaks n ≡ Some p
            → IfOk result (λ pair. tree_at self.new.pool pair.left ≡ p.left) }
        ensures right { (rules : List RewriteRule) (peaks : List PlacedPeak) (p : PlacedPeak)
            → HoldSides rules peaks self.old → slice_get peaks n ≡ Some p
            → IfOk result (λ pair. tree_at self.new.pool pair.right ≡ p.right) }
        ensures holds { (rules : List RewriteRule) (peaks : List PlacedPeak) (p : PlacedPeak)
            → HoldSides rules peaks self.old → IfOk result (λ pair.
            p.left ≡ tree_at self.new.pool pair.left → p.right ≡ tree_at self.new.pool pair.right
            → HoldSides rules (peaks ++ p ∷ []) self.new) }
    {
        let pair = self.pairs[n];
        self.pairs.push(pair)?;
        Ok(pair)
    }

    /// Adds the pair of the right side of a rule, which has no variable, and the right side of peak
    /// number `n`.
    pub fn add_beside(&mut self, rule: u32, n: usize) -> Result<PeakPair, OutOfMemory>
        requires there { (rules : List RewriteRule) × (peaks : List PlacedPeak)
            × (r : RewriteRule) × (p : PlacedPeak) × HoldSides rules peaks self.old
            × (slice_get rules rule ≡ Some r) × IsGround r.right × (slice_get peaks n ≡ Some p) }
        ensures left { (rules : List RewriteRule) (peaks : List PlacedPeak) (r : RewriteRule)
            → HoldSides rules peaks self.old → slice_get rules rule ≡ Some r → IsGround r.right
            → IfOk result (λ pair. tree_at self.new.pool pair.left ≡ r.right) }
        ensures right { (rules : List RewriteRule) (peaks : List PlacedPeak) (p : PlacedPeak)
            → HoldSides rules peaks self.old → slice_get peaks n ≡ Some p
            → IfOk result (λ pair. tree_at self.new.pool pair.right ≡ p.right) }
        ensures holds { (rules : List RewriteRule) (peaks : List PlacedPeak) (p : PlacedPeak)
            → HoldSides rules peaks self.old → IfOk result (λ pair.
            p.left ≡ tree_at self.new.pool pair.left → p.right ≡ tree_at self.new.pool pair.right
            → HoldSides rules (peaks ++ p ∷ []) self.new) }
    {
        let Some(sides) = &self.sides else {
            unreachable!();
        };
        let pair = PeakPair {
            left: sides.rights[rule as usize].id,
            right: self.pairs[n].right,
        };
        self.pairs.push(pair)?;
        Ok(pair)
    }

    /// The pairs, without what they were made of.
    pub fn into_pairs(self) -> PeakPairs
        ensures { (rules : List RewriteRule) (peaks : List PlacedPeak) → HoldSides rules peaks self
            → HoldPairsOf result peaks }
    {
        PeakPairs {
            pool: self.pool,
            pairs: self.pairs,
        }
    }
}

/// The sides of the rules, which are put into the pool if they are not known.
fn sides_in_pool(
    alloc: Global,
    rules: &RulesApart,
    known: Option<PooledRules>,
    pool: &mut Pool,
) -> Result<PooledRules, OutOfMemory>
    requires { IfSome known (ArePooledRules rules.now.rules pool.old) }
    ensures sides { IfOk result (ArePooledRules rules.now.rules pool.new) }
    ensures kept { Extends pool.old pool.new }
{
    match known {
        Some(sides) => Ok(sides),
        None => PooledRules::new(alloc, rules, pool),
    }
}
