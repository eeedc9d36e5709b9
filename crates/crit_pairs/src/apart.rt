ghost use Rattle.std.specs.Prelude.{◌≡◌, ◌<◌, Some, All, IfOk, IfSome, length, slice_get};
ghost use Rattle.trs_defs.specs.System.{RewriteRule, IsSystem};
ghost use Rattle.trs_core.specs.SystemLimits.{HaveSmallVariables};
ghost use Rattle.trs_core.specs.View.{tree};
ghost use Rattle.term_pool.specs.Roots.{with_root};
ghost use Rattle.crit_pairs.specs.Apart.{renamed_apart, AreApartLefts, HaveSkeletons};
ghost use Rattle.crit_pairs.specs.Skeletons.{opened};
ghost use Rattle.crit_pairs.specs.SkeletonView.{skeleton_view};
ghost use Rattle.crit_pairs.specs.SideSizes.{IsSizeOf};
ghost use Rattle.crit_pairs.specs.WholeSides.{IsRightOf};
ghost use Rattle.crit_pairs.specs.EqualRules.{NameEqual};
ghost use Rattle.crit_pairs.specs.EqualLefts.{left_side, NameEqualLefts};

use crate::apart_left::{ApartLeft, apart_lefts};
use crate::equal_lefts::equal_lefts;
use crate::equal_rules::EqualRules;
use crate::occurrences::{Occurrences, OccurrencesInBoth};
use crate::side_sizes::{SideSize, side_sizes};
use crate::skeleton::Skeleton;
use crate::whole_sides::{WholeSide, whole_sides};
use std::alloc::Global;
use std::marker::Model;
use term_pool::RulesByRoot;
use trs_core::{OutOfMemory, Rule, Term, Trs};

/// From so many rules of one root on, equal rules and equal left sides are looked for.
const MANY_OF_ONE_ROOT: usize = 16;

/// A system with its rules by the roots of their left sides, with each left side renamed apart from all
/// rules, with the skeletons of the left sides, with the right sides that peaks have whole, with how
/// often variables occur, and with the sizes of the right sides. It is made once for all overlaps.
/// Contracts see it as the system.
#[derive(Drop)]
pub(crate) struct RulesApart<'a> {
    by_root: RulesByRoot<'a>,
    apart_lefts: Vec<ApartLeft<'a>>,
    skeletons: Vec<Skeleton>,
    whole_sides: Vec<Option<WholeSide<'a>>>,
    occurrences: Occurrences,
    /// Of no rules, where few have one root.
    equal: EqualRules,
    /// For each rule one with its left side. Of no rules, where few have one root.
    lefts: Vec<usize>,
    sizes: Vec<SideSize>,
}

impl<'a> Model for RulesApart<'a> {
    ghost use Rattle.trs_defs.specs.System.{System, system_code};
    ghost use Rattle.crit_pairs.specs.Apart.{AreApartLefts, HaveSkeletons};
    ghost use Rattle.crit_pairs.specs.SideSizes.{AreSizes};
    ghost use Rattle.crit_pairs.specs.WholeSides.{AreWholeSides};
    ghost use Rattle.crit_pairs.specs.EqualRules.{NameEqual};
    ghost use Rattle.crit_pairs.specs.EqualLefts.{NameEqualLefts};

    ghost Value = { System };

    ghost coded = { system_code };

    ghost view = { λ a. a.by_root };

    ghost invariant = { λ a. AreApartLefts a.by_root.rules a.apart_lefts.items
        × (HaveSkeletons a.by_root.rules a.skeletons.items
        × (AreWholeSides a.by_root.rules a.whole_sides.items
        × (NameEqual a.by_root.rules a.equal.firsts.items
        × (NameEqualLefts a.by_root.rules a.lefts.items
        × AreSizes a.by_root.rules a.sizes.items)))) };
}

impl<'a> RulesApart<'a> {
    pub fn new(alloc: Global, trs: &'a Trs) -> Result<RulesApart<'a>, OutOfMemory>
        ensures { IfOk result (λ rules. rules ≡ trs.now) }
    {
        let skeletons = left_skeletons(alloc, trs.rules())?;
        let apart_lefts = apart_lefts(alloc, trs.rules(), &skeletons)?;
        let sizes = side_sizes(alloc, trs.rules())?;
        let mut occurrences = Occurrences::new(alloc);
        occurrences.count_sides(trs.rules(), &skeletons, &sizes)?;
        let by_root = RulesByRoot::new(alloc, trs)?;
        let are_many = MANY_OF_ONE_ROOT <= most_of_one_root(&by_root);
        let equal = equal_of_many(alloc, trs.rules(), are_many)?;
        let lefts = lefts_of_many(alloc, trs.rules(), are_many)?;
        Ok(RulesApart {
            by_root,
            apart_lefts,
            skeletons,
            whole_sides: whole_sides(alloc, trs.rules(), &sizes)?,
            occurrences,
            equal,
            lefts,
            sizes,
        })
    }

    /// The rules, by their numbers from 0.
    pub fn rules(&self) -> &[Rule]
        ensures rules { result.now ≡ self.now.rules }
        ensures valid { IsSystem self.now }
        ensures small { HaveSmallVariables self.now.rules }
    {
        self.by_root.trs().rules()
    }

    /// The left side of rule `i`, renamed apart.
    pub fn apart_left(&self, i: usize) -> &Term
        requires { i < length self.now.rules }
        ensures { (r : RewriteRule) → slice_get self.now.rules i ≡ Some r
            → tree result.now ≡ (renamed_apart r).left }
    {
        self.apart_lefts[i].term()
    }

    /// The left sides, renamed apart.
    pub fn apart_lefts(&self) -> &[ApartLeft<'a>]
        ensures { AreApartLefts self.now.rules result.now }
    {
        &self.apart_lefts
    }

    /// The skeletons of the left sides.
    pub fn skeletons(&self) -> &[Skeleton]
        ensures { HaveSkeletons self.now.rules result.now }
    {
        &self.skeletons
    }

    /// The skeleton of the left side of rule `i`.
    pub fn skeleton(&self, i: usize) -> &Skeleton
        requires { i < length self.now.rules }
        ensures { (r : RewriteRule) → slice_get self.now.rules i ≡ Some r
            → skeleton_view result.now ≡ opened r.left }
    {
        &self.skeletons[i]
    }

    /// The size of the right side of rule `i`.
    pub fn right_size(&self, i: usize) -> &SideSize
        requires { i < length self.now.rules }
        ensures { (r : RewriteRule) → slice_get self.now.rules i ≡ Some r
            → IsSizeOf r.right result.now }
    {
        &self.sizes[i]
    }

    /// The right side of rule `i`, if peaks at the root have it whole.
    pub fn whole_side(&self, i: usize) -> Option<&WholeSide<'a>>
        ensures { IfSome result (λ side. IsRightOf self.now.rules i side.now) }
    {
        match self.whole_sides.get(i) {
            Some(side) => side.as_ref(),
            None => None,
        }
    }

    /// The number of a rule before rule `i` that is seen to equal it.
    pub fn equal_before(&self, i: usize) -> Option<usize>
        ensures { IfSome result (λ k.
            slice_get self.now.rules k ≡ slice_get self.now.rules i) }
    {
        let first = *self.equal.firsts.get(i)?;
        if first == i {
            return None;
        }
        Some(first)
    }

    /// The number of a rule before rule `i` that is seen to have its left side.
    pub fn left_before(&self, i: usize) -> Option<usize>
        ensures { IfSome result (λ k. left_side (slice_get self.now.rules k)
            ≡ left_side (slice_get self.now.rules i)) }
    {
        let first = *self.lefts.get(i)?;
        if first == i {
            return None;
        }
        Some(first)
    }

    /// How many pairs of rules are seen to be equal.
    pub fn equal_pairs(&self, alloc: Global) -> Result<u64, OutOfMemory> {
        self.equal.pairs(alloc)
    }

    /// How often variables occur in rules `i` and `j`, the inner and the outer one.
    pub fn occurrences(&self, i: usize, j: usize) -> OccurrencesInBoth {
        self.occurrences.in_both(i, j)
    }

    /// The numbers of the rules whose left sides have this root, in order.
    pub fn with_root(&self, f: u32) -> &[u32]
        ensures numbers { result.now ≡ with_root f self.now.rules }
        ensures within { All (λ i. i < length self.now.rules) result.now }
        ensures valid { IsSystem self.now }
    {
        self.by_root.with_root(f)
    }
}

/// The equal rules, if many have one root. Where few have, to look for equal ones gains no time.
fn equal_of_many(alloc: Global, rules: &[Rule], are_many: bool) -> Result<EqualRules, OutOfMemory>
    ensures { IfOk result (λ equal. NameEqual rules.now equal.firsts.items) }
{
    let mut equal = EqualRules::new(alloc);
    if are_many {
        equal.add(rules)?;
    }
    Ok(equal)
}

/// The same for equal left sides.
fn lefts_of_many(alloc: Global, rules: &[Rule], are_many: bool) -> Result<Vec<usize>, OutOfMemory>
    ensures { IfOk result (λ lefts. NameEqualLefts rules.now lefts.items) }
{
    if !are_many {
        return Ok(Vec::new(alloc));
    }
    equal_lefts(alloc, rules)
}

/// How many rules have the root that most have.
fn most_of_one_root(by_root: &RulesByRoot) -> usize {
    let mut most = 0;
    for rule in by_root.rules() {
        if let Term::App(f, _) = &rule.left {
            most = most.max(by_root.with_root(*f).len());
        }
    }
    most
}

/// The skeletons of left sides.
fn left_skeletons(alloc: Global, rules: &[Rule]) -> Result<Vec<Skeleton>, OutOfMemory>
    ensures { IfOk result (λ skeletons. HaveSkeletons rules.now skeletons.items) }
{
    let mut skeletons = Vec::with_capacity(alloc, rules.len())?;
    for rule in rules {
        skeletons.push(Skeleton::of(alloc, &rule.left)?)?;
    }
    Ok(skeletons)
}
