//! The sides of the rules of a system in a pool, of which instances are made.
ghost use Rattle.std.specs.Prelude.{◌≡◌, ◌≤◌, ◌<◌, ℕ, List, Some, IfOk, IfSome, OnOk, length, slice_get};
ghost use Rattle.trs_defs.specs.Substitution.{apply};
ghost use Rattle.trs_defs.specs.Renaming.{shifted};
ghost use Rattle.trs_defs.specs.System.{RewriteRule};
ghost use Rattle.trs_defs.specs.Tree.{Tree};
ghost use Rattle.trs_core.specs.View.{tree};
ghost use Rattle.term_pool.specs.Pooled.{Extends, StandsFor, tree_at};
ghost use Rattle.term_pool.specs.Instances.{AreInstances};
ghost use Rattle.term_pool.specs.LeftSides.{IsGround};
ghost use Rattle.crit_pairs.specs.Meeting.{solution};
ghost use Rattle.crit_pairs.specs.Numbered.{AreNamed, IsNumbered};
ghost use Rattle.crit_pairs.specs.Sides.{IsDistinct};
ghost use Rattle.crit_pairs.specs.declared.pooled_side.PooledSide.{PooledSide};
ghost use Rattle.crit_pairs.specs.PooledSide.{value_of};
ghost use Rattle.crit_pairs.specs.PooledTerms.{ArePooledRights, ArePooledRules};

use crate::apart::RulesApart;
use crate::binding_table::Bindings;
use crate::names::Names;
use crate::numbered_variables::NumberedVariables;
use crate::pooled_side::PooledSide;
use std::alloc::Global;
use term_pool::{Instances, Pool};
use trs_core::{MOST_VARIABLES, OutOfMemory, Rule, Term};

/// The sides of the rules of a system in a pool, by the numbers of the rules.
#[derive(Drop)]
pub(crate) struct PooledRules {
    pub rights: Vec<PooledSide>,
    /// Those that were wanted.
    pub lefts: Vec<Option<PooledSide>>,
    /// Of ids, whether their terms have no variable.
    pub ground: Vec<bool>,
    /// The instances of parts of the outer rule's sides, for one peak.
    pub outer: Instances,
    /// Those of the inner rule's.
    pub inner: Instances,
    /// The ids of the variables of instances.
    pub numbered: NumberedVariables,
}

impl PooledRules {
    /// The right sides, and no left side yet.
    pub fn new(
        alloc: Global,
        rules: &RulesApart,
        pool: &mut Pool,
    ) -> Result<PooledRules, OutOfMemory>
        ensures sides { IfOk result (ArePooledRules rules.now.rules pool.new) }
        ensures kept { Extends pool.old pool.new }
    {
        let all = rules.rules();
        let rights = right_sides(alloc, all, pool)?;
        let lefts = no_sides(alloc, all.len())?;
        let ground = pool.ground_marks(alloc)?;
        Ok(PooledRules {
            rights,
            lefts,
            ground,
            outer: Instances::new(alloc),
            inner: Instances::new(alloc),
            numbered: NumberedVariables::new(alloc),
        })
    }

    /// The id of the right side of rule `k`, if it is seen to have no variable.
    pub fn ground_right(&self, k: usize) -> Option<u32>
        ensures stands { IfSome result (λ id. (rules : List RewriteRule) (pool : List Tree)
            (r : RewriteRule) → ArePooledRules rules pool self.now → slice_get rules k ≡ Some r
            → StandsFor pool id r.right) }
        ensures ground { IfSome result (λ id. (rules : List RewriteRule) (pool : List Tree)
            (r : RewriteRule) → ArePooledRules rules pool self.now → slice_get rules k ≡ Some r
            → IsGround r.right) }
    {
        let side = self.rights.get(k)?;
        if side.variables.is_empty() {
            Some(side.id)
        } else {
            None
        }
    }

    /// The id of the instance of the right side of rule `k`, the outer one.
    pub fn outer_right(
        &mut self,
        alloc: Global,
        bindings: &Bindings,
        k: usize,
        names: &mut Names,
        pool: &mut Pool,
    ) -> Result<u32, OutOfMemory>
        requires named { (rules : List RewriteRule) × (r : RewriteRule)
            × ArePooledRules rules pool.old self.old × (slice_get rules k ≡ Some r)
            × AreNamed names.old.order.items (apply (solution bindings.now) (shifted 0 r.right)) }
        requires distinct { IsDistinct names.old.order.items }
        ensures names { OnOk result (names.new.order.items ≡ names.old.order.items) }
        ensures numbered { (rules : List RewriteRule) (r : RewriteRule)
            → ArePooledRules rules pool.old self.old → slice_get rules k ≡ Some r
            → IfOk result (λ id. IsNumbered names.old.order.items
            (apply (solution bindings.now) (shifted 0 r.right)) (tree_at pool.new id)) }
        ensures there { IfOk result (λ id. id < length pool.new) }
        ensures pooled { (rules : List RewriteRule) → ArePooledRules rules pool.old self.old
            → OnOk result (ArePooledRules rules pool.new self.new) }
        ensures kept { Extends pool.old pool.new }
        ensures outer { OnOk result (AreInstances
            (value_of bindings.now 0 names.old.order.items) pool.new self.new.outer) }
    {
        self.outer.clear();
        let side = &self.rights[k];
        side.instance(
            alloc,
            bindings,
            0,
            names,
            &self.ground,
            &mut self.outer,
            &mut self.numbered,
            pool,
        )
    }

    /// The id of the instance of the right side of rule `k`, the inner one, renamed apart.
    pub fn inner_right(
        &mut self,
        alloc: Global,
        bindings: &Bindings,
        k: usize,
        names: &mut Names,
        pool: &mut Pool,
    ) -> Result<u32, OutOfMemory>
        requires named { (rules : List RewriteRule) × (r : RewriteRule)
            × ArePooledRules rules pool.old self.old × (slice_get rules k ≡ Some r)
            × AreNamed names.old.order.items (apply (solution bindings.now) (shifted 65536 r.right)) }
        requires distinct { IsDistinct names.old.order.items }
        ensures names { OnOk result (names.new.order.items ≡ names.old.order.items) }
        ensures numbered { (rules : List RewriteRule) (r : RewriteRule)
            → ArePooledRules rules pool.old self.old → slice_get rules k ≡ Some r
            → IfOk result (λ id. IsNumbered names.old.order.items
            (apply (solution bindings.now) (shifted 65536 r.right)) (tree_at pool.new id)) }
        ensures there { IfOk result (λ id. id < length pool.new) }
        ensures pooled { (rules : List RewriteRule) → ArePooledRules rules pool.old self.old
            → OnOk result (ArePooledRules rules pool.new self.new) }
        ensures kept { Extends pool.old pool.new }
        ensures outer { OnOk result (self.new.outer ≡ self.old.outer) }
    {
        self.inner.clear();
        let side = &self.rights[k];
        side.instance(
            alloc,
            bindings,
            MOST_VARIABLES,
            names,
            &self.ground,
            &mut self.inner,
            &mut self.numbered,
            pool,
        )
    }

    /// The id of the instance of the left side of rule `k`, the outer one, which is this term. What is
    /// noted of instances of its parts is not made again.
    pub fn outer_left(
        &mut self,
        alloc: Global,
        bindings: &Bindings,
        k: usize,
        left: &Term,
        names: &mut Names,
        pool: &mut Pool,
    ) -> Result<u32, OutOfMemory>
        requires left { (rules : List RewriteRule) × (r : RewriteRule)
            × ArePooledRules rules pool.old self.old × (slice_get rules k ≡ Some r)
            × (r.left ≡ tree left.now) }
        requires named { AreNamed names.old.order.items
            (apply (solution bindings.now) (tree left.now)) }
        requires outer { AreInstances
            (value_of bindings.now 0 names.old.order.items) pool.old self.old.outer }
        requires distinct { IsDistinct names.old.order.items }
        ensures names { OnOk result (names.new.order.items ≡ names.old.order.items) }
        ensures numbered { IfOk result (λ id. IsNumbered names.old.order.items
            (apply (solution bindings.now) (tree left.now)) (tree_at pool.new id)) }
        ensures there { IfOk result (λ id. id < length pool.new) }
        ensures pooled { (rules : List RewriteRule) (r : RewriteRule)
            → ArePooledRules rules pool.old self.old → slice_get rules k ≡ Some r
            → r.left ≡ tree left.now → OnOk result (ArePooledRules rules pool.new self.new) }
        ensures kept { Extends pool.old pool.new }
    {
        if let Some(side) = &self.lefts[k] {
            return side.instance(
                alloc,
                bindings,
                0,
                names,
                &self.ground,
                &mut self.outer,
                &mut self.numbered,
                pool,
            );
        }
        let side = PooledSide::of(alloc, left, &mut Names::none(alloc), pool)?;
        let id = side.instance(
            alloc,
            bindings,
            0,
            names,
            &self.ground,
            &mut self.outer,
            &mut self.numbered,
            pool,
        )?;
        self.lefts[k] = Some(side);
        Ok(id)
    }
}

/// The right sides of rules.
fn right_sides(
    alloc: Global,
    rules: &[Rule],
    pool: &mut Pool,
) -> Result<Vec<PooledSide>, OutOfMemory>
    ensures sides { IfOk result (λ sides. ArePooledRights rules.now pool.new sides.items) }
    ensures kept { Extends pool.old pool.new }
{
    let mut names = Names::none(alloc);
    let mut sides = Vec::with_capacity(alloc, rules.len())?;
    for rule in rules {
        sides.push(PooledSide::of(alloc, &rule.right, &mut names, pool)?)?;
    }
    Ok(sides)
}

/// So many sides that are not there yet.
fn no_sides(alloc: Global, count: usize) -> Result<Vec<Option<PooledSide>>, OutOfMemory>
    ensures count { IfOk result (λ sides. length sides.items ≡ count) }
    ensures none { IfOk result (λ sides. (k : ℕ) (side : PooledSide)
        → slice_get sides.items k ≡ Some (Some side) → ⊥) }
{
    let mut sides = Vec::with_capacity(alloc, count)?;
    for _ in 0..count {
        sides.push(None)?;
    }
    Ok(sides)
}
