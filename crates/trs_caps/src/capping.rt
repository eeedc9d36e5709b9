ghost use Rattle.std.specs.Prelude.{◌≡◌, ◌≤◌, ◌↔◌, ℕ, Bool, List, Some, false, true, slice_get, IfOk, OnOk, IsTrue};
ghost use Rattle.trs_defs.specs.Tree.{Tree, var};
ghost use Rattle.trs_defs.specs.Variable.{has_var};
ghost use Rattle.trs_defs.specs.Size.{size_of};
ghost use Rattle.trs_defs.specs.Substitution.{apply, IsInstance};
ghost use Rattle.trs_defs.specs.Derivation.{Reaches};
ghost use Rattle.trs_defs.specs.Step.{Step};
ghost use Rattle.trs_core.specs.View.{tree};
ghost use Rattle.trs_caps.specs.Caps.{IsCapOf};
ghost use Rattle.trs_caps.specs.HoledCap.{IsHoledCap, MeetsLeft, MeetsSome, HasRoot};
ghost use Rattle.trs_caps.specs.HoledTree.{Fits, hole, own, symbol};
ghost use Rattle.trs_caps.specs.KnownCaps.{AreKnown, IsKnown, IsIdOf, IsWhole};
ghost use Rattle.trs_caps.specs.Shapes.{IsShape, AddsShape, AreGroundSizes};
ghost use Rattle.trs_caps.specs.View.{holed, holed_all};

use crate::knowing::{argument, note, recall};
use crate::naming::{number, own_variables};
use crate::shapes::{Shape, ground_size_at};
use crate::{Cap, KnownCaps, Parts};
use std::alloc::Global;
use std::collections::BTreeMap;
use term_pool::{Pool, RulesByRoot};
use trs_core::{OutOfMemory, Rule, Term, Trs};

/// The cap of a term: what stays of it whatever steps are made, in its instances, or, where its
/// variables are fixed, in the term itself.
///
/// A variable gives a fresh one, or stays where variables are fixed. A symbol over the caps of its
/// arguments stays, unless that unifies with a left side renamed apart, and gives a fresh variable
/// then. A marked root unifies with no left side, and so stays.
pub fn tcap(alloc: Global, trs: &Trs, t: &Term, fixed: bool) -> Result<Term, OutOfMemory>
    requires { size_of (tree t.now) ≤ 65536 }
    ensures cap { IfOk result (λ c. IsCapOf trs.now.rules fixed (tree t.now) (tree c)) }
    ensures reached { IfOk result (λ c. fixed ≡ false → (σ : ℕ → Tree) (v : Tree)
        → Reaches (Step trs.now.rules) (apply σ (tree t.now)) v → IsInstance (tree c) v) }
    ensures stays { IfOk result (λ c. fixed ≡ true → (v : Tree)
        → Reaches (Step trs.now.rules) (tree t.now) v → (σ : ℕ → Tree)
        × ((x : ℕ) → IsTrue (has_var x (tree t.now)) → σ x ≡ var x) × (apply σ (tree c) ≡ v)) }
{
    let by_root = RulesByRoot::new(alloc, trs)?;
    let holed = cap(alloc, &by_root, t, fixed)?;
    let own = own_variables(alloc, t, fixed)?;
    number(alloc, &holed, &own, &mut 0)
}

/// The cap of a term, its fresh variables without names. The table of rules is made once for many
/// terms of a system. Each symbol's cap is put beside the left sides with this root alone.
pub fn cap(alloc: Global, by_root: &RulesByRoot, t: &Term, fixed: bool) -> Result<Cap, OutOfMemory>
    ensures cap { IfOk result (λ c.
        IsHoledCap by_root.now.rules fixed (tree t.now) (holed c)) }
    // What the term reaches fits the cap; what its instances reach too, where variables are free.
    ensures term { IfOk result (λ c. (v : Tree)
        → Reaches (Step by_root.now.rules) (tree t.now) v → Fits (holed c) v) }
    ensures instances { IfOk result (λ c. fixed ≡ false → (σ : ℕ → Tree) (v : Tree)
        → Reaches (Step by_root.now.rules) (apply σ (tree t.now)) v → Fits (holed c) v) }
{
    let mut known = KnownCaps::new(alloc);
    known.cap(alloc, by_root, t, fixed)
}

impl KnownCaps {
    /// The cap of a term, by what is known of earlier ones. What is found out is noted.
    pub fn cap(
        &mut self,
        alloc: Global,
        by_root: &RulesByRoot,
        t: &Term,
        fixed: bool,
    ) -> Result<Cap, OutOfMemory>
        requires { IsKnown by_root.now.rules fixed self.old }
        ensures cap { IfOk result (λ c.
            IsHoledCap by_root.now.rules fixed (tree t.now) (holed c)) }
        ensures term { IfOk result (λ c. (v : Tree)
            → Reaches (Step by_root.now.rules) (tree t.now) v → Fits (holed c) v) }
        ensures instances { IfOk result (λ c. fixed ≡ false → (σ : ℕ → Tree) (v : Tree)
            → Reaches (Step by_root.now.rules) (apply σ (tree t.now)) v → Fits (holed c) v) }
        ensures known { OnOk result (IsKnown by_root.now.rules fixed self.new) }
    {
        let id = self.id(alloc, by_root, t)?;
        let sizes = self.ground_sizes.as_slice();
        let mut shape = Shape::none();
        cap_of(
            alloc,
            by_root,
            sizes,
            &self.pool,
            t,
            id,
            fixed,
            &mut self.opens,
            &mut shape,
        )
    }
}

/// The cap of a term, whose shape is added.
fn cap_of(
    alloc: Global,
    by_root: &RulesByRoot,
    sizes: &[u32],
    pool: &Pool,
    t: &Term,
    id: Option<u32>,
    fixed: bool,
    opens: &mut BTreeMap<u32, bool>,
    shape: &mut Shape,
) -> Result<Cap, OutOfMemory>
    requires sizes { AreGroundSizes by_root.now.rules sizes.now }
    requires id { IsIdOf pool.now id (tree t.now) }
    requires known { AreKnown by_root.now.rules fixed pool.now opens.old }
    ensures cap { IfOk result (λ c. IsHoledCap by_root.now.rules fixed (tree t.now) (holed c)) }
    ensures known { OnOk result (AreKnown by_root.now.rules fixed pool.now opens.new) }
    ensures shape { IfOk result (λ c. AddsShape (holed c) shape.old shape.new) }
{
    match t {
        Term::Var(v) => Ok(variable_cap(*v, fixed, shape)),
        Term::App(f, args) => {
            let mut whole = Shape::symbol();
            let mut items = Vec::with_capacity(alloc, args.items.len())?;
            for (i, arg) in args.items.iter().enumerate() {
                let part = argument(pool, id, i);
                let item = cap_of(
                    alloc, by_root, sizes, pool, arg, part, fixed, opens, &mut whole,
                )?;
                items.push(item)?;
            }
            close(alloc, by_root, sizes, *f, items, whole, id, opens, shape)
        }
    }
}

/// The cap of a variable, whose shape is added.
fn variable_cap(v: u32, fixed: bool, shape: &mut Shape) -> Cap
    ensures fixed { fixed ≡ true → holed result ≡ own v }
    ensures free { fixed ≡ false → holed result ≡ hole }
    ensures shape { AddsShape (holed result) shape.old shape.new }
{
    if fixed {
        shape.add(Shape::symbol());
        Cap::Own(v)
    } else {
        shape.add(Shape::hole());
        Cap::Open
    }
}

/// What stays of a symbol over the caps of its arguments: all of it, or a hole where it meets a left
/// side. It is not inlined, so that the recursion over a deep term has little on the stack at each
/// level.
#[inline(never)]
fn close(
    alloc: Global,
    by_root: &RulesByRoot,
    sizes: &[u32],
    f: u32,
    items: Vec<Cap>,
    whole_shape: Shape,
    id: Option<u32>,
    opens: &mut BTreeMap<u32, bool>,
    shape: &mut Shape,
) -> Result<Cap, OutOfMemory>
    requires sizes { AreGroundSizes by_root.now.rules sizes.now }
    requires shape { IsShape (symbol f (holed_all items.items)) whole_shape }
    ensures cap { (fixed : Bool) (pool : List Tree) (t : Tree)
        → AreKnown by_root.now.rules fixed pool opens.old → IsIdOf pool id t
        → IsWhole by_root.now.rules fixed t (symbol f (holed_all items.items))
        → IfOk result (λ c. IsHoledCap by_root.now.rules fixed t (holed c)) }
    ensures known { (fixed : Bool) (pool : List Tree) (t : Tree)
        → AreKnown by_root.now.rules fixed pool opens.old → IsIdOf pool id t
        → IsWhole by_root.now.rules fixed t (symbol f (holed_all items.items))
        → OnOk result (AreKnown by_root.now.rules fixed pool opens.new) }
    ensures shape { IfOk result (λ c. AddsShape (holed c) shape.old shape.new) }
{
    let whole = Cap::Symbol(f, Parts { items });
    if is_opened(alloc, by_root, sizes, f, &whole, whole_shape, id, opens)? {
        shape.add(Shape::hole());
        Ok(Cap::Open)
    } else {
        shape.add(whole_shape);
        Ok(whole)
    }
}

/// Whether a cap with this root meets a left side, by what is known of the id of its term.
fn is_opened(
    alloc: Global,
    by_root: &RulesByRoot,
    sizes: &[u32],
    f: u32,
    cap: &Cap,
    shape: Shape,
    id: Option<u32>,
    opens: &mut BTreeMap<u32, bool>,
) -> Result<bool, OutOfMemory>
    requires sizes { AreGroundSizes by_root.now.rules sizes.now }
    requires shape { IsShape (holed cap.now) shape }
    requires root { HasRoot f (holed cap.now) }
    ensures meets { (fixed : Bool) (pool : List Tree) (t : Tree)
        → AreKnown by_root.now.rules fixed pool opens.old → IsIdOf pool id t
        → IsWhole by_root.now.rules fixed t (holed cap.now)
        → IfOk result (λ yes. MeetsSome (holed cap.now) by_root.now.rules yes) }
    ensures known { (fixed : Bool) (pool : List Tree) (t : Tree)
        → AreKnown by_root.now.rules fixed pool opens.old → IsIdOf pool id t
        → IsWhole by_root.now.rules fixed t (holed cap.now)
        → OnOk result (AreKnown by_root.now.rules fixed pool opens.new) }
{
    if let Some(yes) = recall(id, opens) {
        return Ok(yes);
    }
    let yes = meets_some(alloc, by_root, sizes, f, cap, shape)?;
    note(id, yes, opens)?;
    Ok(yes)
}

/// Whether a cap with this root meets a left side.
fn meets_some(
    alloc: Global,
    by_root: &RulesByRoot,
    sizes: &[u32],
    f: u32,
    cap: &Cap,
    shape: Shape,
) -> Result<bool, OutOfMemory>
    requires sizes { AreGroundSizes by_root.now.rules sizes.now }
    requires shape { IsShape (holed cap.now) shape }
    requires root { HasRoot f (holed cap.now) }
    ensures { IfOk result (λ yes. MeetsSome (holed cap.now) by_root.now.rules yes) }
{
    let rules = by_root.rules();
    for k in by_root.with_root(f) {
        let rule = &rules[*k as usize];
        if meets_rule(alloc, by_root, sizes, cap, shape, rule, *k)? {
            return Ok(true);
        }
    }
    Ok(false)
}

/// Whether a cap meets the left side of rule `k`. Its shape excludes most left sides with no
/// variable.
fn meets_rule(
    alloc: Global,
    by_root: &RulesByRoot,
    sizes: &[u32],
    cap: &Cap,
    shape: Shape,
    rule: &Rule,
    k: u32,
) -> Result<bool, OutOfMemory>
    requires sizes { AreGroundSizes by_root.now.rules sizes.now }
    requires shape { IsShape (holed cap.now) shape }
    requires rule { slice_get by_root.now.rules k ≡ Some rule.now }
    ensures { IfOk result (λ yes. IsTrue yes ↔ MeetsLeft (holed cap.now) rule.now.left) }
{
    if shape.excludes(ground_size_at(sizes, k)) {
        return Ok(false);
    }
    cap.meets(alloc, &rule.left)
}
