//! The parts of left sides whose root some rule has: rules overlap at no others.
ghost use Rattle.std.specs.Prelude.{◌≡◌, ◌<◌, ◌++◌, [], ◌∷◌, All, IfOk, OnOk, IsTrue, Some, map};
ghost use Rattle.std.specs.List.{filter};
ghost use Rattle.trs_defs.specs.Position.{subterm_at};
ghost use Rattle.trs_defs.specs.System.{has_root};
ghost use Rattle.trs_defs.specs.Tree.{Tree};
ghost use Rattle.trs_core.specs.View.{tree};
ghost use Rattle.term_pool.specs.Redexes.{IsNarrow};
ghost use Rattle.crit_pairs.specs.PeakList.{symbol_places};
ghost use Rattle.crit_pairs.specs.Parts.{IsPartIn, place_of_part, has_rule_at, rooted_places};
ghost use Rattle.crit_pairs.specs.Skeletons.{opened};
ghost use Rattle.crit_pairs.specs.SkeletonView.{skeleton_view};

use crate::apart::RulesApart;
use crate::skeleton::Skeleton;
use std::alloc::Global;
use trs_core::{OutOfMemory, Position, Term};

/// A part of a term that is no variable, with its root, its skeleton and its place in the term.
#[derive(Drop)]
pub(crate) struct Part<'t> {
    pub term: &'t Term,
    pub root: u32,
    pub skeleton: &'t Skeleton,
    pub place: Position,
}

/// The parts of a term whose root some rule has, in preorder.
pub(crate) fn parts_of<'t>(
    alloc: Global,
    rules: &RulesApart,
    t: &'t Term,
    skeleton: &'t Skeleton,
) -> Result<Vec<Part<'t>>, OutOfMemory>
    requires skeleton { skeleton_view skeleton.now ≡ opened (tree t.now) }
    requires narrow { IsNarrow (tree t.now) }
    ensures places { IfOk result (λ parts.
        map place_of_part parts.items ≡ rooted_places rules.now.rules (tree t.now)) }
    ensures each { IfOk result (λ parts. All (IsPartIn (tree t.now)) parts.items) }
{
    let mut parts = Vec::new(alloc);
    let mut place = Vec::new(alloc);
    add_parts(alloc, rules, t, skeleton, &mut place, &mut parts)?;
    Ok(parts)
}

/// Adds the parts at a place and below it, where `t` stands.
fn add_parts<'t>(
    alloc: Global,
    rules: &RulesApart,
    t: &'t Term,
    skeleton: &'t Skeleton,
    place: &mut Vec<u8>,
    parts: &mut Vec<Part<'t>>,
) -> Result<(), OutOfMemory>
    requires skeleton { skeleton_view skeleton.now ≡ opened (tree t.now) }
    requires narrow { IsNarrow (tree t.now) }
    requires positive { All (λ n. 0 < n) place.old.items }
    ensures places { OnOk result ((whole : Tree)
        → subterm_at place.old.items whole ≡ Some (tree t.now)
        → map place_of_part parts.new.items ≡ map place_of_part parts.old.items
        ++ filter (has_rule_at rules.now.rules whole)
        (map (λ q. place.old.items ++ q) (symbol_places (tree t.now)))) }
    ensures each { OnOk result ((whole : Tree)
        → subterm_at place.old.items whole ≡ Some (tree t.now)
        → All (IsPartIn whole) parts.old.items → All (IsPartIn whole) parts.new.items) }
    ensures place { OnOk result (place.new.items ≡ place.old.items) }
{
    match t {
        Term::Var(_) => Ok(()),
        Term::App(f, args) => {
            add_part(alloc, rules, t, skeleton, *f, place, parts)?;
            let below = skeleton.parts();
            for (i, arg) in args.items.iter().enumerate() {
                place.push(i as u8 + 1)?;
                add_parts(alloc, rules, arg, &below[i], place, parts)?;
                place.pop();
            }
            Ok(())
        }
    }
}

/// Adds the part at a place, where `t` stands, if some rule has its root.
fn add_part<'t>(
    alloc: Global,
    rules: &RulesApart,
    t: &'t Term,
    skeleton: &'t Skeleton,
    root: u32,
    place: &[u8],
    parts: &mut Vec<Part<'t>>,
) -> Result<(), OutOfMemory>
    requires skeleton { skeleton_view skeleton.now ≡ opened (tree t.now) }
    requires root { IsTrue (has_root root (tree t.now)) }
    requires positive { All (λ n. 0 < n) place.now }
    ensures places { OnOk result ((whole : Tree) → subterm_at place.now whole ≡ Some (tree t.now)
        → map place_of_part parts.new.items ≡ map place_of_part parts.old.items
        ++ filter (has_rule_at rules.now.rules whole) (place.now ∷ [])) }
    ensures each { OnOk result ((whole : Tree) → subterm_at place.now whole ≡ Some (tree t.now)
        → All (IsPartIn whole) parts.old.items → All (IsPartIn whole) parts.new.items) }
{
    if rules.with_root(root).is_empty() {
        return Ok(());
    }
    parts.push(Part {
        term: t,
        root,
        skeleton,
        place: Position::of(alloc, place)?,
    })?;
    Ok(())
}
