//! Rules with the same left side.
ghost use Rattle.std.specs.Prelude.{◌≡◌, ◌<◌, IfOk, OnOk, length};
ghost use Rattle.dp_graph.specs.SameLefts.{HaveSameLefts, IsNotedOr, NotesAt, NotesStay};

use dp_core::has_defined;
use std::alloc::Global;
use term_pool::{Pool, RulesByRoot};
use trs_core::{OutOfMemory, Rule, Term};

/// For each rule with pairs the number, from 0, of the first such one with the same left side, and
/// none for the others. Left sides are compared only where others have their root.
pub(crate) fn first_with_left(
    alloc: Global,
    by_root: &RulesByRoot,
    rules: &[Rule],
) -> Result<Vec<Option<usize>>, OutOfMemory>
    requires { rules.now ≡ by_root.now.rules }
    ensures { IfOk result (λ firsts. HaveSameLefts rules.now firsts.items) }
{
    let mut pool = Pool::new(alloc);
    let mut seen = Vec::new(alloc);
    let mut firsts = Vec::with_capacity(alloc, rules.len())?;
    for (k, rule) in rules.iter().enumerate() {
        if !has_defined(by_root, &rule.right) {
            firsts.push(None)?;
            continue;
        }
        if has_own_root(by_root, rule) {
            firsts.push(Some(k))?;
            continue;
        }
        let id = pool.intern(alloc, &rule.left)?;
        firsts.push(Some(noted_or(&mut seen, id, k)?))?;
    }
    Ok(firsts)
}

/// Whether no other rule has the root of its left side.
fn has_own_root(by_root: &RulesByRoot, rule: &Rule) -> bool {
    match &rule.left {
        Term::Var(_) => false,
        Term::App(f, _) => by_root.with_root(*f).len() == 1,
    }
}

/// The number that is noted of an id, or else this one, which is noted then. There is room for a
/// number of each id up to the largest one.
pub(crate) fn noted_or(
    seen: &mut Vec<Option<usize>>,
    id: u32,
    k: usize,
) -> Result<usize, OutOfMemory>
    ensures number { IfOk result (IsNotedOr seen.old.items id k) }
    ensures notes { IfOk result (λ first. NotesAt id first seen.old.items seen.new.items) }
{
    let place = id as usize;
    make_room(seen, place)?;
    if let Some(first) = seen[place] {
        return Ok(first);
    }
    seen[place] = Some(k);
    Ok(k)
}

/// Makes room for a number at a place.
fn make_room(seen: &mut Vec<Option<usize>>, place: usize) -> Result<(), OutOfMemory>
    ensures room { OnOk result (place < length seen.new.items) }
    ensures notes { OnOk result (NotesStay seen.old.items seen.new.items) }
{
    while seen.len() <= place {
        seen.push(None)?;
    }
    Ok(())
}
