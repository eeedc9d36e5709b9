//! The rules that are noted for left sides, by the roots of these.
ghost use Rattle.std.specs.Prelude.{◌≡◌, ◌↔◌, ℕ, IfOk, OnOk, IsTrue};
ghost use Rattle.trs_defs.specs.Member.{In};
ghost use Rattle.dp_graph.specs.NotedRules.{HaveAllNoted, noted_at};
ghost use Rattle.dp_graph.specs.SameLefts.{IsNoted};

use std::alloc::Global;
use std::collections::BTreeMap;
use term_pool::RulesByRoot;
use trs_core::{OutOfMemory, Term};

/// So few rules with one root are all looked at.
const FEW_WITH_ROOT: usize = 8;

/// For each root that many rules have the numbers of those that are noted for their left sides.
pub(crate) fn noted_by_root(
    alloc: Global,
    by_root: &RulesByRoot,
    lefts: &[Option<usize>],
) -> Result<BTreeMap<u32, Vec<u32>>, OutOfMemory>
    ensures { IfOk result (HaveAllNoted by_root.now.rules lefts.now) }
{
    let mut noted = BTreeMap::new(alloc);
    for rule in by_root.rules() {
        if let Term::App(f, _) = &rule.left {
            add_root(alloc, by_root, lefts, *f, &mut noted)?;
        }
    }
    Ok(noted)
}

/// Adds the list of a root, if many rules have that.
fn add_root(
    alloc: Global,
    by_root: &RulesByRoot,
    lefts: &[Option<usize>],
    f: u32,
    noted: &mut BTreeMap<u32, Vec<u32>>,
) -> Result<(), OutOfMemory>
    ensures { OnOk result (HaveAllNoted by_root.now.rules lefts.now noted.old
        → HaveAllNoted by_root.now.rules lefts.now noted.new) }
{
    let numbers = by_root.with_root(f);
    if numbers.len() <= FEW_WITH_ROOT || noted.contains_key(&f) {
        return Ok(());
    }
    noted.insert(f, noted_among(alloc, lefts, numbers)?)?;
    Ok(())
}

/// Those of these rules that are noted for their left sides.
fn noted_among(
    alloc: Global,
    lefts: &[Option<usize>],
    numbers: &[u32],
) -> Result<Vec<u32>, OutOfMemory>
    ensures { IfOk result (λ noted. (k : ℕ) → In k numbers.now → IsNoted lefts.now k k
        → In k noted.items) }
{
    let mut noted = Vec::new(alloc);
    for k in numbers {
        if is_noted(lefts, *k as usize) {
            noted.push(*k)?;
        }
    }
    Ok(noted)
}

/// Whether a rule is noted for its left side.
pub(crate) fn is_noted(lefts: &[Option<usize>], k: usize) -> bool
    ensures { IsTrue result ↔ IsNoted lefts.now k k }
{
    match lefts.get(k) {
        Some(Some(first)) => *first == k,
        _ => false,
    }
}

/// Numbers of rules with a root, among them all that are noted for their left sides.
pub(crate) fn numbers_at<'a>(
    noted: &'a BTreeMap<u32, Vec<u32>>,
    by_root: &'a RulesByRoot,
    f: u32,
) -> &'a [u32]
    ensures { result.now ≡ noted_at by_root.now.rules noted.now f }
{
    match noted.get(&f) {
        Some(numbers) => numbers,
        None => by_root.with_root(f),
    }
}
