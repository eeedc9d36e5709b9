ghost use Rattle.std.specs.Prelude.{◌≡◌, ◌<◌, ◌++◌, [], All, IfOk, IsTrue, OnOk};
ghost use Rattle.trs_core.specs.View.{tree};
ghost use Rattle.term_pool.specs.Redexes.{IsNarrow};
ghost use Rattle.pair_theory.specs.DependencyPair.{keep_if};
ghost use Rattle.dp_core.specs.PlacedPairs.{placed_pairs, placed_below, defined_places};

use crate::DpPair;
use crate::defined::{has_defined, is_defined, is_undefined_leaf};
use std::alloc::Global;
use term_pool::RulesByRoot;
use trs_core::{OutOfMemory, Position, Term, Trs, systems_are_valid};

/// The dependency pairs: rules in order, and within a rule the subterms of the right side with a
/// defined root, in preorder.
pub fn dependency_pairs(alloc: Global, trs: &Trs) -> Result<Vec<DpPair>, OutOfMemory>
    ensures pairs { IfOk result (λ found. found.items ≡ placed_pairs trs.now.rules) }
{
    systems_are_valid(trs);
    let by_root = RulesByRoot::new(alloc, trs)?;
    let mut pairs = Vec::new(alloc);
    for (k, rule) in trs.rules().iter().enumerate() {
        if !has_defined(&by_root, &rule.right) {
            continue;
        }
        let mut place = Vec::new(alloc);
        add_below(
            alloc,
            &by_root,
            k as u32,
            &rule.right,
            &mut place,
            &mut pairs,
        )?;
    }
    Ok(pairs)
}

/// Adds the pairs of rule k at a position of its right side and below it, where `part` stands.
fn add_below(
    alloc: Global,
    by_root: &RulesByRoot,
    k: u32,
    part: &Term,
    place: &mut Vec<u8>,
    pairs: &mut Vec<DpPair>,
) -> Result<(), OutOfMemory>
    requires narrow { IsNarrow (tree part.now) }
    requires positive { All (λ n. 0 < n) place.old.items }
    ensures pairs { OnOk result (pairs.new.items ≡ pairs.old.items
        ++ placed_below k place.old.items (defined_places by_root.now.rules (tree part.now))) }
    ensures place { OnOk result (place.new.items ≡ place.old.items) }
{
    match part {
        Term::Var(_) => Ok(()),
        Term::App(f, args) => {
            let defined = is_defined(by_root, *f);
            add_here(alloc, defined, k, place, pairs)?;
            for (i, arg) in args.items.iter().enumerate() {
                if has_none(by_root, defined, arg) {
                    continue;
                }
                place.push(i as u8 + 1)?;
                add_below(alloc, by_root, k, arg, place, pairs)?;
                place.pop();
            }
            Ok(())
        }
    }
}

/// Adds the pair of rule k at a position where a symbol stands, if the symbol is defined.
fn add_here(
    alloc: Global,
    defined: bool,
    k: u32,
    place: &[u8],
    pairs: &mut Vec<DpPair>,
) -> Result<(), OutOfMemory>
    requires positive { All (λ n. 0 < n) place.now }
    ensures { OnOk result (pairs.new.items ≡ pairs.old.items
        ++ placed_below k place.now (keep_if defined [] [])) }
{
    if defined {
        pairs.push(DpPair {
            rule: k,
            place: Position::of(alloc, place)?,
        })?;
    }
    Ok(())
}

/// Whether there is no pair in an argument, as far as it is looked through: it is below a defined
/// symbol, so that each subterm is looked at in this way at most once.
fn has_none(by_root: &RulesByRoot, below_defined: bool, arg: &Term) -> bool
    ensures { IsTrue result → defined_places by_root.now.rules (tree arg.now) ≡ [] }
{
    if is_undefined_leaf(by_root, arg) {
        return true;
    }
    below_defined && !has_defined(by_root, arg)
}
