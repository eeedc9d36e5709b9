ghost use Rattle.std.specs.Prelude.{ℕ, ◌≡◌, ◌<◌, ◌⊎◌, OnOk, All, List, length};
ghost use Rattle.trs_defs.specs.Member.{In};
ghost use Rattle.pair_theory.specs.DependencyPair.{DependencyPair};
ghost use Rattle.dp_core.specs.Numbered.{ArePairsOf};
ghost use Rattle.usable_rules.specs.Worklist.{AreMarked, IsCalledInAny, IsLed, IsLedByPairs};
ghost use Rattle.usable_rules.specs.Worklist.{IsUsableIfDefined, Extends};

use crate::marking::mark_below;
use dp_core::{Side, Sides};
use term_pool::RulesByRoot;
use trs_core::OutOfMemory;

/// Adds the symbols below the roots of the right sides of the problem's pairs.
pub(crate) fn mark_pairs(
    pairs: &[Sides],
    problem: &[u32],
    flags: &mut Vec<bool>,
    found: &mut Vec<u32>,
) -> Result<(), OutOfMemory>
    requires marked { AreMarked flags.old.items found.old.items }
    requires numbers { All (λ n. n < length pairs.now) problem.now }
    ensures marked { OnOk result (AreMarked flags.new.items found.new.items) }
    ensures flags { length flags.new.items ≡ length flags.old.items }
    ensures kept { OnOk result ((g : ℕ) → In g found.old.items → In g found.new.items) }
    ensures all { OnOk result ((taken : List DependencyPair) →
        ArePairsOf pairs.now problem.now taken → (g : ℕ) → IsLedByPairs taken g →
        g < length flags.old.items → In g found.new.items) }
    ensures only { OnOk result ((taken : List DependencyPair) →
        ArePairsOf pairs.now problem.now taken → (g : ℕ) → In g found.new.items →
        In g found.old.items ⊎ IsLedByPairs taken g) }
{
    for n in problem {
        let sides = &pairs[*n as usize];
        mark_arguments(&sides.to, flags, found)?;
    }
    Ok(())
}

/// Adds the symbols below the root.
fn mark_arguments(
    side: &Side,
    flags: &mut Vec<bool>,
    found: &mut Vec<u32>,
) -> Result<(), OutOfMemory>
    requires { AreMarked flags.old.items found.old.items }
    ensures marked { OnOk result (AreMarked flags.new.items found.new.items) }
    ensures flags { length flags.new.items ≡ length flags.old.items }
    ensures kept { OnOk result ((g : ℕ) → In g found.old.items → In g found.new.items) }
    ensures all { OnOk result ((g : ℕ) → IsCalledInAny side.now.args g →
        g < length flags.old.items → In g found.new.items) }
    ensures only { OnOk result ((g : ℕ) → In g found.new.items →
        In g found.old.items ⊎ IsCalledInAny side.now.args g) }
{
    let args = side.args;
    for arg in &args.items {
        mark_below(arg, flags, found)?;
    }
    Ok(())
}

/// Adds what the found symbols lead to, until there is no more.
pub(crate) fn close(
    by_root: &RulesByRoot,
    flags: &mut Vec<bool>,
    found: &mut Vec<u32>,
) -> Result<(), OutOfMemory>
    requires { AreMarked flags.old.items found.old.items }
    ensures marked { OnOk result (AreMarked flags.new.items found.new.items) }
    ensures flags { length flags.new.items ≡ length flags.old.items }
    ensures kept { OnOk result ((g : ℕ) → In g found.old.items → In g found.new.items) }
    ensures all { OnOk result ((f g : ℕ) → In f found.new.items → IsLed by_root.now.rules f g →
        g < length flags.old.items → In g found.new.items) }
    ensures only { OnOk result ((pairs : List DependencyPair) →
        ((g : ℕ) → In g found.old.items → IsUsableIfDefined by_root.now.rules pairs g) →
        (g : ℕ) → In g found.new.items → IsUsableIfDefined by_root.now.rules pairs g) }
{
    let mut i = 0;
    while i < found.len() {
        visit(by_root, found[i], flags, found)?;
        i += 1;
    }
    Ok(())
}

/// Adds what a symbol leads to: the symbols of the right sides of the rules with this root.
fn visit(
    by_root: &RulesByRoot,
    f: u32,
    flags: &mut Vec<bool>,
    found: &mut Vec<u32>,
) -> Result<(), OutOfMemory>
    requires { AreMarked flags.old.items found.old.items }
    ensures marked { OnOk result (AreMarked flags.new.items found.new.items) }
    ensures flags { length flags.new.items ≡ length flags.old.items }
    ensures grown { OnOk result (Extends found.new.items found.old.items) }
    ensures all { OnOk result ((g : ℕ) → IsLed by_root.now.rules f g →
        g < length flags.old.items → In g found.new.items) }
    ensures only { OnOk result ((g : ℕ) → In g found.new.items →
        In g found.old.items ⊎ IsLed by_root.now.rules f g) }
{
    let rules = by_root.rules();
    for k in by_root.with_root(f) {
        let rule = &rules[*k as usize];
        mark_below(&rule.right, flags, found)?;
    }
    Ok(())
}
