ghost use Rattle.std.specs.Prelude.{ℕ, ◌≡◌, ◌<◌, ◌⊎◌, OnOk, length};
ghost use Rattle.trs_defs.specs.Member.{In};
ghost use Rattle.trs_core.specs.View.{tree, forest};
ghost use Rattle.usable_rules.specs.Worklist.{AreMarked, IsCalled, IsCalledInAny, Extends};

use trs_core::{OutOfMemory, Term};

/// Adds a symbol that has a flag, unless it is found.
pub(crate) fn mark(f: u32, flags: &mut Vec<bool>, found: &mut Vec<u32>) -> Result<(), OutOfMemory>
    requires { AreMarked flags.old.items found.old.items }
    ensures marked { OnOk result (AreMarked flags.new.items found.new.items) }
    ensures flags { length flags.new.items ≡ length flags.old.items }
    ensures grown { OnOk result (Extends found.new.items found.old.items) }
    ensures all { OnOk result (f < length flags.old.items → In f found.new.items) }
    ensures only { OnOk result ((g : ℕ) → In g found.new.items → In g found.old.items ⊎ (g ≡ f)) }
{
    if (f as usize) < flags.len() && !flags[f as usize] {
        found.push(f)?;
        flags[f as usize] = true;
    }
    Ok(())
}

/// Adds the symbols of a term.
pub(crate) fn mark_below(
    t: &Term,
    flags: &mut Vec<bool>,
    found: &mut Vec<u32>,
) -> Result<(), OutOfMemory>
    requires { AreMarked flags.old.items found.old.items }
    ensures marked { OnOk result (AreMarked flags.new.items found.new.items) }
    ensures flags { length flags.new.items ≡ length flags.old.items }
    ensures grown { OnOk result (Extends found.new.items found.old.items) }
    ensures all { OnOk result ((g : ℕ) → IsCalled (tree t.now) g → g < length flags.old.items →
        In g found.new.items) }
    ensures only { OnOk result ((g : ℕ) → In g found.new.items →
        In g found.old.items ⊎ IsCalled (tree t.now) g) }
{
    match t {
        Term::Var(_) => Ok(()),
        Term::App(f, args) => {
            mark(*f, flags, found)?;
            for arg in &args.items {
                mark_below(arg, flags, found)?;
            }
            Ok(())
        }
    }
}
