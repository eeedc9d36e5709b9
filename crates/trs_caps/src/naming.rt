ghost use Rattle.std.specs.Prelude.{◌≡◌, ◌+◌, ◌||◌, ℕ, Bool, IfOk, OnOk};
ghost use Rattle.std.specs.Ordering.{nat_cmp};
ghost use Rattle.std.specs.BTreeSet.{contains};
ghost use Rattle.trs_defs.specs.Variable.{has_var};
ghost use Rattle.trs_core.specs.View.{tree};
ghost use Rattle.trs_caps.specs.Caps.{IsNext, own_variables as own_of};
ghost use Rattle.trs_caps.specs.Numbered.{IsNumbered};
ghost use Rattle.trs_caps.specs.View.{holed};

use crate::Cap;
use std::alloc::Global;
use std::collections::BTreeSet;
use trs_core::{Args, OutOfMemory, Term};

/// The cap with a fresh variable for each hole, from `next` on. Own variables are passed over.
pub(crate) fn number(
    alloc: Global,
    cap: &Cap,
    own: &BTreeSet<u32>,
    next: &mut u32,
) -> Result<Term, OutOfMemory>
    ensures { IfOk result (λ t. (is_own : ℕ → Bool)
        → ((v : ℕ) → contains nat_cmp own.now v ≡ is_own v)
        → IsNumbered is_own next.old (holed cap.now) (tree t) next.new) }
{
    match cap {
        Cap::Open => Ok(Term::Var(fresh(own, next)?)),
        Cap::Own(v) => Ok(Term::Var(*v)),
        Cap::Symbol(f, parts) => {
            let mut args = Vec::with_capacity(alloc, parts.items.len())?;
            for part in &parts.items {
                args.push(number(alloc, part, own, next)?)?;
            }
            Ok(Term::App(*f, Args { items: args }))
        }
    }
}

/// The next variable that is no own one. It would take 2^32 of them for the numbers to run out.
fn fresh(own: &BTreeSet<u32>, next: &mut u32) -> Result<u32, OutOfMemory>
    ensures variable { IfOk result (λ w. (is_own : ℕ → Bool)
        → ((v : ℕ) → contains nat_cmp own.now v ≡ is_own v)
        → IsNext is_own next.old w) }
    ensures next { IfOk result (λ w. next.new ≡ w + 1) }
{
    let mut w = *next;
    while own.contains(&w) {
        w = w.checked_add(1).ok_or(OutOfMemory)?;
    }
    *next = w.checked_add(1).ok_or(OutOfMemory)?;
    Ok(w)
}

/// The variables of a term, where they are fixed.
pub(crate) fn own_variables(
    alloc: Global,
    t: &Term,
    fixed: bool,
) -> Result<BTreeSet<u32>, OutOfMemory>
    ensures { IfOk result (λ own. (v : ℕ) → contains nat_cmp own v ≡ own_of fixed (tree t.now) v) }
{
    let mut own = BTreeSet::new(alloc);
    if fixed {
        add_variables(t, &mut own)?;
    }
    Ok(own)
}

/// Adds the variables of a term.
fn add_variables(t: &Term, own: &mut BTreeSet<u32>) -> Result<(), OutOfMemory>
    ensures { OnOk result ((v : ℕ) → contains nat_cmp own.new v ≡
        (contains nat_cmp own.old v || has_var v (tree t.now))) }
{
    match t {
        Term::Var(v) => {
            own.insert(*v)?;
        }
        Term::App(_, args) => {
            for arg in &args.items {
                add_variables(arg, own)?;
            }
        }
    }
    Ok(())
}
