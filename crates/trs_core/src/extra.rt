ghost use Rattle.std.specs.Prelude.{◌≡◌, ℕ, ◌||◌, IfOk, OnOk, find, not};
ghost use Rattle.trs_defs.specs.Variable.{has_var};
ghost use Rattle.trs_core.specs.Occurrences.{occurring_in, extra_variable as first_extra};
ghost use Rattle.trs_core.specs.VariableSet.{holds};
ghost use Rattle.trs_core.specs.View.{tree};

use crate::variable_set::VariableSet;
use crate::{OutOfMemory, Rule, Term};
use std::alloc::Global;

/// The first variable of the right side, from the left, that is not in the left side.
pub(crate) fn extra_variable(alloc: Global, rule: &Rule) -> Result<Option<u32>, OutOfMemory>
    ensures { IfOk result (λ found. found ≡ first_extra rule.now) }
{
    let mut known = VariableSet::new(alloc);
    collect_variables(&rule.left, &mut known)?;
    Ok(first_unknown(&rule.right, &known))
}

fn collect_variables(t: &Term, known: &mut VariableSet) -> Result<(), OutOfMemory>
    ensures { OnOk result ((v : ℕ) →
        holds known.new v ≡ (holds known.old v || has_var v (tree t.now))) }
{
    match t {
        Term::Var(v) => {
            known.insert(*v)?;
        }
        Term::App(_, args) => {
            for arg in &args.items {
                collect_variables(arg, known)?;
            }
        }
    }
    Ok(())
}

fn first_unknown(t: &Term, known: &VariableSet) -> Option<u32>
    ensures { result ≡ find (λ v. not (holds known.now v)) (occurring_in (tree t.now)) }
{
    match t {
        Term::Var(v) if known.has(*v) => None,
        Term::Var(v) => Some(*v),
        Term::App(_, args) => {
            for arg in &args.items {
                let found = first_unknown(arg, known);
                if found.is_some() {
                    return found;
                }
            }
            None
        }
    }
}
