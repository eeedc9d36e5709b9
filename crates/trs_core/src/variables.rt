ghost use Rattle.std.specs.Prelude.{◌≡◌, IfOk, OnOk};
ghost use Rattle.trs_defs.specs.Tree.{var};
ghost use Rattle.trs_defs.specs.Variable.{variables_of, with_variables};
ghost use Rattle.trs_core.specs.Seen.{HasItems};
ghost use Rattle.trs_core.specs.View.{tree};

use crate::variable_set::VariableSet;
use crate::{OutOfMemory, Term};
use std::alloc::Global;

impl Term {
    /// The variables in order of first occurrence from the left, each once.
    pub fn vars(&self, alloc: Global) -> Result<Vec<u32>, OutOfMemory>
        ensures { IfOk result (λ vars. vars.items ≡ variables_of (tree self.now)) }
    {
        let mut seen = VariableSet::new(alloc);
        let mut vars = Vec::new(alloc);
        add_vars(self, &mut seen, &mut vars)?;
        Ok(vars)
    }
}

/// Adds the variables of a term that are not seen yet.
fn add_vars(t: &Term, seen: &mut VariableSet, vars: &mut Vec<u32>) -> Result<(), OutOfMemory>
    requires { HasItems seen.old vars.old.items }
    ensures vars { OnOk result (vars.new.items ≡ with_variables vars.old.items (tree t.now)) }
    ensures seen { OnOk result (HasItems seen.new vars.new.items) }
{
    match t {
        Term::Var(v) => add_var(*v, seen, vars),
        Term::App(_, args) => {
            for arg in &args.items {
                add_vars(arg, seen, vars)?;
            }
            Ok(())
        }
    }
}

/// Adds a variable that is not seen yet.
fn add_var(v: u32, seen: &mut VariableSet, vars: &mut Vec<u32>) -> Result<(), OutOfMemory>
    requires { HasItems seen.old vars.old.items }
    ensures vars { OnOk result (vars.new.items ≡ with_variables vars.old.items (var v)) }
    ensures seen { OnOk result (HasItems seen.new vars.new.items) }
{
    if seen.insert(v)? {
        vars.push(v)?;
    }
    Ok(())
}
