ghost use Rattle.std.specs.Prelude.{IfOk, OnOk};
ghost use Rattle.trs_core.specs.View.{tree};
ghost use Rattle.trs_unify.specs.Renamed.{AreNames, IsRenamed};

use crate::Names;
use crate::naming::number_variable;
use std::alloc::Global;
use trs_core::{Args, OutOfMemory, Term};

/// The term, with new numbers for its variables: those that have none yet get the next ones as they
/// are met.
pub fn number_variables(alloc: Global, t: &Term, names: &mut Names) -> Result<Term, OutOfMemory>
    requires { AreNames names.old.numbers names.old.order.items }
    ensures names { OnOk result (AreNames names.new.numbers names.new.order.items) }
    ensures renamed { IfOk result (λ u. IsRenamed names.old.order.items names.new.order.items
        (tree t.now) (tree u)) }
{
    match t {
        Term::Var(v) => number_variable(*v, names),
        Term::App(f, args) => {
            let mut built = Vec::with_capacity(alloc, args.items.len())?;
            for arg in &args.items {
                built.push(number_variables(alloc, arg, names)?)?;
            }
            Ok(Term::App(*f, Args { items: built }))
        }
    }
}
