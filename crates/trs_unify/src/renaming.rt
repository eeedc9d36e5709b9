ghost use Rattle.std.specs.Prelude.{◌≡◌, IfOk};
ghost use Rattle.trs_defs.specs.Renaming.{shifted};
ghost use Rattle.trs_core.specs.View.{tree};
ghost use Rattle.trs_unify.specs.Room.{HasRoom};

use std::alloc::Global;
use trs_core::{Args, OutOfMemory, Term};

/// The term with `by` more on each variable.
#[tactic(auto, using(trs_core::proofs::Lookups::apply_all_forest))]
pub fn rename_apart(alloc: Global, t: &Term, by: u32) -> Result<Term, OutOfMemory>
    requires { HasRoom by (tree t.now) }
    ensures { IfOk result (λ u. tree u ≡ shifted by (tree t.now)) }
{
    match t {
        Term::Var(v) => Ok(Term::Var(by + *v)),
        Term::App(f, args) => {
            let mut renamed = Vec::with_capacity(alloc, args.items.len())?;
            for arg in &args.items {
                renamed.push(rename_apart(alloc, arg, by)?)?;
            }
            Ok(Term::App(*f, Args { items: renamed }))
        }
    }
}
