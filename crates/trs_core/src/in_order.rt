//! Variables that are numbered in the order in which they stand, each once: those of most left sides.
ghost use Rattle.std.specs.Prelude.{◌≡◌, Err, OnOk};
ghost use Rattle.trs_defs.specs.Tree.{var};
ghost use Rattle.trs_core.specs.InOrder.{MeetsNext, MeetsAgain};
ghost use Rattle.trs_core.specs.View.{tree};

use crate::Term;

/// Why a variable is not the next one.
#[derive(Clone, Copy, Debug, PartialEq, Eq)]
pub(crate) enum Disorder {
    /// It was met before.
    Twice,
    /// It is numbered otherwise.
    OutOfOrder,
}

/// Counts the variables of a term, where each is the next one.
pub(crate) fn count_in_order(t: &Term, count: &mut u32) -> Result<(), Disorder>
    ensures next { OnOk result (MeetsNext (tree t.now) count.old count.new) }
    ensures twice { result ≡ Err Disorder.Twice → MeetsAgain (tree t.now) count.old }
{
    match t {
        Term::Var(x) => count_variable(*x, count),
        Term::App(_, args) => {
            for arg in &args.items {
                count_in_order(arg, count)?;
            }
            Ok(())
        }
    }
}

fn count_variable(x: u32, count: &mut u32) -> Result<(), Disorder>
    ensures next { OnOk result (MeetsNext (var x) count.old count.new) }
    ensures twice { result ≡ Err Disorder.Twice → MeetsAgain (var x) count.old }
{
    if x < *count {
        return Err(Disorder::Twice);
    }
    if x > *count || x == u32::MAX {
        return Err(Disorder::OutOfOrder);
    }
    *count = x + 1;
    Ok(())
}
