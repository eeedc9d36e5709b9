ghost use Rattle.std.specs.Prelude.{◌≡◌, ◌≤◌, IfOk};
ghost use Rattle.trs_core.specs.View.{tree};
ghost use Rattle.sampling.specs.Family.{zero_term, successor, function};

use std::alloc::Global;
use trs_core::{Args, OutOfMemory, Term};

/// The term `0`.
pub fn zero(alloc: Global) -> Term
    ensures { tree result ≡ zero_term }
{
    Term::App(0, Args::new(Vec::new(alloc)))
}

/// The successor of a term.
pub fn successor(alloc: Global, term: Term) -> Result<Term, OutOfMemory>
    ensures { IfOk result (λ t. tree t ≡ successor (tree term)) }
{
    let arguments = vec![in alloc; term]?;
    Ok(Term::App(1, Args::new(arguments)))
}

/// The function with a number, of two terms.
pub fn function(alloc: Global, number: u32, first: Term, second: Term) -> Result<Term, OutOfMemory>
    requires { number ≤ 512 }
    ensures { IfOk result (λ t. tree t ≡ function number (tree first) (tree second)) }
{
    let arguments = vec![in alloc; first, second]?;
    Ok(Term::App(number + 2, Args::new(arguments)))
}
