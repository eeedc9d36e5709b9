ghost use Rattle.std.specs.Prelude.{◌≡◌};
ghost use Rattle.trs_defs.specs.LeastVariable.{is_less, better, least_variable};
ghost use Rattle.trs_core.specs.View.{tree};

use crate::Term;

/// The least of the term's variables from a number on, and of the best so far. So all variables are
/// met in their order, by one walk of the term for each, and with no memory.
pub fn least_variable(t: &Term, from: u64, best: Option<u32>) -> Option<u32>
    ensures { result ≡ least_variable from best (tree t.now) }
{
    match t {
        Term::Var(x) => better(from, best, *x),
        Term::App(_, args) => {
            let mut least = best;
            for arg in &args.items {
                least = least_variable(arg, from, least);
            }
            least
        }
    }
}

/// The better one of the best so far and a variable.
pub(crate) fn better(from: u64, best: Option<u32>, x: u32) -> Option<u32>
    ensures { result ≡ better from best x }
{
    if from <= u64::from(x) && is_less(x, best) {
        Some(x)
    } else {
        best
    }
}

fn is_less(x: u32, best: Option<u32>) -> bool
    ensures { result ≡ is_less x best }
{
    match best {
        None => true,
        Some(y) => x < y,
    }
}
