ghost use Rattle.std.specs.Prelude.{◌≡◌, IsTrue};
ghost use Rattle.trs_core.specs.View.{tree};

use trs_core::Term;

/// Whether two terms are equal, as far as there is room for so many nodes more.
#[tactic(auto, using(crate::proofs::Equality::next_equal, crate::proofs::Equality::all_equal, crate::proofs::Equality::equal_terms))]
pub(crate) fn are_equal(a: &Term, b: &Term, room: &mut u64) -> bool
    ensures { IsTrue result → tree a.now ≡ tree b.now }
{
    match (a, b) {
        (Term::Var(x), Term::Var(y)) => *x == *y,
        (Term::App(f, fs), Term::App(g, gs)) => {
            if *f != *g || fs.items.len() != gs.items.len() || *room == 0 {
                return false;
            }
            *room -= 1;
            for (i, x) in fs.items.iter().enumerate() {
                let y = &gs.items[i];
                if !are_one_leaf(x, y) && !are_equal(x, y, room) {
                    return false;
                }
            }
            true
        }
        _ => false,
    }
}

/// Whether two terms are the same variable, or the same constant.
#[inline(always)]
fn are_one_leaf(a: &Term, b: &Term) -> bool
    ensures { IsTrue result → tree a.now ≡ tree b.now }
{
    match (a, b) {
        (Term::Var(x), Term::Var(y)) => *x == *y,
        (Term::App(f, fs), Term::App(g, gs)) => {
            *f == *g && fs.items.is_empty() && gs.items.is_empty()
        }
        _ => false,
    }
}
