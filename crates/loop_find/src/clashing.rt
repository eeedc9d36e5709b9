ghost use Rattle.std.specs.Prelude.{◌≡◌, ℕ, IsTrue};
ghost use Rattle.trs_defs.specs.Tree.{Tree};
ghost use Rattle.trs_defs.specs.Substitution.{apply};
ghost use Rattle.trs_core.specs.View.{tree};

use trs_core::Term;

/// Whether two terms have different symbols at a position of both. Then no instances of them are
/// equal. It takes no memory.
pub(crate) fn clash(a: &Term, b: &Term) -> bool
    ensures { IsTrue result → (σ τ : ℕ → Tree)
        → apply σ (tree a.now) ≡ apply τ (tree b.now) → ⊥ }
{
    match (a, b) {
        (Term::Var(_), _) => false,
        (_, Term::Var(_)) => false,
        (Term::App(f, fs), Term::App(g, gs)) => {
            if *f != *g || fs.items.len() != gs.items.len() {
                return true;
            }
            for (i, x) in fs.items.iter().enumerate() {
                if clash(x, &gs.items[i]) {
                    return true;
                }
            }
            false
        }
    }
}
