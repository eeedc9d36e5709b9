ghost use Rattle.std.specs.Prelude.{◌≡◌, false};
ghost use Rattle.trs_core.specs.View.{tree};
ghost use Rattle.trs_defs.specs.Substitution.{IsInstance};
ghost use Rattle.term_pool.specs.Redex.{IsRedex, HasRedex};

use term_pool::RulesByRoot;
use trs_core::Term;

/// Whether the term may have a redex: a subterm that has all symbols of a left side. After so many
/// comparisons of nodes it may. It takes no memory.
pub(crate) fn may_have_redex(by_root: &RulesByRoot, t: &Term, comparisons: &mut u32) -> bool
    ensures { result ≡ false → HasRedex by_root.now.rules (tree t.now) → ⊥ }
{
    if may_be_redex(by_root, t, comparisons) {
        return true;
    }
    match t {
        Term::Var(_) => false,
        Term::App(_, args) => {
            for arg in &args.items {
                if may_have_redex(by_root, arg, comparisons) {
                    return true;
                }
            }
            false
        }
    }
}

/// Whether the term may be an instance of the left side of a rule.
fn may_be_redex(by_root: &RulesByRoot, t: &Term, comparisons: &mut u32) -> bool
    ensures { result ≡ false → IsRedex by_root.now.rules (tree t.now) → ⊥ }
{
    let rules = by_root.rules();
    let Term::App(f, _) = t else {
        return false;
    };
    for k in by_root.with_root(*f) {
        let rule = &rules[*k as usize];
        if may_match(&rule.left, t, comparisons) {
            return true;
        }
    }
    false
}

/// Whether the term has the pattern's symbols, where the pattern has symbols.
fn may_match(pattern: &Term, t: &Term, comparisons: &mut u32) -> bool
    ensures { result ≡ false → IsInstance (tree pattern.now) (tree t.now) → ⊥ }
{
    if *comparisons == 0 {
        return true;
    }
    *comparisons -= 1;
    match (pattern, t) {
        (Term::Var(_), _) => true,
        (Term::App(_, _), Term::Var(_)) => false,
        (Term::App(f, ps), Term::App(g, ts)) => {
            if *f != *g || ps.items.len() != ts.items.len() {
                return false;
            }
            for (i, p) in ps.items.iter().enumerate() {
                if !may_match(p, &ts.items[i], comparisons) {
                    return false;
                }
            }
            true
        }
    }
}
