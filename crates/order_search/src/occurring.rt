//! Whether a symbol stands in a term.
ghost use Rattle.std.specs.Prelude.{◌≡◌, ◌||◌};
ghost use Rattle.trs_core.specs.View.{tree};
ghost use Rattle.order_search.specs.OrderSpace.{occurs_in};

use crate::LentRule;
use trs_core::Term;

/// Whether the symbol stands in a term.
pub fn occurs(f: u32, t: &Term) -> bool
    ensures { result ≡ occurs_in f (tree t.now) }
{
    match t {
        Term::Var(_) => false,
        Term::App(g, args) => {
            if *g == f {
                return true;
            }
            for arg in &args.items {
                if occurs(f, arg) {
                    return true;
                }
            }
            false
        }
    }
}

/// Whether the symbol stands in a side of a rule.
pub fn occurs_in_rule(f: u32, rule: &LentRule) -> bool
    ensures { result ≡ (occurs_in f rule.now.left || occurs_in f rule.now.right) }
{
    occurs(f, rule.left) || occurs(f, rule.right)
}
