ghost use Rattle.std.specs.Prelude.{◌≡◌, ◌↔◌, [], false, IsTrue};
ghost use Rattle.trs_defs.specs.System.{is_defined};
ghost use Rattle.trs_core.specs.View.{tree};
ghost use Rattle.dp_core.specs.PlacedPairs.{defined_places};

use term_pool::RulesByRoot;
use trs_core::Term;

/// Whether the symbol is the root of a left side. It looks at one entry of a table.
pub(crate) fn is_defined(by_root: &RulesByRoot, f: u32) -> bool
    ensures { result ≡ is_defined by_root.now.rules f }
{
    !by_root.with_root(f).is_empty()
}

/// Whether a subterm has a defined root.
pub fn has_defined(by_root: &RulesByRoot, t: &Term) -> bool
    ensures { (result ≡ false) ↔ (defined_places by_root.now.rules (tree t.now) ≡ []) }
{
    match t {
        Term::Var(_) => false,
        Term::App(f, args) => {
            if is_defined(by_root, *f) {
                return true;
            }
            for arg in &args.items {
                if is_undefined_leaf(by_root, arg) {
                    continue;
                }
                if has_defined(by_root, arg) {
                    return true;
                }
            }
            false
        }
    }
}

/// Whether a term is a variable, or a constant that is not defined.
pub(crate) fn is_undefined_leaf(by_root: &RulesByRoot, t: &Term) -> bool
    ensures { IsTrue result → defined_places by_root.now.rules (tree t.now) ≡ [] }
{
    match t {
        Term::Var(_) => true,
        Term::App(f, args) => args.items.is_empty() && !is_defined(by_root, *f),
    }
}
