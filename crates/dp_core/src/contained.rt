//! How a term stands in another one.
ghost use Rattle.std.specs.Prelude.{◌≡◌, ◌↔◌, ℕ, min, IsTrue, Some, None};
ghost use Rattle.trs_defs.specs.Size.{size_of};
ghost use Rattle.trs_core.specs.View.{tree};
ghost use Rattle.pair_theory.specs.Subterm.{Sub};
ghost use Rattle.dp_core.specs.Containment.{IsContainment};

use trs_core::Term;

/// How a term stands in another one.
#[derive(Clone, Copy, Debug, PartialEq, Eq)]
pub enum Containment {
    /// It is the other one.
    Equal,
    /// It is a proper subterm.
    Proper,
    /// It is no subterm.
    Missing,
}

/// How the second term stands in the first one. It costs as much as both terms have nodes, since only
/// subterms of the right size are compared.
pub fn containment_in(s: &Term, t: &Term) -> Containment
    ensures { IsContainment (tree s.now) (tree t.now) result }
{
    if s.same(t) {
        return Containment::Equal;
    }
    match s {
        Term::Var(_) => Containment::Missing,
        Term::App(_, _) => match size_unless_found(s, t, t.size()) {
            None => Containment::Proper,
            Some(_) => Containment::Missing,
        },
    }
}

/// Nothing where the second term is the first one or stands in it, and else the number of nodes of
/// the first one.
fn size_unless_found(s: &Term, t: &Term, size: u64) -> Option<u64>
    requires { size ≡ min (size_of (tree t.now)) u64.MAX }
    ensures found { result ≡ None → Sub (tree t.now) (tree s.now) }
    ensures size { (n : ℕ) → result ≡ Some n → n ≡ min (size_of (tree s.now)) u64.MAX }
    ensures absent { (n : ℕ) → result ≡ Some n → Sub (tree t.now) (tree s.now) → ⊥ }
{
    match s {
        Term::Var(_) => none_if(s.same(t), 1),
        Term::App(_, args) => {
            let mut total: u64 = 1;
            for arg in &args.items {
                let Some(part) = size_unless_found(arg, t, size) else {
                    return None;
                };
                total = total.saturating_add(part);
            }
            none_if(is_same(s, total, t, size), total)
        }
    }
}

/// Whether the terms are equal, where their sizes are known.
fn is_same(s: &Term, total: u64, t: &Term, size: u64) -> bool
    requires total { total ≡ min (size_of (tree s.now)) u64.MAX }
    requires size { size ≡ min (size_of (tree t.now)) u64.MAX }
    ensures { IsTrue result ↔ (tree s.now ≡ tree t.now) }
{
    if total != size {
        return false;
    }
    s.same(t)
}

fn none_if(found: bool, size: u64) -> Option<u64>
    ensures found { result ≡ None → IsTrue found }
    ensures size { (n : ℕ) → result ≡ Some n → n ≡ size }
    ensures absent { (n : ℕ) → result ≡ Some n → IsTrue found → ⊥ }
{
    if found { None } else { Some(size) }
}
