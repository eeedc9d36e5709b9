ghost use Rattle.std.specs.Prelude.{◌≡◌, ◌<◌, ◌↔◌, ℕ, false, List, All, IsTrue, IfOk};
ghost use Rattle.trs_core.specs.View.{tree};
ghost use Rattle.trs_defs.specs.Substitution.{IsInstance};
ghost use Rattle.term_pool.specs.Redexes.{IsNarrow};
ghost use Rattle.loop_find.specs.Instances.{Leads};
ghost use Rattle.loop_find.specs.LoopRow.{Recurs};

use std::alloc::Global;
use trs_core::{OutOfMemory, Term, match_term};

/// Goes on, from the place of a term, to the first instance of the pattern in it, in preorder.
/// `false` where there is none.
pub(crate) fn first_instance(
    alloc: Global,
    pattern: &Term,
    t: &Term,
    place: &mut Vec<u8>,
) -> Result<bool, OutOfMemory>
    requires narrow { IsNarrow (tree t.now) }
    requires positive { All (λ n. 0 < n) place.old.items }
    ensures leads { IfOk result
        (Leads (tree pattern.now) (tree t.now) place.old.items place.new.items) }
    ensures positive { IfOk result (λ _. All (λ n. 0 < n) place.new.items) }
{
    if is_instance(alloc, pattern, t)? {
        return Ok(true);
    }
    match t {
        Term::Var(_) => Ok(false),
        Term::App(_, args) => {
            for (i, arg) in args.items.iter().enumerate() {
                place.push(i as u8 + 1)?;
                if first_instance(alloc, pattern, arg, place)? {
                    return Ok(true);
                }
                place.pop();
            }
            Ok(false)
        }
    }
}

/// Whether the term is an instance of the pattern.
fn is_instance(alloc: Global, pattern: &Term, t: &Term) -> Result<bool, OutOfMemory>
    ensures { IfOk result (λ yes. IsTrue yes ↔ IsInstance (tree pattern.now) (tree t.now)) }
{
    if !may_match(pattern, t) {
        return Ok(false);
    }
    Ok(match_term(alloc, pattern, t)?.is_some())
}

/// Whether an instance of the pattern may stand in the term. It takes no memory, and where no
/// variable occurs twice in the pattern, it is `true` only where one does.
pub(crate) fn may_hold(pattern: &Term, t: &Term) -> bool
    ensures { result ≡ false → (q : List ℕ) → Recurs (tree pattern.now) (tree t.now) q → ⊥ }
{
    if may_match(pattern, t) {
        return true;
    }
    match t {
        Term::Var(_) => false,
        Term::App(_, args) => {
            for arg in &args.items {
                if may_hold(pattern, arg) {
                    return true;
                }
            }
            false
        }
    }
}

/// Whether the term may be an instance of the pattern: it has the pattern's symbols.
fn may_match(pattern: &Term, t: &Term) -> bool
    ensures { result ≡ false → IsInstance (tree pattern.now) (tree t.now) → ⊥ }
{
    match (pattern, t) {
        (Term::Var(_), _) => true,
        (Term::App(_, _), Term::Var(_)) => false,
        (Term::App(f, ps), Term::App(g, ts)) => {
            if *f != *g || ps.items.len() != ts.items.len() {
                return false;
            }
            for (i, p) in ps.items.iter().enumerate() {
                if !may_match(p, &ts.items[i]) {
                    return false;
                }
            }
            true
        }
    }
}
