//! Bindings that make two terms equal.
ghost use Rattle.std.specs.Prelude.{◌≡◌, ◌<◌, ℕ, IsTrue, Some, IfOk, IfSome};
ghost use Rattle.std.specs.Option.{option_map};
ghost use Rattle.trs_defs.specs.Tree.{Tree};
ghost use Rattle.trs_defs.specs.Unifier.{IsMostGeneralUnifier};
ghost use Rattle.trs_core.specs.SystemLimits.{HasSmallVariables};
ghost use Rattle.trs_core.specs.View.{tree};
ghost use Rattle.loop_find.specs.Bindings.{term_for, resolved, IsFree, Adds, Binds};

use std::alloc::Global;
use trs_core::{MOST_VARIABLES, OutOfMemory, Term};

/// The most bindings. A look-up goes through all of them.
const MOST_BINDINGS: usize = 64;

/// A variable, and what stands for it.
#[derive(Clone, Copy)]
pub(crate) struct Binding<'a> {
    pub variable: u32,
    pub term: &'a Term,
}

/// Bindings that make a part of a closure and a rule's left side, renamed apart, equal, if they are
/// found at once: such that going through them twice gives a most general unifier. `None` says
/// nothing.
pub(crate) fn quick_bindings<'a>(
    alloc: Global,
    part: &'a Term,
    pattern: &'a Term,
) -> Result<Option<Vec<Binding<'a>>>, OutOfMemory>
    requires { HasSmallVariables (tree part.now) }
    ensures { IfOk result (λ found. IfSome found (λ bindings.
        IsMostGeneralUnifier (tree part.now) (tree pattern.now) (resolved bindings.items 2))) }
{
    let mut found = Vec::new(alloc);
    if !bind(part, pattern, &mut found)? {
        return Ok(None);
    }
    if !are_settled(&found) {
        return Ok(None);
    }
    Ok(Some(found))
}

/// Adds the bindings that make a part and a pattern equal. `false` says nothing.
fn bind<'a>(
    part: &'a Term,
    pattern: &'a Term,
    found: &mut Vec<Binding<'a>>,
) -> Result<bool, OutOfMemory>
    requires { HasSmallVariables (tree part.now) }
    ensures { IfOk result
        (Binds (tree part.now) (tree pattern.now) found.old.items found.new.items) }
{
    match (part, pattern) {
        (_, Term::Var(x)) => add_binding(*x, part, found),
        (Term::Var(y), Term::App(_, _)) => add_binding(*y, pattern, found),
        (Term::App(f, ts), Term::App(g, ps)) => {
            if *f != *g || ts.items.len() != ps.items.len() {
                return Ok(false);
            }
            for (i, t) in ts.items.iter().enumerate() {
                if !bind(t, &ps.items[i], found)? {
                    return Ok(false);
                }
            }
            Ok(true)
        }
    }
}

/// Binds a variable, or sees whether it is bound to the same term. `false` says nothing.
fn add_binding<'a>(
    v: u32,
    term: &'a Term,
    found: &mut Vec<Binding<'a>>,
) -> Result<bool, OutOfMemory>
    ensures { IfOk result (Adds v (tree term.now) found.old.items found.new.items) }
{
    if let Some(earlier) = bound_term(found, v) {
        return Ok(earlier.same(term));
    }
    if found.len() >= MOST_BINDINGS {
        return Ok(false);
    }
    found.push(Binding { variable: v, term })?;
    Ok(true)
}

/// What stands for a variable.
pub(crate) fn bound_term<'a>(found: &[Binding<'a>], v: u32) -> Option<&'a Term>
    ensures { option_map (λ t. tree t.now) result ≡ term_for found.now v }
{
    for binding in found {
        if binding.variable == v {
            return Some(binding.term);
        }
    }
    None
}

/// Whether nothing stands for a variable of a term that stands for a variable of the closure.
fn are_settled(found: &[Binding]) -> bool
    ensures { IsTrue result → (v : ℕ) (t : Tree) → term_for found.now v ≡ Some t → v < 65536
        → IsFree found.now t }
{
    for binding in found {
        if !is_settled(found, binding) {
            return false;
        }
    }
    true
}

fn is_settled(found: &[Binding], binding: &Binding) -> bool
    ensures { IsTrue result → binding.now.variable < 65536
        → IsFree found.now (tree binding.now.term.now) }
{
    if binding.variable >= MOST_VARIABLES {
        return true;
    }
    is_free(found, binding.term)
}

/// Whether nothing stands for a variable of the term.
fn is_free(found: &[Binding], t: &Term) -> bool
    ensures { IsTrue result → IsFree found.now (tree t.now) }
{
    match t {
        Term::Var(v) => bound_term(found, *v).is_none(),
        Term::App(_, args) => {
            for arg in &args.items {
                if !is_free(found, arg) {
                    return false;
                }
            }
            true
        }
    }
}
