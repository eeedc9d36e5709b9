ghost use Rattle.std.specs.Prelude.{◌≡◌, ◌↔◌, ℕ, Some, length, slice_get, IsTrue, IfOk, IfErr};
ghost use Rattle.trs_defs.specs.Variable.{IsVariable};
ghost use Rattle.trs_defs.specs.WellFormed.{IsWellFormed};
ghost use Rattle.trs_core.specs.SystemLimits.{HasSmallVariables};
ghost use Rattle.trs_core.specs.RuleChecks.{IsFaultless, IsFirstRuleFault};
ghost use Rattle.trs_core.specs.View.{tree};

use crate::extra::extra_variable;
use crate::{Args, MOST_VARIABLES, Rule, Term, TrsFault};
use std::alloc::Global;

/// Whether each symbol is declared, and has as many arguments as the table says.
fn is_well_formed(t: &Term, arities: &[u8]) -> bool
    ensures { IsTrue result ↔ IsWellFormed arities.now (tree t.now) }
{
    match t {
        Term::Var(_) => true,
        Term::App(f, args) => {
            if !has_arity(arities, *f, args) {
                return false;
            }
            for arg in &args.items {
                if !is_well_formed(arg, arities) {
                    return false;
                }
            }
            true
        }
    }
}

/// Whether the symbol is declared with so many arguments.
pub(crate) fn has_arity(arities: &[u8], f: u32, args: &Args) -> bool
    ensures { IsTrue result ↔ (slice_get arities.now f ≡ Some (length args.now)) }
{
    match arities.get(f as usize) {
        None => false,
        Some(arity) => usize::from(*arity) == args.len(),
    }
}

fn has_small_variables(t: &Term) -> bool
    ensures { IsTrue result ↔ HasSmallVariables (tree t.now) }
{
    match t {
        Term::Var(v) => *v < MOST_VARIABLES,
        Term::App(_, args) => {
            for arg in &args.items {
                if !has_small_variables(arg) {
                    return false;
                }
            }
            true
        }
    }
}

pub(crate) fn is_variable(t: &Term) -> bool
    ensures { IsTrue result ↔ IsVariable (tree t.now) }
{
    matches!(t, Term::Var(_))
}

/// Looks for the first fault of a rule, number `i`.
pub(crate) fn check_rule(alloc: Global, arities: &[u8], rule: &Rule, i: u32) -> Result<(), TrsFault>
    ensures faultless { IfOk result (λ _. IsFaultless arities.now rule.now) }
    ensures fault { IfErr result (IsFirstRuleFault arities.now rule.now i) }
{
    if is_variable(&rule.left) {
        return Err(TrsFault::LeftIsVariable(i));
    }
    if let Some(v) = extra_variable(alloc, rule)? {
        return Err(TrsFault::ExtraVariable(i, v));
    }
    if !is_well_formed(&rule.left, arities) || !is_well_formed(&rule.right, arities) {
        return Err(TrsFault::WrongArity(i));
    }
    if !has_small_variables(&rule.left) || !has_small_variables(&rule.right) {
        return Err(TrsFault::BadVariable(i));
    }
    Ok(())
}
