//! Whether a system is one within the limits, by one walk over each side. It passes those where the
//! variables of each rule are numbered in order of first occurrence, as a text's are.
ghost use Rattle.std.specs.Prelude.{◌≡◌, ◌≤◌, ℕ, ◌+◌, ◌||◌, ◌==◌, nat_lt, IsTrue};
ghost use Rattle.trs_defs.specs.Size.{size_of, depth_of};
ghost use Rattle.trs_defs.specs.Variable.{has_var};
ghost use Rattle.trs_defs.specs.WellFormed.{IsWellFormed};
ghost use Rattle.trs_core.specs.SystemLimits.{IsShallow};
ghost use Rattle.trs_core.specs.RuleChecks.{IsFaultless};
ghost use Rattle.trs_core.specs.Valid.{system, IsValid};
ghost use Rattle.trs_core.specs.View.{tree};

use crate::checking::{has_arity, is_variable};
use crate::{GREATEST_DEPTH, MOST_NODES, MOST_RULES, MOST_SYMBOLS, MOST_VARIABLES, Rule, Term};

/// Whether all checks pass by one walk over each side. Where not, they may still pass one by one.
pub(crate) fn are_plain(arities: &[u8], rules: &[Rule]) -> bool
    ensures { IsTrue result → IsValid (system arities.now rules.now) }
{
    if arities.len() > MOST_SYMBOLS || rules.len() > MOST_RULES {
        return false;
    }
    let mut nodes = MOST_NODES;
    for rule in rules {
        if !is_plain_rule(arities, rule, &mut nodes) {
            return false;
        }
    }
    true
}

/// The nodes are those that the rules may still have. Those of this rule are taken from them.
fn is_plain_rule(arities: &[u8], rule: &Rule, nodes: &mut u64) -> bool
    ensures faultless { IsTrue result → IsFaultless arities.now rule.now }
    ensures shallow { IsTrue result → IsShallow rule.now }
    ensures nodes { IsTrue result
        → nodes.new + size_of rule.now.left + size_of rule.now.right ≡ nodes.old }
{
    if is_variable(&rule.left) {
        return false;
    }
    let mut tally = Tally {
        nodes: *nodes,
        variables: 0,
    };
    if !is_plain(&rule.left, arities, GREATEST_DEPTH, &mut tally) {
        return false;
    }
    let variables = tally.variables;
    if !is_plain(&rule.right, arities, GREATEST_DEPTH, &mut tally) {
        return false;
    }
    *nodes = tally.nodes;
    tally.variables == variables
}

/// What is counted on a walk.
#[derive(Drop)]
struct Tally {
    /// How many more nodes there may be.
    nodes: u64,
    /// So many variables were met, the first ones.
    variables: u32,
}

/// Whether a term is well-formed, of at most this depth, with no more nodes than there may be, and
/// with variables that are met in order.
fn is_plain(t: &Term, arities: &[u8], depth: u64, tally: &mut Tally) -> bool
    ensures well_formed { IsTrue result → IsWellFormed arities.now (tree t.now) }
    ensures depth { IsTrue result → depth_of (tree t.now) ≤ depth }
    ensures nodes { IsTrue result → tally.new.nodes + size_of (tree t.now) ≡ tally.old.nodes }
    ensures variables { IsTrue result → (v : ℕ)
        → nat_lt v tally.new.variables ≡ (nat_lt v tally.old.variables || has_var v (tree t.now)) }
    ensures small { tally.old.variables ≤ MOST_VARIABLES → tally.new.variables ≤ MOST_VARIABLES }
{
    if depth == 0 || tally.nodes == 0 {
        return false;
    }
    tally.nodes -= 1;
    match t {
        Term::Var(v) => meet(*v, &mut tally.variables),
        Term::App(f, args) => {
            if !has_arity(arities, *f, args) {
                return false;
            }
            for arg in &args.items {
                if !is_plain(arg, arities, depth - 1, tally) {
                    return false;
                }
            }
            true
        }
    }
}

/// Counts a variable, if it is the next one. The answer is whether it is that or was met before.
fn meet(v: u32, variables: &mut u32) -> bool
    ensures variables { IsTrue result → (x : ℕ)
        → nat_lt x variables.new ≡ (nat_lt x variables.old || v == x) }
    ensures small { variables.old ≤ MOST_VARIABLES → variables.new ≤ MOST_VARIABLES }
{
    if v < *variables {
        return true;
    }
    if v != *variables || v >= MOST_VARIABLES {
        return false;
    }
    *variables = v + 1;
    true
}
