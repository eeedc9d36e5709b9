ghost use Rattle.std.specs.Prelude.{◌≡◌, ◌↔◌, min, All, IsTrue};
ghost use Rattle.trs_core.specs.SystemLimits.{nodes_of, IsShallow, IsWithinLimits};
ghost use Rattle.trs_core.specs.Valid.{system};

use crate::Rule;

/// The most symbols of a system.
pub const MOST_SYMBOLS: usize = 4_095;

/// The most rules of a system.
pub const MOST_RULES: usize = 4_095;

/// The most nodes of a computed term, and of all sides of a system together.
pub const MOST_NODES: u64 = 65_536;

/// The greatest depth of a computed term and of a side, in nodes.
pub const GREATEST_DEPTH: u64 = 1_024;

/// The most variables of a rule: their numbers are below this one.
pub const MOST_VARIABLES: u32 = 65_536;

/// The greatest coefficient, weight, rank and number in a certificate, 2^63 - 1.
pub const GREATEST_NUMBER: u64 = 9_223_372_036_854_775_807;

/// Whether an arity table and rules keep the limits on systems.
pub(crate) fn are_within_limits(arities: &[u8], rules: &[Rule]) -> bool
    ensures { IsTrue result ↔ IsWithinLimits (system arities.now rules.now) }
{
    arities.len() <= MOST_SYMBOLS
        && rules.len() <= MOST_RULES
        && total_nodes(rules) <= MOST_NODES
        && are_shallow(rules)
}

/// The nodes of all sides. It stands still at the last `u64`.
pub fn total_nodes(rules: &[Rule]) -> u64
    ensures { result ≡ min (nodes_of rules.now) u64.MAX }
{
    let mut total: u64 = 0;
    for rule in rules {
        total = total
            .saturating_add(rule.left.size())
            .saturating_add(rule.right.size());
    }
    total
}

fn are_shallow(rules: &[Rule]) -> bool
    ensures { IsTrue result ↔ All IsShallow rules.now }
{
    for rule in rules {
        if !is_shallow(rule) {
            return false;
        }
    }
    true
}

fn is_shallow(rule: &Rule) -> bool
    ensures { IsTrue result ↔ IsShallow rule.now }
{
    rule.left.depth() <= GREATEST_DEPTH && rule.right.depth() <= GREATEST_DEPTH
}
