//! Ranks along paths that fit.
ghost use Rattle.std.specs.Prelude.{◌≡◌, false, map};
ghost use Rattle.confluence_theory.specs.RuleRanks.{rank_of as rank_of_rule};
ghost use Rattle.label_find.specs.Constraint.{fit_after};

use rule_label::after_rank;

/// Whether the ranks of these rules are ranks below `a`, then at most one rank `b`, and then ranks
/// below `a` or below `b`. It takes no memory.
pub(crate) fn ranks_fit(ranks: &[u32], a: u32, b: u32, rules: &[u32]) -> bool
    ensures { result ≡ fit_after false a b (map (rank_of_rule ranks.now) rules.now) }
{
    let first = u64::from(a);
    let second = u64::from(b);
    let mut ended = false;
    for rule in rules {
        let rank = u64::from(rank_of(ranks, *rule));
        let Some(next) = after_rank(ended, first, second, rank) else {
            return false;
        };
        ended = next;
    }
    true
}

/// The rank of a rule, 0 past the end of the list.
pub(crate) fn rank_of(ranks: &[u32], rule: u32) -> u32
    ensures { result ≡ rank_of_rule ranks.now rule }
{
    ranks.get(rule as usize).copied().unwrap_or(0)
}
