ghost use Rattle.std.specs.Prelude.{◌≡◌, ◌↔◌, IsTrue};
ghost use Rattle.confluence_theory.specs.RanksFit.{RanksFit};
ghost use Rattle.confluence_theory.specs.RuleRanks.{rank_of as rank_of_rule};
ghost use Rattle.rule_label.specs.Labelled.{ranks_along};
ghost use Rattle.rule_label.specs.FittingRanks.{IsNext};

use rewrite_core::PathStep;

/// Whether the ranks of the rules along a path are ranks below `a`, then at most one rank `b`, and
/// then ranks below `a` or below `b`. It takes no memory.
pub(crate) fn ranks_fit(ranks: &[u64], a: u64, b: u64, path: &[PathStep]) -> bool
    ensures { IsTrue result ↔ RanksFit a b (ranks_along ranks.now path.now) }
{
    let mut ended = false;
    for step in path {
        let Some(next) = after_rank(ended, a, b, rank_of(ranks, step.rule)) else {
            return false;
        };
        ended = next;
    }
    true
}

/// The rank of a rule, 0 past the end of the list.
pub(crate) fn rank_of(ranks: &[u64], rule: u32) -> u64
    ensures { result ≡ rank_of_rule ranks.now rule }
{
    ranks.get(rule as usize).copied().unwrap_or(0)
}

/// Whether the run of ranks below `a` has ended after one more rank. `None` where that does not
/// fit.
pub fn after_rank(ended: bool, a: u64, b: u64, rank: u64) -> Option<bool>
    ensures { IsNext ended a b rank result }
{
    if rank < a {
        return Some(ended);
    }
    if rank < b {
        return Some(true);
    }
    if rank == b && !ended {
        return Some(true);
    }
    None
}
