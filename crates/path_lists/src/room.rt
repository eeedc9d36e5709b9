//! How large the ends of paths may be.
ghost use Rattle.std.specs.Prelude.{◌≡◌, ◌≤◌, ◌⊎◌, ◌+◌, ℕ, List, IsTrue};
ghost use Rattle.trs_defs.specs.Tree.{Tree};
ghost use Rattle.trs_defs.specs.Size.{size_of};
ghost use Rattle.trs_defs.specs.Path.{StepsAt, Follows};
ghost use Rattle.path_lists.specs.Growth.{GrowsBy, IsGrowthOf};

use term_pool::PathStep;
use trs_core::{Rule, Trs};

const MOST_NODES: u64 = 4_096;

/// The most nodes of the term from which paths start, by how many nodes a step by any rule makes a
/// term larger at most, and whether all ends are small by these alone.
#[derive(Clone, Copy)]
pub(crate) struct Room {
    pub(crate) start: u64,
    pub(crate) growth: u64,
    pub(crate) is_sure: bool,
}

impl Room {
    /// Whether one more step, by this rule, leads from the end of a path to a term of at most 4,096
    /// nodes, as the right sides of the rules tell.
    pub(crate) fn suffices(self, trs: &Trs, path: &[PathStep], rule: u32) -> bool
        requires { GrowsBy trs.now.rules self.growth }
        ensures { IsTrue result → (s t u : Tree) (p : List ℕ) → size_of s ≤ self.start
            → Follows trs.now.rules path.now s t → StepsAt trs.now.rules p rule t u
            → size_of u ≤ 4096 }
    {
        let most = self.most_nodes(trs, path);
        let more = growth_by(trs, rule, self.growth);
        most.saturating_add(more) <= MOST_NODES
    }

    /// A number of nodes that the end of a path does not pass, if it is at most 4,096.
    fn most_nodes(self, trs: &Trs, path: &[PathStep]) -> u64
        requires { GrowsBy trs.now.rules self.growth }
        ensures { result ≤ 4096 → (s t : Tree) → size_of s ≤ self.start
            → Follows trs.now.rules path.now s t → size_of t ≤ result }
    {
        let mut most = self.start;
        for step in path {
            let more = growth_by(trs, step.rule, self.growth);
            most = most.saturating_add(more);
        }
        most
    }
}

/// By how many nodes a step by this rule makes a term larger at most.
fn growth_by(trs: &Trs, k: u32, growth: u64) -> u64
    requires { GrowsBy trs.now.rules growth }
    ensures { (p : List ℕ) (t u : Tree) → StepsAt trs.now.rules p k t u
        → size_of u ≤ size_of t + result }
{
    match trs.rules().get(k as usize) {
        Some(rule) => growth_of_rule(rule, growth),
        None => growth,
    }
}

/// The nodes of the right side, if that is linear, or else this growth.
fn growth_of_rule(rule: &Rule, growth: u64) -> u64
    ensures { IsGrowthOf rule.now growth result }
{
    if rule.right.is_linear() {
        rule.right.size()
    } else {
        growth
    }
}
