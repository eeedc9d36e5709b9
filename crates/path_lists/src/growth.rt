//! How much a step makes a term larger.
ghost use Rattle.std.specs.Prelude.{◌≡◌, ◌≤◌, ◌+◌, ◌*◌, IsTrue};
ghost use Rattle.trs_defs.specs.Size.{size_of};
ghost use Rattle.path_lists.specs.Growth.{GrowsBy, AreRightLinear};

use trs_core::{Rule, Trs};

const MOST_NODES: u64 = 4_096;

/// The most nodes that a right side has. A step of a system with linear right sides makes a term
/// larger by no more than that.
pub fn growth_of(trs: &Trs) -> u64
    requires linear { AreRightLinear trs.now.rules }
    ensures { GrowsBy trs.now.rules result }
{
    let mut most = 0;
    for rule in trs.rules() {
        let size = right_size(rule);
        most = larger(most, size);
    }
    most
}

fn right_size(rule: &Rule) -> u64
    ensures { size_of rule.now.right ≤ 65536 → result ≡ size_of rule.now.right }
{
    rule.right.size()
}

fn larger(a: u64, b: u64) -> u64
    ensures first { a ≤ result }
    ensures second { b ≤ result }
{
    if a < b { b } else { a }
}

/// Whether a term of this size has at most 4,096 nodes even after four steps that each make it so
/// much larger.
pub(crate) fn stays_small(size: u64, growth: u64) -> bool
    ensures { IsTrue result → size + 4 * growth ≤ 4096 }
{
    size <= MOST_NODES && growth <= MOST_NODES && size + 4 * growth <= MOST_NODES
}
