ghost use Rattle.std.specs.Prelude.{◌≤◌, ◌↔◌, IsTrue};
ghost use Rattle.trs_defs.specs.Size.{depth_of};
ghost use Rattle.completion.specs.Orienting.{Fits};

use crate::growing::GrowingTrs;
use trs_core::Rule;

/// The deepest side of a new rule, so that the system can be printed.
const DEEPEST: u64 = 256;

/// Whether a new rule may come behind those of a system.
pub(crate) fn fits(system: &GrowingTrs, rule: &Rule) -> bool
    ensures { IsTrue result ↔ Fits system.now.arities system.now.rules rule.now }
{
    system.has_room(rule) && is_shallow(rule)
}

/// Whether both sides of a rule can be printed.
fn is_shallow(rule: &Rule) -> bool
    ensures shallow { IsTrue result
        ↔ ((depth_of rule.now.left ≤ 256) × (depth_of rule.now.right ≤ 256)) }
{
    rule.left.depth() <= DEEPEST && rule.right.depth() <= DEEPEST
}
