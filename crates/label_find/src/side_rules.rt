//! The rules along the paths from a side of peaks.
ghost use Rattle.std.specs.Prelude.{◌≡◌, ◌<◌, Some, IfOk, length, slice_get};
ghost use Rattle.label_find.specs.RuleList.{AreShort};
ghost use Rattle.label_find.specs.SideRules.{IsSideOf};

use crate::grouping::group;
use crate::groups::Groups;
use crate::used::used_rules;
use rewrite_core::PathStep;
use std::alloc::Global;
use trs_core::OutOfMemory;

/// The lists of rules along the paths from a side, by the ends of the paths, and all rules of the
/// paths.
#[derive(Drop)]
pub(crate) struct SideRules {
    pub(crate) groups: Groups,
    pub(crate) used: Vec<u32>,
}

impl SideRules {
    /// Of the paths from a side, with the ids of their ends.
    pub(crate) fn new(
        alloc: Global,
        entries: &[(u32, Vec<PathStep>)],
    ) -> Result<SideRules, OutOfMemory>
        requires { AreShort entries.now }
        ensures { IfOk result (IsSideOf entries.now) }
    {
        let groups = group(alloc, entries)?;
        let used = used_rules(alloc, entries)?;
        Ok(SideRules { groups, used })
    }
}

/// The side of this number in a table.
pub(crate) fn side_at(sides: &[SideRules], number: usize) -> &SideRules
    requires { number < length sides.now }
    ensures { slice_get sides.now number ≡ Some result.now }
{
    &sides[number]
}
