//! The first two terms of two lists that never meet again.
ghost use Rattle.std.specs.Prelude.{MatchOption};
ghost use Rattle.join_find.specs.First.{None_in};
ghost use Rattle.conf_find.specs.Marks.{AreMarkedIds, AreParted};
ghost use Rattle.conf_find.specs.Parted.{IsFirstAt, IsFirstPair, HasNoPair};

use crate::marks::Marks;
use rewrite_core::PathStep;
use term_pool::{Pool, RulesByRoot};

/// The numbers of the first left entry whose term never meets that of some right one, and of the
/// first right one whose term it never meets.
pub(crate) fn first_parted<M: Marks>(
    marks: &M,
    pool: &Pool,
    by_root: &RulesByRoot,
    lefts: &[(u32, Vec<PathStep>)],
    rights: &[(u32, Vec<PathStep>)],
) -> Option<(usize, usize)>
    requires lefts { AreMarkedIds M.has_mark marks.now lefts.now }
    requires rights { AreMarkedIds M.has_mark marks.now rights.now }
    requires marks { M.of_pool by_root.now.rules pool.now marks.now }
    ensures { MatchOption result
        (HasNoPair (AreParted M.never_meet by_root.now.rules pool.now) lefts.now rights.now)
        (IsFirstPair (AreParted M.never_meet by_root.now.rules pool.now) lefts.now rights.now) }
{
    for (i, left) in lefts.iter().enumerate() {
        match first_from(marks, pool, by_root, left, rights) {
            Some(j) => return Some((i, j)),
            None => {}
        }
    }
    None
}

/// The number of the first entry whose term never meets that of the left one.
fn first_from<M: Marks>(
    marks: &M,
    pool: &Pool,
    by_root: &RulesByRoot,
    left: &(u32, Vec<PathStep>),
    rights: &[(u32, Vec<PathStep>)],
) -> Option<usize>
    requires left { M.has_mark marks.now left.now.0 }
    requires rights { AreMarkedIds M.has_mark marks.now rights.now }
    requires marks { M.of_pool by_root.now.rules pool.now marks.now }
    ensures { MatchOption result
        (None_in (AreParted M.never_meet by_root.now.rules pool.now left.now) rights.now)
        (IsFirstAt (AreParted M.never_meet by_root.now.rules pool.now left.now) rights.now) }
{
    for (j, right) in rights.iter().enumerate() {
        if marks.are_parted(pool, by_root, left.0, right.0) {
            return Some(j);
        }
    }
    None
}
