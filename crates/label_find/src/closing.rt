//! The first two paths that close a peak by given ranks.
ghost use Rattle.std.specs.Prelude.{◌≡◌, ◌<◌, ◌↔◌, All, IsTrue, IfOk, MatchOption, length};
ghost use Rattle.confluence_theory.specs.RanksFit.{RanksFit};
ghost use Rattle.confluence_theory.specs.RuleRanks.{rank_of as rank_of_rule};
ghost use Rattle.rule_label.specs.Labelled.{ranks_along};
ghost use Rattle.join_find.specs.First.{First, None_in};
ghost use Rattle.label_find.specs.Closing.{ClosesFrom, CanCloseIds, IsFirstClosingIds};

use crate::fitting::{rank_of, ranks_fit};
use crate::lists::rules_along;
use rewrite_core::{Join, PathStep, copy_path};
use std::alloc::Global;
use term_pool::{Pool, ids_are_distinct};
use trs_core::OutOfMemory;

/// The first left path for which some right path closes the peak of two rules, and for it the
/// first such.
pub(crate) fn first_closing(
    alloc: Global,
    pool: &Pool,
    ranks: &[u32],
    numbers: (u32, u32),
    lefts: &[(u32, Vec<PathStep>)],
    rights: &[(u32, Vec<PathStep>)],
) -> Result<Join, OutOfMemory>
    requires lefts { All (λ e. e.0 < length pool.now) lefts.now }
    requires rights { All (λ e. e.0 < length pool.now) rights.now }
    requires can { CanCloseIds ranks.now numbers.0 numbers.1 pool.now lefts.now rights.now }
    ensures { IfOk result (
        IsFirstClosingIds ranks.now numbers.0 numbers.1 pool.now lefts.now rights.now) }
{
    for left in lefts {
        match closing_from(alloc, pool, ranks, numbers, left, rights)? {
            None => {}
            Some(right) => {
                return Ok(Join {
                    left: copy_path(alloc, &left.1)?,
                    right: copy_path(alloc, &right.1)?,
                });
            }
        }
    }
    unreachable!()
}

/// The first right path that closes the peak with this left one.
fn closing_from<'a>(
    alloc: Global,
    pool: &Pool,
    ranks: &[u32],
    numbers: (u32, u32),
    left: &(u32, Vec<PathStep>),
    rights: &'a [(u32, Vec<PathStep>)],
) -> Result<Option<&'a (u32, Vec<PathStep>)>, OutOfMemory>
    requires left { left.now.0 < length pool.now }
    requires rights { All (λ e. e.0 < length pool.now) rights.now }
    ensures { IfOk result (λ found. MatchOption found
        (None_in (ClosesFrom ranks.now numbers.0 numbers.1 pool.now left.now) rights.now)
        (λ right. First (ClosesFrom ranks.now numbers.0 numbers.1 pool.now left.now)
        rights.now right.now)) }
{
    if !path_fits(alloc, ranks, numbers.0, numbers.1, &left.1)? {
        return Ok(None);
    }
    for right in rights {
        if closes(alloc, pool, ranks, numbers, left, right)? {
            return Ok(Some(right));
        }
    }
    Ok(None)
}

/// Whether a right path closes the peak with a left one whose ranks fit.
fn closes(
    alloc: Global,
    pool: &Pool,
    ranks: &[u32],
    numbers: (u32, u32),
    left: &(u32, Vec<PathStep>),
    right: &(u32, Vec<PathStep>),
) -> Result<bool, OutOfMemory>
    requires left { left.now.0 < length pool.now }
    requires right { right.now.0 < length pool.now }
    requires fits { RanksFit (rank_of_rule ranks.now numbers.0) (rank_of_rule ranks.now numbers.1)
        (ranks_along ranks.now left.now.1.items) }
    ensures { IfOk result (λ yes. IsTrue yes
        ↔ ClosesFrom ranks.now numbers.0 numbers.1 pool.now left.now right.now) }
{
    ids_are_distinct(pool);
    if left.0 != right.0 {
        return Ok(false);
    }
    path_fits(alloc, ranks, numbers.1, numbers.0, &right.1)
}

/// Whether the ranks along a path fit those of two rules.
fn path_fits(
    alloc: Global,
    ranks: &[u32],
    first: u32,
    second: u32,
    path: &[PathStep],
) -> Result<bool, OutOfMemory>
    ensures { IfOk result (λ yes. IsTrue yes ↔ RanksFit (rank_of_rule ranks.now first)
        (rank_of_rule ranks.now second) (ranks_along ranks.now path.now)) }
{
    let rules = rules_along(alloc, path)?;
    let a = rank_of(ranks, first);
    let b = rank_of(ranks, second);
    Ok(ranks_fit(ranks, a, b, &rules))
}
