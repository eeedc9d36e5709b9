//! One prefix of values: is it refuted, and which comes next.
ghost use Rattle.std.specs.Prelude.{◌≡◌, length, map, ◌<◌, ◌^◌, IfOk, OnOk};
ghost use Rattle.assign_search.specs.Rest.{IsStanding, IsAt, Advances, IsGroup, AreAllGroups};
ghost use Rattle.assign_search.specs.Puzzle.{is_refuted};
ghost use Rattle.assign_search.specs.Turns.{IsTurn, Passes};

use crate::memory::OutOfMemory;
use crate::space::Space;
use crate::testing::Tester;
use std::alloc::Global;

/// What one prefix led to.
pub(crate) enum Turn {
    Next,
    Solved,
    Exhausted,
    Spent,
}

// Only the constraints that have their last slot at the prefix's end are tested.
fn is_refuted<S: Space, T: Tester<S>>(
    alloc: Global,
    space: &S,
    tester: &mut T,
    group: &[u32],
    values: &[u32],
) -> Result<bool, OutOfMemory>
    requires serves { T.serves tester.old space.now }
    requires standing { IsStanding (S.puzzle space.now) values.now }
    requires group { IsGroup (S.puzzle space.now) (length values.now) group.now }
    ensures refuted { IfOk result (λ r. r ≡ is_refuted (S.puzzle space.now) values.now) }
    ensures serves { OnOk result (T.serves tester.new space.now) }
{
    let stands = tester.all_hold(alloc, space, group, values)?;
    Ok(!stands)
}

// to the next prefix that does not extend this one
fn advance<S: Space>(space: &S, values: &mut Vec<u32>) -> Result<bool, OutOfMemory>
    requires small { (S.puzzle space.now).slots < 2 ^ 32 }
    requires standing { IsStanding (S.puzzle space.now) values.old.items }
    ensures { IfOk result (Advances (S.puzzle space.now) values.old.items values.new.items) }
{
    while let Some(value) = values.pop() {
        let end = space.domain(values.len() as u32);
        if value + 1 < end {
            values.push(value + 1)?;
            return Ok(true);
        }
    }
    Ok(false)
}

fn pass<S: Space>(space: &S, values: &mut Vec<u32>) -> Result<Turn, OutOfMemory>
    requires small { (S.puzzle space.now).slots < 2 ^ 32 }
    requires standing { IsStanding (S.puzzle space.now) values.old.items }
    ensures { IfOk result (Passes (S.puzzle space.now) values.old.items values.new.items) }
{
    if advance(space, values)? {
        Ok(Turn::Next)
    } else {
        Ok(Turn::Exhausted)
    }
}

/// Tests the prefix `values`, and takes the next one; `count` is that of minimal refuted prefixes.
pub(crate) fn visit<S: Space, T: Tester<S>>(
    alloc: Global,
    space: &S,
    tester: &mut T,
    slots: u32,
    groups: &[Vec<u32>],
    budget: u64,
    count: &mut u64,
    values: &mut Vec<u32>,
) -> Result<Turn, OutOfMemory>
    requires serves { T.serves tester.old space.now }
    requires slots { slots ≡ (S.puzzle space.now).slots }
    requires groups { AreAllGroups (S.puzzle space.now) (map (λ g. g.items) groups.now) }
    requires at { IsAt (S.puzzle space.now) count.old values.old.items }
    requires below { count.old < budget }
    ensures turn { IfOk result
        (IsTurn (S.puzzle space.now) budget values.old.items count.new values.new.items) }
    ensures serves { OnOk result (T.serves tester.new space.now) }
{
    let depth = values.len();
    if is_refuted(alloc, space, tester, &groups[depth], values)? {
        *count += 1;
        if *count >= budget {
            return Ok(Turn::Spent);
        }
        return pass(space, values);
    }
    if depth == slots as usize {
        return Ok(Turn::Solved);
    }
    if space.domain(depth as u32) == 0 {
        return pass(space, values);
    }
    values.push(0)?;
    Ok(Turn::Next)
}
