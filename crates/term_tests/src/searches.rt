//! Searches of small spaces: found, none, spent, stopped and want of memory.
use crate::spaces::{Deep, Pair};
use assign_search::{Never, OutOfMemory, Search, Space, first_solution};
use finder_cases::StopAt;
use std::alloc::Global;
use std::test::Fail;

const SPENT: u32 = 92;

const NOT_THERE: u32 = 91;

// the solution, or one number that says what else the answer was
fn numbers_of<S: Space>(alloc: Global, space: &S, budget: u64) -> Result<Vec<u32>, OutOfMemory> {
    Ok(match first_solution(alloc, space, budget, &mut Never)? {
        Search::Found(values) => values,
        Search::NotThere => Vec::from_array(alloc, [NOT_THERE])?,
        Search::Spent => Vec::from_array(alloc, [SPENT])?,
        Search::Stopped => Vec::from_array(alloc, [93])?,
    })
}

/// The two numbers, the sizes of the domains, the budget, and what is found. With values below 3,
/// (0), (1) and (2, 0) are refuted before the solution (2, 1).
const OF_TWO_SLOTS: [(u32, u32, (u32, u32), u64, &[u32]); 8] = [
    (2, 1, (3, 3), 0, &[SPENT]),
    (2, 1, (3, 3), 3, &[SPENT]),
    (2, 1, (3, 3), 4, &[2, 1]),
    (2, 3, (3, 3), 5, &[SPENT]),
    (2, 3, (3, 3), 6, &[NOT_THERE]),
    (2, 3, (3, 0), 2, &[SPENT]),
    (2, 3, (3, 0), 3, &[NOT_THERE]),
    (0, 3, (0, 9), 1, &[NOT_THERE]),
];

#[test]
fn solutions_of_two_slots(rt: HostRuntime) -> Result<(), Fail> {
    for (first, second, sizes, budget, want) in &OF_TWO_SLOTS {
        let pair = Pair {
            first: *first,
            second: *second,
            sizes: *sizes,
        };
        let found = numbers_of(rt.alloc(), &pair, *budget)?;
        assert!(rt; found.as_slice() == *want);
    }
    Ok(())
}

/// How many slots, whether the constraint holds, the budget, and what is found. With no slots the
/// empty prefix is a solution or refuted.
const OF_MANY_SLOTS: [(u32, bool, u64, &[u32]); 6] = [
    (0, true, 1, &[]),
    (0, false, 1, &[SPENT]),
    (0, false, 2, &[NOT_THERE]),
    (3, false, 8, &[SPENT]),
    (3, false, 9, &[NOT_THERE]),
    (20, false, 1_000_000, &[SPENT]),
];

#[test]
fn no_slots_and_many(rt: HostRuntime) -> Result<(), Fail> {
    for (slots, truth, budget, want) in &OF_MANY_SLOTS {
        let deep = Deep {
            slots: *slots,
            truth: Some(*truth),
        };
        let found = numbers_of(rt.alloc(), &deep, *budget)?;
        assert!(rt; found.as_slice() == *want);
    }
    Ok(())
}

#[test]
fn a_constraint_wants_memory(rt: HostRuntime) {
    let deep = Deep {
        slots: 20,
        truth: None,
    };
    assert!(rt; first_solution(rt.alloc(), &deep, 2, &mut Never).is_err());
}

/// The stop is asked before each prefix: six are visited, and the answer comes with the sixth.
#[test]
fn stops_of_a_search(rt: HostRuntime) -> Result<(), Fail> {
    let alloc = rt.alloc();
    let pair = Pair {
        first: 2,
        second: 1,
        sizes: (3, 3),
    };
    for left in 0..9 {
        let mut stop = StopAt { left, stops: 0 };
        let answer = first_solution(alloc, &pair, 100, &mut stop)?;
        assert!(rt; matches!(&answer, Search::Stopped) == (left < 6));
        assert!(rt; stop.stops == u64::from(left < 6));
    }
    Ok(())
}
