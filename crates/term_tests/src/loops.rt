//! The finder of loops, at its limits.
use crate::lettered::show;
use crate::stops::never;
use crate::texts::system;
use assign_search::{Search, Stop};
use finder_cases::StopAt;
use loop_find::{LoopFound, find_loop};
use std::alloc::Global;
use std::test::Fail;
use trs_core::{OutOfMemory, Term, Trs};

const NOT_THERE: u32 = 91;

const SPENT: u32 = 92;

const STOPPED: u32 = 93;

/// The root of the start, the path and the place, or one number that says what else the answer was.
fn numbers_of<P: Stop>(
    alloc: Global,
    trs: &Trs,
    budget: u64,
    stop: &mut P,
) -> Result<Vec<u32>, OutOfMemory> {
    let mut shown = Vec::new(alloc);
    show_answer(&find_loop(alloc, trs, budget, stop)?, &mut shown)?;
    Ok(shown)
}

fn show_answer(answer: &Search<LoopFound>, shown: &mut Vec<u32>) -> Result<(), OutOfMemory> {
    let number = match answer {
        Search::Found(found) => return show_loop(found, shown),
        Search::NotThere => NOT_THERE,
        Search::Spent => SPENT,
        Search::Stopped => STOPPED,
    };
    shown.push(number)?;
    Ok(())
}

fn show_loop(found: &LoopFound, shown: &mut Vec<u32>) -> Result<(), OutOfMemory> {
    shown.push(root(&found.start))?;
    show(&found.path, shown)?;
    for place in found.place.places() {
        shown.push(u32::from(*place))?;
    }
    Ok(())
}

fn root(t: &Term) -> u32 {
    match t {
        Term::Var(v) => *v,
        Term::App(f, _) => *f,
    }
}

/// A text of letters, each so many times.
fn repeat(alloc: Global, parts: &[(u8, u32)]) -> Result<Vec<u8>, OutOfMemory> {
    let mut text = Vec::new(alloc);
    for (letter, count) in parts {
        for _ in 0..*count {
            text.push(*letter)?;
        }
    }
    Ok(text)
}

/// The term d(x, e(x, .., x), e(x, .., x)).
const MANY: [(u8, u32); 6] = [
    (b'd', 1),
    (b'0', 1),
    (b'e', 1),
    (b'0', 255),
    (b'e', 1),
    (b'0', 255),
];

/// Rules 0 a(x) -> d(x, e(x, .., x), e(x, .., x)) and 1 d(t, x, y) -> a(t), where t has `count` + 1
/// nodes. The closure of both returns to a(t), through a term of 510 times as many nodes.
fn wide(alloc: Global, count: u32) -> Result<Trs, Fail> {
    let many = repeat(alloc, &MANY)?;
    let from = repeat(
        alloc,
        &[(b'd', 1), (b'b', count), (b'c', 1), (b'0', 1), (b'1', 1)],
    )?;
    let to = repeat(alloc, &[(b'a', 1), (b'b', count), (b'c', 1)])?;
    let sides: [(&[u8], &[u8]); 2] = [(b"a0", many.as_slice()), (from.as_slice(), to.as_slice())];
    system(alloc, &[1, 1, 0, 3, 255], &sides)
}

/// Some systems:
/// 0. `a(x) -> a(a(x))`;
/// 1. `a(b, c, x) -> a(x, x, x)`, `d(x, y) -> x` and `d(x, y) -> y`: no closure loops;
/// 2. `a(b(x)) -> b(a(x))`, which gives closures up to 256 nodes;
/// 3. a loop by a path through 76,500 nodes, which passes the limits;
/// 4. a loop by a path through 51,000 nodes, which does not.
fn system_number(alloc: Global, number: u32) -> Result<Trs, Fail> {
    match number {
        0 => system(alloc, &[1], &[(b"a0", b"aa0")]),
        1 => system(
            alloc,
            &[3, 0, 0, 2],
            &[(b"abc0", b"a000"), (b"d01", b"0"), (b"d01", b"1")],
        ),
        2 => system(alloc, &[1, 1], &[(b"ab0", b"ba0")]),
        3 => wide(alloc, 149),
        _ => wide(alloc, 99),
    }
}

/// What is shown on the systems, within so many attempts.
const SHOWN: [(u32, u64, &[u32]); 6] = [
    (0, 0, &[0, 100, 99]),
    (1, 4, &[NOT_THERE]),
    (1, 3, &[SPENT]),
    (3, 611, &[NOT_THERE]),
    (3, 610, &[SPENT]),
    (4, 611, &[0, 100, 101, 99]),
];

#[test]
fn loops_and_paths(rt: HostRuntime) -> Result<(), Fail> {
    for (number, budget, want) in &SHOWN {
        let trs = system_number(rt.alloc(), *number)?;
        let found = numbers_of(rt.alloc(), &trs, *budget, &mut never())?;
        assert!(rt; found.as_slice() == *want, "on system {number}");
    }
    Ok(())
}

/// Of the sides up to the limit 254 have 32,639 attempts.
#[test]
fn sides_up_to_the_limit(rt: HostRuntime) -> Result<(), Fail> {
    let trs = system_number(rt.alloc(), 2)?;
    for (budget, want) in [(32_639, SPENT), (32_640, NOT_THERE)] {
        let found = numbers_of(rt.alloc(), &trs, budget, &mut never())?;
        assert!(rt; found.as_slice() == [want].as_slice());
    }
    Ok(())
}

/// A stop comes before the first attempt, the second and so on.
#[test]
fn stops_of_the_finder(rt: HostRuntime) -> Result<(), Fail> {
    let trs = system_number(rt.alloc(), 1)?;
    for left in 0..5 {
        let mut stop = StopAt { left, stops: 0 };
        let found = numbers_of(rt.alloc(), &trs, 20_000, &mut stop)?;
        assert!(rt; (found.as_slice() == [STOPPED].as_slice()) == (left < 3));
    }
    Ok(())
}
