//! Many lists of events in random order.
use crate::chance::Chance;
use crate::comparing::Pair;
use crate::endings::ends_as;
use crate::state::State;
use crate::systems::{Case, system};
use std::alloc::Global;
use std::test::Fail;
use trs_core::Trs;
use worker_pool::{Question, Verdict};

/// How many lists are tried for a case, and how many calls a list has at most.
const LISTS: u64 = 200;

const CALLS: u64 = 120;

/// How a list is made: of sixteen calls so many are claims, and which tickets end first.
#[derive(Clone, Copy)]
struct Habits {
    claims: u64,
    newest_first: bool,
}

/// A ticket that is running, where there is one.
fn running(pair: &Pair, chance: &mut Chance, habits: &Habits) -> Option<u64> {
    let tickets = &pair.state.tickets;
    let count = tickets.len() as u64;
    let back = chance.below(if habits.newest_first { 3 } else { count });
    let from = count.saturating_sub(back);
    let mut found = None;
    for (number, ticket) in tickets.iter().enumerate() {
        if ticket.is_running && (found.is_none() || (number as u64) < from) {
            found = Some(number as u64);
        }
    }
    found
}

/// One call, and whether its answer was right.
fn call(
    alloc: Global,
    pair: &mut Pair,
    chance: &mut Chance,
    habits: &Habits,
) -> Result<bool, Fail> {
    let kind = chance.below(16);
    let seat = chance.below(5) as u32;
    match running(pair, chance, habits) {
        Some(ticket) if kind >= habits.claims => match kind {
            15 => pair.poll(alloc, ticket),
            14 if chance.below(64) == 0 => {
                pair.abort(alloc, ticket)?;
                Ok(true)
            }
            _ => pair.post(alloc, ticket),
        },
        _ => pair.claim(alloc, seat),
    }
}

/// Makes the calls of a list, and says whether all are right.
fn make_calls(
    alloc: Global,
    pair: &mut Pair,
    chance: &mut Chance,
    habits: &Habits,
) -> Result<bool, Fail> {
    for _ in 0..CALLS {
        if !call(alloc, pair, chance, habits)? || !pair.agrees() {
            return Ok(false);
        }
        if pair.state.is_done() && !pair.state.is_running() {
            break;
        }
    }
    Ok(true)
}

/// Whether all calls of a list are right. The verdict is put down.
fn is_right(
    alloc: Global,
    case: &Case,
    trs: &Trs,
    seed: u64,
    seen: &mut [bool; 4],
) -> Result<bool, Fail> {
    let mut chance = Chance::new(seed);
    let habits = Habits {
        claims: chance.below(12).saturating_add(2),
        newest_first: chance.below(3) == 0,
    };
    let mut pair = Pair::new(alloc, case.question, trs, case.budget)?;
    if !make_calls(alloc, &mut pair, &mut chance, &habits)? {
        return Ok(false);
    }
    see(seen, &pair.state);
    Ok(ends_as(alloc, &pair.state, pair.trial.tree())?)
}

/// Puts down the verdict of a state: the goal that is won, or 3.
fn see(seen: &mut [bool; 4], state: &State) {
    let place = match state.verdict() {
        Some(Verdict::Won(goal)) => goal as usize,
        Some(Verdict::Maybe) => 3,
        None => return,
    };
    if let Some(slot) = seen.get_mut(place) {
        *slot = true;
    }
}

/// The verdicts to which lists lead, if all are right.
fn verdicts(alloc: Global, case: &Case) -> Result<Option<[bool; 4]>, Fail> {
    let trs = system(alloc, case)?;
    let mut seen = [false; 4];
    for seed in 0..LISTS {
        if !is_right(alloc, case, &trs, seed, &mut seen)? {
            return Ok(None);
        }
    }
    Ok(Some(seen))
}

const ADDITION: [&[u8]; 2] = [b"+0y>y", b"+sxy>s+xy"];

const ACKERMANN: [&[u8]; 3] = [b"p0y>sy", b"psx0>pxs0", b"psxsy>pxpsxy"];

const TOYAMA: [&[u8]; 3] = [b"t01x>txxx", b"pxy>x", b"pxy>y"];

const NEWMAN: [&[u8]; 2] = [b"ffx>gx", b"fgx>gfx"];

const LOOP: [&[u8]; 1] = [b"fx>ffx"];

const FORK: [&[u8]; 2] = [b"a>b", b"a>c"];

const HUET: [&[u8]; 3] = [b"pxx>a", b"pxgx>b", b"c>gc"];

/// Questions on termination, with their budgets.
const ON_TERMINATION: [(&[u8], &[&[u8]], u64, [bool; 4]); 5] = [
    (b"0s+", &ADDITION, 100, [true, false, false, false]),
    (b"0sp", &ACKERMANN, 100, [true, false, false, false]),
    (b"0sp", &ACKERMANN, 5, [true, false, false, false]),
    (b"f", &LOOP, 100, [false, true, false, false]),
    (b"t01p", &TOYAMA, 5, [false, false, false, true]),
];

#[test]
fn lists_on_termination(rt: HostRuntime) -> Result<(), Fail> {
    for (letters, rules, budget, wanted) in &ON_TERMINATION {
        let case = Case {
            question: Question::Termination,
            letters,
            rules,
            budget: *budget,
        };
        let seen = verdicts(rt.alloc(), &case)?;
        assert!(rt; seen == Some(*wanted), "of {letters:?} by {budget}");
    }
    Ok(())
}

/// Questions on critical peaks.
const CASES: [(&[u8], &[&[u8]], [bool; 4]); 4] = [
    (b"0s+", &ADDITION, [true, true, false, false]),
    (b"fg", &NEWMAN, [false, true, false, false]),
    (b"abc", &FORK, [false, false, true, false]),
    (b"pagbc", &HUET, [false, false, false, true]),
];

#[test]
fn lists_on_confluence(rt: HostRuntime) -> Result<(), Fail> {
    for (letters, rules, wanted) in &CASES {
        let case = Case {
            question: Question::Confluence,
            letters,
            rules,
            budget: 100,
        };
        let seen = verdicts(rt.alloc(), &case)?;
        assert!(rt; seen == Some(*wanted), "of {letters:?}");
    }
    Ok(())
}

#[test]
fn lists_on_normal_forms(rt: HostRuntime) -> Result<(), Fail> {
    for (letters, rules, wanted) in &CASES {
        let case = Case {
            question: Question::Unique,
            letters,
            rules,
            budget: 100,
        };
        let seen = verdicts(rt.alloc(), &case)?;
        assert!(rt; seen == Some(*wanted), "of {letters:?}");
    }
    Ok(())
}
