//! Two gates that hold a worker until another has come somewhere. They refuse a pool that does all its
//! work on one thread, and one whose searches never learn of a faster rival.
use crate::systems::{Case, system};
use crossbeam_utils::Backoff;
use std::sync::atomic::{AtomicU64, Ordering};
use std::test::Fail;
use worker_pool::{Gate, Limits, Question, Verdict, prove_with};

/// How often a wait looks at most.
const TURNS: u64 = 1_000_000;

/// Addition terminates. Ticket 0 is the step to its one dependency pair, ticket 1 the search for a loop,
/// ticket 2 the graph of the pair, and ticket 3 the subterm criterion, which wins.
const ADDITION: Case = Case {
    question: Question::Termination,
    letters: b"0s+",
    rules: &[b"+0y>y", b"+sxy>s+xy"],
    budget: 20_000,
};

/// Waits until the count is at least so much. Whether it came to be within the turns.
fn wait_for(count: &AtomicU64, least: u64) -> bool {
    let backoff = Backoff::new();
    for _ in 0..TURNS {
        if count.load(Ordering::SeqCst) >= least {
            return true;
        }
        backoff.snooze();
    }
    false
}

/// Holds ticket 0 before its search until ticket 1 has ended.
#[derive(Drop)]
struct FirstWaits {
    ended: AtomicU64,
    ran_out: AtomicU64,
}

impl Gate for FirstWaits {
    fn before(&self, ticket: u64) {
        if ticket == 0 && !wait_for(&self.ended, 1) {
            self.ran_out.fetch_add(1, Ordering::SeqCst);
        }
    }

    fn asked(&self, _ticket: u64) {}

    fn after(&self, ticket: u64) {
        if ticket == 1 {
            self.ended.fetch_add(1, Ordering::SeqCst);
        }
    }
}

/// The search for a loop ends after one attempt, while the first worker is held.
#[test]
fn two_workers_run_at_once(rt: HostRuntime) -> Result<(), Fail> {
    let alloc = rt.alloc();
    let trs = system(alloc, &ADDITION)?;
    let gate = FirstWaits {
        ended: AtomicU64::new(0),
        ran_out: AtomicU64::new(0),
    };
    let limits = Limits { budget: 1 };
    let finished = prove_with(&rt, alloc, ADDITION.question, &trs, limits, 2, &gate)?;
    assert!(rt; gate.ran_out.load(Ordering::SeqCst) == 0);
    assert!(rt; gate.ended.load(Ordering::SeqCst) == 1);
    assert!(rt; finished.tree().verdict() == Some(Verdict::Won(0)));
    Ok(())
}

/// Holds ticket 3 before its search until ticket 1 has asked for the second time, and that asking until
/// ticket 3 has ended.
#[derive(Drop)]
struct RivalWins {
    asked: AtomicU64,
    ended: AtomicU64,
    ran_out: AtomicU64,
}

impl Gate for RivalWins {
    fn before(&self, ticket: u64) {
        if ticket == 3 && !wait_for(&self.asked, 2) {
            self.ran_out.fetch_add(1, Ordering::SeqCst);
        }
    }

    fn asked(&self, ticket: u64) {
        if ticket != 1 {
            return;
        }
        let before = self.asked.fetch_add(1, Ordering::SeqCst);
        if before == 1 && !wait_for(&self.ended, 1) {
            self.ran_out.fetch_add(1, Ordering::SeqCst);
        }
    }

    fn after(&self, ticket: u64) {
        if ticket == 3 {
            self.ended.fetch_add(1, Ordering::SeqCst);
        }
    }
}

/// The search for a loop asks twice: at first it goes on, and then its rival has won.
#[test]
fn a_search_learns_of_a_faster_rival(rt: HostRuntime) -> Result<(), Fail> {
    let alloc = rt.alloc();
    let trs = system(alloc, &ADDITION)?;
    let gate = RivalWins {
        asked: AtomicU64::new(0),
        ended: AtomicU64::new(0),
        ran_out: AtomicU64::new(0),
    };
    let limits = Limits {
        budget: ADDITION.budget,
    };
    let finished = prove_with(&rt, alloc, ADDITION.question, &trs, limits, 2, &gate)?;
    assert!(rt; gate.ran_out.load(Ordering::SeqCst) == 0);
    assert!(rt; gate.asked.load(Ordering::SeqCst) == 2);
    assert!(rt; finished.tree().verdict() == Some(Verdict::Won(0)));
    Ok(())
}
