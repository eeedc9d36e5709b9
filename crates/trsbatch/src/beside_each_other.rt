//! A test: problems are answered beside each other, and none waits for another.
use crate::run::run_batch;
use io_edge::{MemoryShelf, MemorySink};
use program_edge::{Gate, Status};
use std::alloc::{AllocError, Global};
use std::sync::atomic::{AtomicBool, Ordering};
use std::test::*;
use std::thread;

const LOOP: &[u8] = b"(format TRS)\n(fun f 1)\n(rule (f x) (f (f x)))\n";

const TWO: &[u8] = b"problem a.ari 0
NO
(certificate 1 nonterminating)
(step 0 (loop (f _0) (path (at () 0)) ()))
problem b.ari 0
NO
(certificate 1 nonterminating)
(step 0 (loop (f _0) (path (at () 0)) ()))
";

/// Holds the first problem until the second was answered, for so many turns at most.
#[derive(Drop)]
struct SecondBeforeFirst {
    answered: AtomicBool,
    ran_out: AtomicBool,
}

const TURNS: u64 = 1_000_000;

impl Gate for SecondBeforeFirst {
    fn before(&self, ticket: u64) {
        if ticket != 0 {
            return;
        }
        for _ in 0..TURNS {
            if self.answered.load(Ordering::SeqCst) {
                return;
            }
            thread::yield_now();
        }
        self.ran_out.store(true, Ordering::SeqCst);
    }

    fn asked(&self, _ticket: u64) {}

    fn after(&self, ticket: u64) {
        if ticket == 1 {
            self.answered.store(true, Ordering::SeqCst);
        }
    }
}

/// A text under its name.
fn named(alloc: Global, name: &str, text: &[u8]) -> Result<(String, Vec<u8>), AllocError> {
    let name = String::from_str(alloc, name)?;
    Ok((name, Vec::from_slice(alloc, text)?))
}

const TEXTS: [(&str, &[u8]); 3] = [
    ("list", b"a.ari\nb.ari\n"),
    ("a.ari", LOOP),
    ("b.ari", LOOP),
];

fn shelf_of_two(alloc: Global) -> Result<MemoryShelf, AllocError> {
    let mut texts = Vec::new(alloc);
    for (name, text) in &TEXTS {
        texts.push(named(alloc, name, text)?)?;
    }
    Ok(MemoryShelf::new(alloc, texts, Vec::new(alloc)))
}

#[test]
fn the_second_ends_first(rt: HostRuntime) -> Result<(), Fail> {
    let alloc = rt.alloc();
    let gate = SecondBeforeFirst {
        answered: AtomicBool::new(false),
        ran_out: AtomicBool::new(false),
    };
    let words = ["termination", "list", "--workers", "2"];
    let mut shelf = shelf_of_two(alloc)?;
    let mut out = MemorySink::new(alloc, 1024, Vec::new(alloc))?;
    let status = run_batch(&rt, alloc, &words, &mut shelf, &mut out, &gate);
    assert!(rt; status == Status::Answered);
    assert!(rt; out.taken() == TWO);
    assert!(rt; !gate.ran_out.load(Ordering::SeqCst));
    Ok(())
}
