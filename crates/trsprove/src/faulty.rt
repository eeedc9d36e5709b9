//! Runs on cut certificates, on hostile problem texts, and with calls that fail.
use crate::run::run_alone;
use io_edge::{MemoryShelf, MemorySink};
use program_edge::Status;
use std::alloc::{AllocError, Global};
use std::test::*;

const CERTIFY: [&str; 3] = ["certify", "problem", "certificate"];

const ACKERMANN: &[u8] = b"(format TRS)\n(fun 0 0)\n(fun s 1)\n(fun ack 2)\n\
    (rule (ack 0 y) (s y))\n(rule (ack (s x) 0) (ack x (s 0)))\n\
    (rule (ack (s x) (s y)) (ack x (ack (s x) y)))\n";

const PROOF: &[u8] = b"YES\n(certificate 1 terminating)\n(step 0 (dp))\n\
    (step 1 (subterm (ack 1)))\n(step 2 (subterm (ack 2)))\n";

/// How a run on each beginning of the proof ends, and its line, by the greatest length of which they
/// are those.
const BEGINNINGS: [(usize, Status, &[u8]); 10] = [
    (2, Status::Rejected, b"REJECTED text 0\n"),
    (3, Status::Rejected, b"REJECTED text 3\n"),
    (30, Status::Rejected, b"REJECTED text 4\n"),
    (32, Status::Rejected, b"REJECTED open 0\n"),
    (44, Status::Rejected, b"REJECTED text 32\n"),
    (46, Status::Rejected, b"REJECTED open 1\n"),
    (71, Status::Rejected, b"REJECTED text 46\n"),
    (73, Status::Rejected, b"REJECTED open 2\n"),
    (98, Status::Rejected, b"REJECTED text 73\n"),
    (100, Status::Answered, b"ACCEPTED terminating\n"),
];

const ADDITION: &[u8] = b"(format TRS)\n(fun 0 0)\n(fun s 1)\n(fun + 2)\n\
    (rule (+ 0 y) y)\n(rule (+ (s x) y) (s (+ x y)))\n";

const FIND: [&str; 2] = ["termination", "problem"];

/// The answer to addition.
const FOUND: &[u8] = b"YES\n(certificate 1 terminating)\n(step 0 (dp))\n(step 1 (subterm (+ 1)))\n";

/// What stands before each line of it, by the number of the line.
const BEFORE: [(u64, &[u8]); 4] = [
    (0, b""),
    (1, b"YES\n"),
    (2, b"YES\n(certificate 1 terminating)\n"),
    (3, b"YES\n(certificate 1 terminating)\n(step 0 (dp))\n"),
];

/// A problem, a certificate, and the numbers of the calls that fail, from 0.
#[derive(Clone, Copy)]
struct Trial<'a> {
    problem: &'a [u8],
    certificate: &'a [u8],
    unread: &'a [u64],
    unwritten: &'a [u64],
}

impl<'a> Trial<'a> {
    /// No call fails.
    fn of(problem: &'a [u8], certificate: &'a [u8]) -> Trial<'a> {
        Trial {
            problem,
            certificate,
            unread: &[],
            unwritten: &[],
        }
    }

    fn shelf(&self, alloc: Global) -> Result<MemoryShelf, AllocError> {
        let mut texts = Vec::new(alloc);
        texts.push(named(alloc, "problem", self.problem)?)?;
        texts.push(named(alloc, "certificate", self.certificate)?)?;
        let unread = Vec::from_slice(alloc, self.unread)?;
        Ok(MemoryShelf::new(alloc, texts, unread))
    }

    fn sink(&self, alloc: Global) -> Result<MemorySink, Fail> {
        let unwritten = Vec::from_slice(alloc, self.unwritten)?;
        Ok(MemorySink::new(alloc, 200, unwritten)?)
    }

    /// Whether a run with these words ends so, and has written this.
    fn ends(
        &self,
        alloc: Global,
        words: &[&str],
        status: Status,
        text: &[u8],
    ) -> Result<bool, Fail> {
        let mut shelf = self.shelf(alloc)?;
        let mut sink = self.sink(alloc)?;
        let found = run_alone(alloc, words, &mut shelf, &mut sink);
        Ok(found == status && sink.taken() == text)
    }
}

/// A text under its name.
fn named(alloc: Global, name: &str, text: &[u8]) -> Result<(String, Vec<u8>), AllocError> {
    let name = String::from_str(alloc, name)?;
    Ok((name, Vec::from_slice(alloc, text)?))
}

#[test]
fn cut_certificates(rt: HostRuntime) -> Result<(), Fail> {
    assert_eq!(rt; PROOF.len(), 100);
    let mut least = 0;
    for (greatest, status, line) in &BEGINNINGS {
        for length in least..=*greatest {
            let trial = Trial::of(ACKERMANN, PROOF.get(..length).unwrap_or(PROOF));
            assert!(rt;
                trial.ends(rt.alloc(), &CERTIFY, *status, line)?,
                "{length} bytes"
            );
        }
        least = greatest.saturating_add(1);
    }
    Ok(())
}

/// Whether a problem text is refused with this line.
fn is_refused(alloc: Global, problem: &[u8], line: &[u8]) -> Result<bool, Fail> {
    Trial::of(problem, PROOF).ends(alloc, &CERTIFY, Status::Refused, line)
}

#[test]
fn hostile_problems(rt: HostRuntime) -> Result<(), Fail> {
    assert!(rt; is_refused(rt.alloc(), &[b'('; 301], b"problem refused 1 4 300\n")?);
    assert!(rt; is_refused(rt.alloc(), &[b'('; 300], b"problem refused 1 2 0\n")?);
    assert!(rt; is_refused(rt.alloc(), b"\0", b"problem refused 1 1 0\n")?);
    assert!(rt; is_refused(rt.alloc(), b")", b"problem refused 1 3 0\n")?);
    Ok(())
}

// A call of the sink that fails leaves the lines before it.
#[test]
fn failing_sinks(rt: HostRuntime) -> Result<(), Fail> {
    for (call, before) in &BEFORE {
        let trial = Trial {
            unwritten: &[*call],
            ..Trial::of(ADDITION, b"")
        };
        assert!(rt;
            trial.ends(rt.alloc(), &FIND, Status::WriteFault, before)?,
            "call {call}"
        );
    }
    Ok(())
}

#[test]
fn working_sinks(rt: HostRuntime) -> Result<(), Fail> {
    let trial = Trial::of(ADDITION, b"");
    assert!(rt; trial.ends(rt.alloc(), &FIND, Status::Answered, FOUND)?);
    Ok(())
}

/// The calls that fail, and the line of each.
const UNREAD: [(u64, &[u8]); 2] = [
    (0, b"read fault problem\n"),
    (1, b"read fault certificate\n"),
];

// A text that cannot be read is named.
#[test]
fn failing_shelves(rt: HostRuntime) -> Result<(), Fail> {
    for (call, line) in &UNREAD {
        let trial = Trial {
            unread: &[*call],
            ..Trial::of(ACKERMANN, PROOF)
        };
        assert!(rt; trial.ends(rt.alloc(), &CERTIFY, Status::ReadFault, line)?);
    }
    Ok(())
}
