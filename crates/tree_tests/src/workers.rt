//! What 2, 4 and 16 workers answer about small systems.
use crate::systems::{Case, system};
use std::alloc::Global;
use std::sync::Wait;
use std::test::Fail;
use std::thread::Threads;
use trs_core::OutOfMemory;
use worker_pool::{Claim, Limits, OpenGate, Question, Tree, Verdict, prove_with};

/// Whether the tree has a certificate of this claim, whose steps are accepted by the contract of
/// `certificate`; or a report, where there is no claim.
fn says(alloc: Global, tree: &Tree, claim: Option<Claim>) -> Result<bool, OutOfMemory> {
    match tree.verdict() {
        Some(Verdict::Won(_)) => Ok(claim == Some(tree.certificate(alloc)?.claim)),
        Some(Verdict::Maybe) => Ok(claim.is_none() && tree.report(alloc)?.goals.len() > 1),
        None => Ok(false),
    }
}

/// Whether each number of workers comes to this claim, or to none.
fn all_say<R: Threads + Wait + Sync>(
    rt: &R,
    alloc: Global,
    case: &Case,
    claim: Option<Claim>,
) -> Result<bool, Fail> {
    let trs = system(alloc, case)?;
    let limits = Limits {
        budget: case.budget,
    };
    for workers in [2u32, 4, 16] {
        let finished = prove_with(rt, alloc, case.question, &trs, limits, workers, &OpenGate)?;
        if !says(alloc, finished.tree(), claim)? {
            return Ok(false);
        }
    }
    Ok(true)
}

/// A case, and the claim that is proved, or none.
type Row<'a> = (Case<'a>, Option<Claim>);

const ON_TERMINATION: [Row; 4] = [
    // addition
    (
        Case {
            question: Question::Termination,
            letters: b"0s+",
            rules: &[b"+0y>y", b"+sxy>s+xy"],
            budget: 100,
        },
        Some(Claim::Terminating),
    ),
    // the function of Ackermann and Peter
    (
        Case {
            question: Question::Termination,
            letters: b"0sp",
            rules: &[b"p0y>sy", b"psx0>pxs0", b"psxsy>pxpsxy"],
            budget: 100,
        },
        Some(Claim::Terminating),
    ),
    // a loop
    (
        Case {
            question: Question::Termination,
            letters: b"abc",
            rules: &[b"a>b", b"a>c", b"b>a", b"c>a"],
            budget: 100,
        },
        Some(Claim::Nonterminating),
    ),
    // Toyama's example, of which no strategy finds anything
    (
        Case {
            question: Question::Termination,
            letters: b"01tp",
            rules: &[b"t01x>txxx", b"pxy>x", b"pxy>y"],
            budget: 100,
        },
        None,
    ),
];

#[test]
fn termination(rt: HostRuntime) -> Result<(), Fail> {
    for (number, (case, claim)) in ON_TERMINATION.iter().enumerate() {
        assert!(rt; all_say(&rt, rt.alloc(), case, *claim)?, "case {number}");
    }
    Ok(())
}

const ON_CONFLUENCE: [Row; 5] = [
    // joined peaks of a terminating system
    (
        Case {
            question: Question::Confluence,
            letters: b"fg",
            rules: &[b"ffx>gx", b"fgx>gfx"],
            budget: 100,
        },
        Some(Claim::Confluent),
    ),
    // strongly joined peaks
    (
        Case {
            question: Question::Confluence,
            letters: b"abc",
            rules: &[b"a>b", b"a>c", b"b>a", b"c>a"],
            budget: 100,
        },
        Some(Claim::Confluent),
    ),
    // decreasing peaks; the ranks of the rules come after 256 refuted prefixes
    (
        Case {
            question: Question::Confluence,
            letters: b"abchide",
            rules: &[b"a>b", b"a>c", b"b>h", b"h>d", b"c>i", b"i>d", b"e>e"],
            budget: 1_000,
        },
        Some(Claim::Confluent),
    ),
    // two normal forms of a constant
    (
        Case {
            question: Question::Confluence,
            letters: b"abc",
            rules: &[b"a>b", b"a>c"],
            budget: 100,
        },
        Some(Claim::Nonconfluent),
    ),
    // Huet's example, which has no critical peak and is not confluent
    (
        Case {
            question: Question::Confluence,
            letters: b"pagbc",
            rules: &[b"pxx>a", b"pxgx>b", b"c>gc"],
            budget: 100,
        },
        None,
    ),
];

#[test]
fn confluence(rt: HostRuntime) -> Result<(), Fail> {
    for (number, (case, claim)) in ON_CONFLUENCE.iter().enumerate() {
        assert!(rt; all_say(&rt, rt.alloc(), case, *claim)?, "case {number}");
    }
    Ok(())
}

const ON_NORMAL_FORMS: Case = Case {
    question: Question::Unique,
    letters: b"fg",
    rules: &[b"ffx>gx", b"fgx>gfx"],
    budget: 100,
};

#[test]
fn a_confluent_system_has_unique_normal_forms(rt: HostRuntime) -> Result<(), Fail> {
    assert!(rt; all_say(&rt, rt.alloc(), &ON_NORMAL_FORMS, Some(Claim::Unique))?);
    Ok(())
}
