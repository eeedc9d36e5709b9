//! The greatest weight of a certificate in version 2, and paths that use each other.
use ari_text::read_problem;
use certifier::{
    CertFault, Certificate, Claim, NodeStep, Step, fits_version_two, read_certificate,
};
use rewrite_core::PathStep;
use std::alloc::{AllocError, Global};
use std::test::*;
use trs_core::{Position, Term};

// So many steps at the root.
fn root_steps(alloc: Global, count: usize) -> Result<Vec<PathStep>, AllocError> {
    let mut path = Vec::with_capacity(alloc, count)?;
    for _ in 0..count {
        let place = Position::new(alloc);
        path.push(PathStep { place, rule: 0 })?;
    }
    Ok(path)
}

// A loop of so many steps at the root.
fn loop_of(alloc: Global, count: usize) -> Result<Certificate, AllocError> {
    let path = root_steps(alloc, count)?;
    let (start, place) = (Term::Var(0), Position::new(alloc));
    let step = Step::Loop { start, path, place };
    Ok(Certificate {
        version: 1,
        headline: false,
        claim: Claim::Nonterminating,
        steps: Vec::from_array(alloc, [NodeStep { node: 0, step }])?,
    })
}

fn loop_fits(alloc: Global, steps: usize) -> Result<bool, Fail> {
    let certificate = loop_of(alloc, steps)?;
    Ok(fits_version_two(alloc, &certificate)?)
}

#[test]
fn a_text_has_a_greatest_weight(rt: HostRuntime) -> Result<(), Fail> {
    assert!(rt; loop_fits(rt.alloc(), 8_388_608)?);
    assert!(rt; !loop_fits(rt.alloc(), 8_388_609)?);
    Ok(())
}

const PROBLEM: &[u8] = b"(format TRS)\n(fun f 1)\n(rule (f x) (f (f x)))\n";

// A head, and the definition of a path of one step.
const ONE_STEP: &[u8] = b"NO\n(certificate 2 nonterminating)\n(define q0 (path (at () 0)))\n";

// What a text of at most so many bytes says.
fn read(alloc: Global, text: &[u8]) -> Result<Certificate, CertFault> {
    let Ok(system) = read_problem(alloc, PROBLEM) else {
        return Err(CertFault::OutOfMemory);
    };
    if text.len() > 10_000 {
        return Err(CertFault::OutOfMemory);
    }
    read_certificate(alloc, &system, text)
}

// Adds the definition of a path that uses the one before it twice, and says where the path stands.
fn put_double(alloc: Global, text: &mut Vec<u8>, k: u32) -> Result<usize, Fail> {
    let name = format!(in alloc; "(define q{} ", k.saturating_add(1))?;
    text.extend_from_slice(name.as_bytes())?;
    let place = text.len();
    let path = format!(in alloc; "(path (use () q{k}) (use () q{k})))\n")?;
    text.extend_from_slice(path.as_bytes())?;
    Ok(place)
}

// The paths q0 to q22 weigh 8,388,607 together.
#[test]
fn a_path_past_the_greatest_weight_is_refused(rt: HostRuntime) -> Result<(), Fail> {
    let alloc = rt.alloc();
    let mut text = Vec::from_slice(alloc, ONE_STEP)?;
    let mut place = 0;
    for k in 0..23 {
        place = put_double(alloc, &mut text, k)?;
    }
    let refused = read(alloc, &text);
    assert!(rt; matches!(refused, Err(CertFault::Text(at)) if at as usize == place));
    Ok(())
}

// A loop by a path of 100 steps, in as many definitions.
fn one_by_one(alloc: Global) -> Result<Vec<u8>, AllocError> {
    let mut text = Vec::from_slice(alloc, ONE_STEP)?;
    for k in 0..99u32 {
        let line = format!(in alloc; "(define q{} (path (use (1) q{k}) (at () 0)))\n", k + 1)?;
        text.extend_from_slice(line.as_bytes())?;
    }
    text.extend_from_slice(b"(step 0 (loop (f x) (path (use () q99)) ()))\n")?;
    Ok(text)
}

// Whether these are 100 steps, each at a place of one number less than the step before it.
fn go_up(path: &[PathStep]) -> bool {
    for (k, step) in path.iter().enumerate() {
        if Some(step.place.places().len()) != 99usize.checked_sub(k) {
            return false;
        }
    }
    path.len() == 100
}

#[test]
fn a_path_uses_the_one_before_it(rt: HostRuntime) -> Result<(), Fail> {
    let certificate = read(rt.alloc(), &one_by_one(rt.alloc())?)?;
    let [
        NodeStep {
            step: Step::Loop { path, .. },
            ..
        },
    ] = certificate.steps.as_slice()
    else {
        return Err(Fail::new("a loop"));
    };
    assert!(rt; go_up(path));
    Ok(())
}
