//! Certificates are printed with other variables than they are read with.
use ari_text::{NamedTrs, read_problem};
use certifier::{print_certificate, print_step, read_certificate};
use std::alloc::Global;
use std::test::*;

// The system with the one rule f(x) -> f(f(x)).
const PROBLEM: &[u8] = b"(format TRS)\n(fun f 1)\n(rule (f x) (f (f x)))\n";

// Texts, and what is printed of each.
const PRINTED: [(&[u8], &[u8]); 3] = [
    (
        b"NO(certificate 1 nonterminating)(step 0 (loop (f y) (path (at () 0)) (1)))",
        b"NO\n(certificate 1 nonterminating)\n(step 0 (loop (f _0) (path (at () 0)) (1)))\n",
    ),
    (
        b"YES\n(certificate 1 confluent)\n(step 7 (fork (f (f z)) (path (at (1) 0)) (path) normal))",
        b"YES\n(certificate 1 confluent)\n(step 7 (fork (f (f _0)) (path (at (1) 0)) (path) normal))\n",
    ),
    (
        b"NO (certificate 1 terminating) (step 0 (loop x (path) ())) (step 1 (loop y (path) ()))",
        b"NO\n(certificate 1 terminating)\n(step 0 (loop _0 (path) ()))\n(step 1 (loop _0 (path) ()))\n",
    ),
];

// Each method on dependency pairs, as it is printed.
const ON_PAIRS: &[u8] =
    b"YES\n(certificate 1 terminating)\n(step 0 (dp))\n(step 1 (graph (group 0 2) (single 1)))\n(step 2 (subterm (f 1)))\n(step 3 (poly (sym f 1 1) (mark f 0 9223372036854775807)))\n(step 4 (lpo (sym f 1 (1)) (mark f 0 1)))\n(step 5 (kbo (sym f 0 2) (mark f 1 1)))\n(step 6 (usable-poly (mark f 1 0)))\n";

fn print(alloc: Global, system: &NamedTrs, text: &[u8]) -> Result<Vec<u8>, Fail> {
    if text.len() > 1_000 {
        return Err(Fail::new("a short text"));
    }
    let certificate = read_certificate(alloc, system, text)?;
    Ok(print_certificate(alloc, system, &certificate)?)
}

fn is_printed_as(alloc: Global, text: &[u8], expected: &[u8]) -> Result<bool, Fail> {
    let system = read_problem(alloc, PROBLEM)?;
    let text = print(alloc, &system, text)?;
    Ok(text.as_slice() == expected)
}

// The first step of what a text says.
fn printed_step(alloc: Global, system: &NamedTrs, text: &[u8]) -> Result<Vec<u8>, Fail> {
    if text.len() > 1_000 {
        return Err(Fail::new("a short text"));
    }
    let certificate = read_certificate(alloc, system, text)?;
    let [step, ..] = certificate.steps.as_slice() else {
        return Err(Fail::new("a step"));
    };
    Ok(print_step(alloc, system, step)?)
}

#[test]
fn variables_get_numbers(rt: HostRuntime) -> Result<(), Fail> {
    for (text, expected) in &PRINTED {
        assert!(rt; is_printed_as(rt.alloc(), text, expected)?);
    }
    Ok(())
}

#[test]
fn steps_on_pairs_are_printed_as_they_are_read(rt: HostRuntime) -> Result<(), Fail> {
    assert!(rt; is_printed_as(rt.alloc(), ON_PAIRS, ON_PAIRS)?);
    Ok(())
}

#[test]
fn a_step_is_a_line(rt: HostRuntime) -> Result<(), Fail> {
    let system = read_problem(rt.alloc(), PROBLEM)?;
    let line = printed_step(rt.alloc(), &system, PRINTED[0].0)?;
    assert!(rt; line.as_slice() == b"(step 0 (loop (f _0) (path (at () 0)) (1)))".as_slice());
    Ok(())
}
