//! The first samples, and the greatest.
use names_text::NamedTrs;
use sampling::sample_system;
use std::alloc::{AllocError, Global};
use std::test::*;
use trs_core::Term;

// Sizes, and the symbols with their arities and then the rules, with v0 and v1 for the variables.
const SAMPLES: [(u32, &[u8]); 3] = [
    (
        1,
        b"0 0, s 1, f0 2, \
      (f0 0 v0) -> v0, (f0 (s v0) v1) -> (s (f0 v0 v1)), ",
    ),
    (
        2,
        b"0 0, s 1, f0 2, f1 2, \
      (f0 0 v0) -> v0, (f0 (s v0) v1) -> (s (f0 v0 v1)), \
      (f1 0 v0) -> v0, (f1 (s v0) v1) -> (f1 v0 (f0 v1 v1)), ",
    ),
    (
        3,
        b"0 0, s 1, f0 2, f1 2, f2 2, \
      (f0 0 v0) -> v0, (f0 (s v0) v1) -> (s (f0 v0 v1)), \
      (f1 0 v0) -> v0, (f1 (s v0) v1) -> (f1 v0 (f0 v1 v1)), \
      (f2 0 v0) -> v0, (f2 (s v0) v1) -> (f2 v0 (f1 v1 v1)), ",
    ),
];

fn put_number(out: &mut Vec<u8>, number: u32) -> Result<(), AllocError> {
    let mut buffer = itoa::Buffer::new();
    out.extend_from_slice(buffer.format(number).as_bytes())
}

fn put_name(out: &mut Vec<u8>, system: &NamedTrs, symbol: u32) -> Result<(), AllocError> {
    if symbol < system.symbols() {
        out.extend_from_slice(system.name(symbol))?;
    }
    Ok(())
}

fn put_term(out: &mut Vec<u8>, system: &NamedTrs, term: &Term) -> Result<(), AllocError> {
    match term {
        Term::Var(v) => {
            out.push(b'v')?;
            put_number(out, *v)
        }
        Term::App(symbol, args) => {
            if args.items.is_empty() {
                return put_name(out, system, *symbol);
            }
            out.push(b'(')?;
            put_name(out, system, *symbol)?;
            for arg in &args.items {
                out.push(b' ')?;
                put_term(out, system, arg)?;
            }
            out.push(b')')?;
            Ok(())
        }
    }
}

fn put_system(out: &mut Vec<u8>, system: &NamedTrs) -> Result<(), AllocError> {
    for symbol in 0..system.symbols() {
        put_name(out, system, symbol)?;
        out.push(b' ')?;
        put_number(out, u32::from(system.arities()[symbol as usize]))?;
        out.extend_from_slice(b", ")?;
    }
    for rule in system.trs().rules() {
        put_term(out, system, &rule.left)?;
        out.extend_from_slice(b" -> ")?;
        put_term(out, system, &rule.right)?;
        out.extend_from_slice(b", ")?;
    }
    Ok(())
}

/// Whether the sample of this size has this text.
fn is_sample(alloc: Global, size: u32, expected: &[u8]) -> Result<bool, Fail> {
    if size == 0 || size > 512 {
        return Ok(false);
    }
    let system = sample_system(alloc, size)?;
    let mut text = Vec::new(alloc);
    put_system(&mut text, &system)?;
    Ok(text.as_slice() == expected)
}

#[test]
fn first_samples(rt: HostRuntime) -> Result<(), Fail> {
    for (size, expected) in &SAMPLES {
        assert!(rt; is_sample(rt.alloc(), *size, expected)?, "of size {size}");
    }
    Ok(())
}

fn is_greatest(system: &NamedTrs) -> bool {
    system.symbols() == 514
        && system.trs().rules().len() == 1_024
        && system.find(b"f511") == Some(513)
}

#[test]
fn greatest_sample(rt: HostRuntime) -> Result<(), Fail> {
    assert!(rt; is_greatest(&sample_system(rt.alloc(), 512)?));
    Ok(())
}
