//! Problems are read and printed.
use ari_text::{print_problem, read_problem};
use std::alloc::Global;
use std::test::*;

// Names in bars and beyond ASCII, declared below their uses, and names like those of variables.
const BELOW: &[u8] =
    b"(format TRS)\n(rule (|:| (c) x) (++ x c))\n(fun |:| 2)\n(fun ++ 2)\n(fun c 0)\n(rule (++ \xc3\xa9 c) \xc3\xa9)\n";

const UNDERSCORES: &[u8] = b"(format TRS)\n(fun _0 1)\n(fun __ 0)\n(rule (_0 x) __)\n";

// The text that is printed of what a text says.
fn print(alloc: Global, text: &[u8]) -> Result<Vec<u8>, Fail> {
    if text.len() > 1_000 {
        return Ok(Vec::new(alloc));
    }
    let system = read_problem(alloc, text)?;
    Ok(print_problem(alloc, &system)?)
}

fn is_printed_as(alloc: Global, text: &[u8], expected: &[u8]) -> Result<bool, Fail> {
    Ok(print(alloc, text)?.as_slice() == expected)
}

// What is printed of each.
const BELOW_PRINTED: &[u8] =
    b"(format TRS)\n(fun |:| 2)\n(fun ++ 2)\n(fun c 0)\n(rule (|:| c _0) (++ _0 c))\n(rule (++ _0 c) _0)\n";

const UNDERSCORES_PRINTED: &[u8] = b"(format TRS)\n(fun _0 1)\n(fun __ 0)\n(rule (_0 ___0) __)\n";

#[test]
fn declarations_stand_first_and_variables_get_numbers(rt: HostRuntime) -> Result<(), Fail> {
    assert!(rt; is_printed_as(rt.alloc(), BELOW, BELOW_PRINTED)?);
    assert!(rt; is_printed_as(rt.alloc(), UNDERSCORES, UNDERSCORES_PRINTED)?);
    Ok(())
}
