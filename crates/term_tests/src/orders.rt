//! The three orders on the rules of addition, and tables that are refused.
use crate::texts::over_top;
use kbo_order::{Kbo, KboEntry, KboFault};
use pair_order::{ReductionPair, TooBig};
use path_lpo::{Filter, Lpo, LpoEntry};
use poly_lin::{LinTable, TableFault};
use std::alloc::Global;
use std::test::Fail;
use trs_core::{Args, OutOfMemory, Term};

/// The variable of a letter: `x`, `y` and `z` are 0, 1 and 700.
fn variable(letter: u8) -> Option<u32> {
    match letter {
        b'x' => Some(0),
        b'y' => Some(1),
        b'z' => Some(700),
        _ => None,
    }
}

/// The symbol of a letter, and how many arguments it has: `0`, `s`, `+`, `d` and `k` are 0, 1, 2, 3
/// and 4, and `#` is the marked `+`.
fn symbol(letter: u8) -> (u32, u8) {
    match letter {
        b'0' => (0, 0),
        b's' => (1, 1),
        b'+' => (2, 2),
        b'#' => (4_098, 2),
        b'k' => (4, 1),
        _ => (3, 1),
    }
}

/// The node of a letter, over what has been read.
fn node(alloc: Global, letter: u8, stack: &mut Vec<Term>) -> Result<Term, OutOfMemory> {
    match variable(letter) {
        Some(x) => Ok(Term::Var(x)),
        None => {
            let (symbol, arity) = symbol(letter);
            over_top(alloc, symbol, arity, stack)
        }
    }
}

/// The term of a text, symbol first, one letter a node.
fn read(alloc: Global, text: &[u8]) -> Result<Term, OutOfMemory> {
    let mut stack = Vec::new(alloc);
    for letter in text.iter().rev() {
        let made = node(alloc, *letter, &mut stack)?;
        stack.push(made)?;
    }
    Ok(stack.pop().unwrap_or(Term::Var(2)))
}

/// Whether a term is weakly above another one, and strictly.
type Compared = (Result<bool, TooBig>, Result<bool, TooBig>);

/// Whether the terms of two texts compare as told.
fn compares<O: ReductionPair>(
    alloc: Global,
    order: &O,
    left: &[u8],
    right: &[u8],
    want: &Compared,
) -> Result<bool, OutOfMemory> {
    let left = read(alloc, left)?;
    let right = read(alloc, right)?;
    Ok((order.weak(&left, &right), order.strict(&left, &right)) == *want)
}

/// An interpretation, by symbols and their numbers.
fn linear(
    alloc: Global,
    of: &[(u32, &[u64])],
) -> Result<Result<LinTable, TableFault>, OutOfMemory> {
    let mut entries = Vec::new(alloc);
    for (symbol, numbers) in of {
        let numbers = Vec::from_slice(alloc, numbers)?;
        entries.push((*symbol, numbers))?;
    }
    Ok(LinTable::new(alloc, entries))
}

const OF_ADDITION: [(u32, &[u64]); 5] = [
    (0, &[0]),
    (1, &[1, 1]),
    (2, &[0, 1, 1]),
    (4_098, &[0, 1]),
    (3, &[0, 1 << 62]),
];

/// Two terms, and how the first compares with the second.
type Row<'a> = (&'a [u8], &'a [u8], Compared);

const BY_ADDITION: [Row; 3] = [
    (b"+sxy", b"s+xy", (Ok(true), Ok(false))),
    (b"#sxy", b"#xy", (Ok(true), Ok(true))),
    (b"ddx", b"x", (Err(TooBig), Err(TooBig))),
];

#[test]
fn a_linear_interpretation_compares(rt: HostRuntime) -> Result<(), Fail> {
    let table = linear(rt.alloc(), &OF_ADDITION)??;
    for (left, right, want) in &BY_ADDITION {
        assert!(rt; compares(rt.alloc(), &table, left, right, want)?);
    }
    Ok(())
}

#[test]
fn the_pairing_has_no_entry(rt: HostRuntime) -> Result<(), Fail> {
    let fault = linear(rt.alloc(), &[(8191, &[0])])?.err();
    assert!(rt; fault == Some(TableFault::Twice(8191)));
    Ok(())
}

/// The symbol 5 over the 250 variables from this one on.
fn block(alloc: Global, first: u32) -> Result<Term, OutOfMemory> {
    let mut items = Vec::new(alloc);
    for x in 0..250 {
        items.push(Term::Var(first.saturating_add(x)))?;
    }
    Ok(Term::App(5, Args { items }))
}

/// A term of the symbols 5 and 6 that has the variables from 0 to 749, and then this one.
fn wide(alloc: Global, last: &[u8]) -> Result<Term, OutOfMemory> {
    let mut items = Vec::new(alloc);
    for part in 0..3 {
        items.push(block(alloc, 250 * part)?)?;
    }
    items.push(read(alloc, last)?)?;
    Ok(Term::App(6, Args { items }))
}

const OF_MANY: [(u32, &[u64]); 6] = [
    (1, &[1, 1]),
    (2, &[0, 1, 1]),
    (3, &[0, 1 << 62]),
    (4, &[0, 0]),
    (5, &[1; 251]),
    (6, &[0, 1, 1, 1, 1]),
];

/// A coefficient that is too big is met where the argument counts, and where it counts for 0.
const BY_MANY: [Row; 8] = [
    (b"z", b"z", (Ok(true), Ok(false))),
    (b"sz", b"z", (Ok(true), Ok(true))),
    (b"z", b"+zz", (Ok(false), Ok(false))),
    (b"+zz", b"z", (Ok(true), Ok(false))),
    (b"+dzdx", b"z", (Ok(true), Ok(false))),
    (b"+dzdz", b"z", (Err(TooBig), Err(TooBig))),
    (b"k+dzdx", b"kz", (Ok(true), Ok(false))),
    (b"kz", b"k+dzdz", (Err(TooBig), Err(TooBig))),
];

/// Whether the terms that end with those of two texts compare as told.
fn compares_in_wide(
    alloc: Global,
    table: &LinTable,
    left: &[u8],
    right: &[u8],
    want: &Compared,
) -> Result<bool, OutOfMemory> {
    let left = wide(alloc, left)?;
    let right = wide(alloc, right)?;
    Ok((table.weak(&left, &right), table.strict(&left, &right)) == *want)
}

#[test]
fn a_linear_interpretation_compares_many_variables(rt: HostRuntime) -> Result<(), Fail> {
    let table = linear(rt.alloc(), &OF_MANY)??;
    for (left, right, want) in &BY_MANY {
        assert!(rt; compares_in_wide(rt.alloc(), &table, left, right, want)?);
    }
    Ok(())
}

/// A path order that keeps so many arguments, by symbols and ranks.
fn path(alloc: Global, of: &[(u32, u64, &[u8])]) -> Result<Lpo, Fail> {
    let mut entries = Vec::new(alloc);
    for (symbol, rank, places) in of {
        let filter = Filter::Keep(Vec::from_slice(alloc, places)?);
        entries.push(LpoEntry {
            symbol: *symbol,
            rank: *rank,
            filter,
        })?;
    }
    Ok(Lpo::new(alloc, entries)?)
}

const ABOVE: Compared = (Ok(true), Ok(true));

const NOT_ABOVE: Compared = (Ok(false), Ok(false));

#[test]
fn a_path_order_compares(rt: HostRuntime) -> Result<(), Fail> {
    let alloc = rt.alloc();
    let order = path(alloc, &[(1, 0, &[1]), (2, 1, &[1, 2])])?;
    assert!(rt; compares(alloc, &order, b"+sxy", b"s+xy", &ABOVE)?);
    assert!(rt; compares(alloc, &order, b"s+xy", b"+sxy", &NOT_ABOVE)?);
    Ok(())
}

/// An order where `s` and `+` weigh nothing and have these ranks.
fn knuth(alloc: Global, s: u64, plus: u64) -> Result<Result<Kbo, KboFault>, OutOfMemory> {
    let mut entries = Vec::new(alloc);
    for (symbol, arity, rank) in [(1, 1, s), (2, 2, plus)] {
        entries.push(KboEntry {
            symbol,
            arity,
            weight: 0,
            rank,
        })?;
    }
    Ok(Kbo::new(alloc, entries))
}

#[test]
fn a_knuth_bendix_order_compares(rt: HostRuntime) -> Result<(), Fail> {
    let alloc = rt.alloc();
    let order = knuth(alloc, 2, 1)??;
    assert!(rt; compares(alloc, &order, b"s+xy", b"+sxy", &ABOVE)?);
    assert!(rt; compares(alloc, &order, b"+sxy", b"s+xy", &NOT_ABOVE)?);
    Ok(())
}

#[test]
fn a_unary_symbol_of_weight_0_is_the_greatest(rt: HostRuntime) -> Result<(), Fail> {
    let fault = knuth(rt.alloc(), 0, 1)?.err();
    assert!(rt; fault == Some(KboFault::UnaryNotTop(1)));
    Ok(())
}
