//! Terms as texts, symbol first, one letter a node: `a` to `i` are the symbols from 0 on, and the
//! digits are the variables.

use std::alloc::Global;
use std::test::Fail;
use trs_core::{Args, OutOfMemory, Rule, Term, Trs};

/// How many arguments the symbols `a`, `b` and `c` have.
pub const ARITIES: [u8; 3] = [0, 1, 2];

fn is_variable(letter: u8) -> bool {
    letter.is_ascii_digit()
}

/// A symbol over so many terms of the stack.
pub fn over_top(
    alloc: Global,
    symbol: u32,
    arity: u8,
    stack: &mut Vec<Term>,
) -> Result<Term, OutOfMemory> {
    let mut items = Vec::new(alloc);
    for _ in 0..arity {
        items.push(stack.pop().unwrap_or(Term::Var(9)))?;
    }
    Ok(Term::App(symbol, Args { items }))
}

/// The node of a letter, over what has been read.
fn node(
    alloc: Global,
    arities: &[u8],
    letter: u8,
    stack: &mut Vec<Term>,
) -> Result<Term, OutOfMemory> {
    if is_variable(letter) {
        return Ok(Term::Var(u32::from(letter.saturating_sub(b'0'))));
    }
    let symbol = letter.saturating_sub(b'a');
    let arity = arities.get(usize::from(symbol)).copied().unwrap_or(0);
    over_top(alloc, u32::from(symbol), arity, stack)
}

/// The term of a text.
pub fn read(alloc: Global, arities: &[u8], text: &[u8]) -> Result<Term, OutOfMemory> {
    let mut stack = Vec::new(alloc);
    for letter in text.iter().rev() {
        let made = node(alloc, arities, *letter, &mut stack)?;
        stack.push(made)?;
    }
    Ok(stack.pop().unwrap_or(Term::Var(9)))
}

fn rule(alloc: Global, arities: &[u8], left: &[u8], right: &[u8]) -> Result<Rule, OutOfMemory> {
    let left = read(alloc, arities, left)?;
    let right = read(alloc, arities, right)?;
    Ok(Rule { left, right })
}

/// The system of the rules with these sides.
pub fn system(alloc: Global, arities: &[u8], sides: &[(&[u8], &[u8])]) -> Result<Trs, Fail> {
    let mut rules = Vec::new(alloc);
    for (left, right) in sides {
        rules.push(rule(alloc, arities, left, right)?)?;
    }
    Ok(Trs::new(Vec::from_slice(alloc, arities)?, rules)?)
}
