//! Systems as texts.
use std::alloc::Global;
use std::test::Fail;
use trs_core::{Args, OutOfMemory, Rule, Term, Trs};

/// The system whose symbols are numbered by these letters, with a text as `fsx>fx` for each rule:
/// `x`, `y` and `z` are variables, `>` stands between the sides, and each other letter is a symbol
/// before its arguments.
pub fn system(alloc: Global, letters: &[u8], texts: &[&[u8]]) -> Result<Trs, Fail> {
    let mut arities = Vec::new(alloc);
    for letter in letters {
        arities.push(arity(*letter))?;
    }
    let mut rules = Vec::new(alloc);
    for text in texts {
        rules.push(rule(alloc, letters, text)?)?;
    }
    Ok(Trs::new(arities, rules)?)
}

/// How many arguments the symbol of a letter has.
fn arity(letter: u8) -> u8 {
    match letter {
        b'f' | b'g' | b's' => 1,
        b'+' | b'p' => 2,
        b't' => 3,
        _ => 0,
    }
}

/// The number of a letter's symbol.
fn symbol(letters: &[u8], letter: u8) -> u32 {
    let mut number = 0u32;
    for other in letters {
        if *other == letter {
            return number;
        }
        number = number.saturating_add(1);
    }
    number
}

fn rule(alloc: Global, letters: &[u8], text: &[u8]) -> Result<Rule, OutOfMemory> {
    let mut stack = Vec::new(alloc);
    for letter in text.iter().rev() {
        push(alloc, &mut stack, letters, *letter)?;
    }
    let left = stack.pop().unwrap_or(Term::Var(3));
    let right = stack.pop().unwrap_or(Term::Var(3));
    Ok(Rule { left, right })
}

/// Puts what a letter says on the stack of the terms behind it.
fn push(
    alloc: Global,
    stack: &mut Vec<Term>,
    letters: &[u8],
    letter: u8,
) -> Result<(), OutOfMemory> {
    let term = match letter {
        b'>' => return Ok(()),
        b'x' => Term::Var(0),
        b'y' => Term::Var(1),
        b'z' => Term::Var(2),
        _ => {
            let mut items = Vec::new(alloc);
            for _ in 0..arity(letter) {
                items.push(stack.pop().unwrap_or(Term::Var(3)))?;
            }
            Term::App(symbol(letters, letter), Args { items })
        }
    };
    stack.push(term)?;
    Ok(())
}
