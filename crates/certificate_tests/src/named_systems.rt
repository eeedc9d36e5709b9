//! Addition with names for its symbols.
use ari_text::{NamedTrs, NamesFault};
use std::alloc::{AllocError, Global};
use std::test::*;
use trs_core::{Args, Rule, Term, Trs};

fn plus(alloc: Global, second: Term) -> Result<Term, AllocError> {
    Ok(Term::App(2, Args::new(vec![in alloc; Term::Var(0), second]?)))
}

fn successor(alloc: Global, argument: Term) -> Result<Term, AllocError> {
    Ok(Term::App(1, Args::new(vec![in alloc; argument]?)))
}

fn of_zero(alloc: Global) -> Result<Rule, AllocError> {
    let zero = Term::App(0, Args::new(Vec::new(alloc)));
    Ok(Rule {
        left: plus(alloc, zero)?,
        right: Term::Var(0),
    })
}

fn of_successor(alloc: Global) -> Result<Rule, AllocError> {
    let left = plus(alloc, successor(alloc, Term::Var(1))?)?;
    let right = successor(alloc, plus(alloc, Term::Var(1))?)?;
    Ok(Rule { left, right })
}

fn rules(alloc: Global) -> Result<Vec<Rule>, AllocError> {
    let mut rules = Vec::new(alloc);
    rules.push(of_zero(alloc)?)?;
    rules.push(of_successor(alloc)?)?;
    Ok(rules)
}

fn copied(alloc: Global, names: [&[u8]; 3]) -> Result<Vec<Vec<u8>>, AllocError> {
    let mut own = Vec::new(alloc);
    for name in names {
        own.push(Vec::from_slice(alloc, name)?)?;
    }
    Ok(own)
}

/// Addition over symbols 0, 1 and 2, with these names.
fn addition(alloc: Global, names: [&[u8]; 3]) -> Result<Result<NamedTrs, NamesFault>, Fail> {
    let trs = Trs::new(Vec::from_slice(alloc, &[0, 1, 2])?, rules(alloc)?)?;
    Ok(NamedTrs::new(alloc, copied(alloc, names)?, trs))
}

#[test]
fn a_name_stands_once(rt: HostRuntime) -> Result<(), Fail> {
    let refused = addition(rt.alloc(), [b"0", b"s", b"s"])?;
    assert!(rt; matches!(refused, Err(NamesFault::BadName(2))));
    Ok(())
}
