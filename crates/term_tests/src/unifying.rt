//! Large terms are unified at once.
use crate::exploding::{chain, double};
use crate::made::term;
use crate::texts::{ARITIES, read};
use std::alloc::Global;
use std::test::Fail;
use trs_core::{Args, OutOfMemory, Term};
use trs_unify::unify;

/// The size and the depth of the instance of a term, if it is refused, by its unifier with another.
fn refused_size(alloc: Global, a: &Term, b: &Term) -> Result<Option<(u64, u64)>, Fail> {
    let unifier = unify(alloc, a, b)?.ok_or("no unifier")?;
    let is_refused = unifier.instance(alloc, a).is_err();
    let is_other = unifier.instance_size(&Term::Var(5000)).is_none();
    Ok(if is_refused && is_other {
        unifier.instance_size(a)
    } else {
        None
    })
}

/// The sides of the exploding system's overlap.
#[test]
fn an_exploding_instance_is_measured(rt: HostRuntime) -> Result<(), Fail> {
    let alloc = rt.alloc();
    let a = double(alloc, 120)?;
    let b = chain(alloc, 120, 1000)?;
    assert!(rt; refused_size(alloc, &a, &b)? == Some((1_000_000, 122)));
    Ok(())
}

/// f(g(x), g(x))
fn pair_of_units(alloc: Global, x: u32) -> Result<Term, OutOfMemory> {
    let first = term(alloc, 1, [Term::Var(x)])?;
    let second = term(alloc, 1, [Term::Var(x)])?;
    term(alloc, 0, [first, second])
}

/// f(x, x)
fn pair(alloc: Global, x: u32) -> Result<Term, OutOfMemory> {
    term(alloc, 0, [Term::Var(x), Term::Var(x)])
}

/// f(g(x), g(x)) of an even variable x, and g(f(x, x)) of an odd one.
fn alternately(alloc: Global, x: u32) -> Result<Term, OutOfMemory> {
    if x % 2 == 0 {
        pair_of_units(alloc, x)
    } else {
        term(alloc, 1, [pair(alloc, x)?])
    }
}

/// The left sides of the equations of x2 and f(g(x0), g(x0)), of x3 and g(f(x1, x1)), of x4 and so
/// on up to so many variables, and last of two such terms.
fn left_sides(alloc: Global, count: u32) -> Result<Term, OutOfMemory> {
    let mut items = Vec::new(alloc);
    for x in 0..count {
        items.push(Term::Var(x.saturating_add(2)))?;
    }
    items.push(pair_of_units(alloc, count)?)?;
    Ok(Term::App(2, Args { items }))
}

/// The right sides.
fn right_sides(alloc: Global, count: u32) -> Result<Term, OutOfMemory> {
    let mut items = Vec::new(alloc);
    for x in 0..count {
        items.push(alternately(alloc, x)?)?;
    }
    items.push(pair(alloc, count.saturating_add(1))?)?;
    Ok(Term::App(2, Args { items }))
}

/// Equal subterms that are met in turn as a variable and as a symbol: with bindings of variables
/// to terms they would be compared 2^60 times.
#[test]
fn alternating_terms_are_unified(rt: HostRuntime) -> Result<(), Fail> {
    let a = left_sides(rt.alloc(), 120)?;
    let b = right_sides(rt.alloc(), 120)?;
    assert!(rt; unify(rt.alloc(), &a, &b)?.is_some());
    Ok(())
}

/// A list of so many constants, and then the last one.
fn list(alloc: Global, count: u32, last: u32) -> Result<Term, OutOfMemory> {
    let mut items = Vec::new(alloc);
    for _ in 0..count {
        items.push(term(alloc, 1, [])?)?;
    }
    items.push(term(alloc, last, [])?)?;
    Ok(Term::App(0, Args { items }))
}

/// Whether two long lists have a unifier, with these last constants.
fn long_lists_are_unified(alloc: Global, first: u32, second: u32) -> Result<bool, OutOfMemory> {
    let first = list(alloc, 32_000, first)?;
    let second = list(alloc, 32_000, second)?;
    Ok(unify(alloc, &first, &second)?.is_some())
}

#[test]
fn large_terms_differ_at_the_end(rt: HostRuntime) -> Result<(), Fail> {
    assert!(rt; long_lists_are_unified(rt.alloc(), 1, 1)?);
    assert!(rt; !long_lists_are_unified(rt.alloc(), 1, 2)?);
    Ok(())
}

/// Whether two terms over `a`, the unary `b` and the binary `c` have a unifier.
fn are_unified(alloc: Global, first: &[u8], second: &[u8]) -> Result<bool, Fail> {
    let first = read(alloc, &ARITIES, first)?;
    let second = read(alloc, &ARITIES, second)?;
    Ok(unify(alloc, &first, &second)?.is_some())
}

/// Whether the instance of a term, by its unifier with another, has the same two arguments.
fn are_made_the_same(alloc: Global, a: &Term, b: &Term) -> Result<bool, Fail> {
    let unifier = unify(alloc, a, b)?.ok_or("no unifier")?;
    Ok(has_the_same(&unifier.instance(alloc, a)?))
}

fn has_the_same(t: &Term) -> bool {
    match t {
        Term::App(_, args) => { args.items.len() == 2 && args.items[0].same(&args.items[1]) }
        Term::Var(_) => false,
    }
}

/// `f(x, g(y))` and `f(g(z), x)` become `f(g(y), g(y))`.
#[test]
fn variables_meet_symbols(rt: HostRuntime) -> Result<(), Fail> {
    let alloc = rt.alloc();
    let a = read(alloc, &ARITIES, b"c0b1")?;
    let b = read(alloc, &ARITIES, b"cb20")?;
    assert!(rt; are_made_the_same(alloc, &a, &b)?);
    Ok(())
}

/// A variable is in no term of itself.
#[test]
fn variables_are_in_no_term_of_themselves(rt: HostRuntime) -> Result<(), Fail> {
    assert!(rt; !are_unified(rt.alloc(), b"c00", b"c1b1")?);
    assert!(rt; !are_unified(rt.alloc(), b"1", b"b1")?);
    Ok(())
}
