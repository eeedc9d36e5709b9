//! Terms are matched, applied, replaced and copied.
use crate::made::{position, term};
use std::alloc::Global;
use std::test::Fail;
use trs_core::{Args, OutOfMemory, Position, Subst, Term, match_term};

/// A pair of a variable twice.
fn twice(alloc: Global, x: u32) -> Result<Term, OutOfMemory> {
    term(alloc, 0, [Term::Var(x), Term::Var(x)])
}

/// Whether a term matches a pattern, and is the pattern's instance by the match.
fn matches(alloc: Global, pattern: &Term, t: &Term) -> Result<bool, Fail> {
    let found = match_term(alloc, pattern, t)?.ok_or("no match")?;
    Ok(found.apply(alloc, pattern)?.same(t))
}

#[test]
fn a_match_is_applied(rt: HostRuntime) -> Result<(), Fail> {
    let alloc = rt.alloc();
    assert!(rt; matches(alloc, &twice(alloc, 0)?, &twice(alloc, 5)?)?);
    Ok(())
}

#[test]
fn a_variable_is_listed_once(rt: HostRuntime) -> Result<(), Fail> {
    let pair = twice(rt.alloc(), 5)?;
    assert!(rt; pair.vars(rt.alloc())?.as_slice() == [5].as_slice());
    assert!(rt; !pair.is_linear());
    Ok(())
}

/// Variables 0, 7, 14 and so on up to 20,993, and then this one.
fn sevens(alloc: Global, last: u32) -> Result<Term, OutOfMemory> {
    let mut items = Vec::new(alloc);
    for i in 0..3_000 {
        items.push(Term::Var(7 * i))?;
    }
    items.push(Term::Var(last))?;
    Ok(Term::App(0, Args { items }))
}

#[test]
fn one_of_many_variables_is_repeated(rt: HostRuntime) -> Result<(), Fail> {
    for (last, want) in &[
        (0, false),
        (1_022, false),
        (7_168, false),
        (20_993, false),
        (1, true),
    ] {
        assert!(rt; sevens(rt.alloc(), *last)?.is_linear() == *want);
    }
    Ok(())
}

/// A pair of variables 0 and 1, copied.
fn copied_pair(alloc: Global) -> Result<Term, OutOfMemory> {
    term(alloc, 0, [Term::Var(0), Term::Var(1)])?.copy(alloc)
}

/// The place of the second argument, copied.
fn copied_place(alloc: Global) -> Result<Position, OutOfMemory> {
    position(alloc, &[2])?.copy(alloc)
}

/// That pair with variable 2 in place of the second.
fn replaced(alloc: Global) -> Result<Term, Fail> {
    let pair = copied_pair(alloc)?;
    Ok(pair.replace(alloc, &copied_place(alloc)?, &Term::Var(2))?)
}

/// An instance of a term, with variable 3 for variable 2.
fn instance(alloc: Global, t: &Term) -> Result<Term, Fail> {
    let mut bindings = Subst::new(alloc);
    bindings.insert(2, Term::Var(3))?;
    Ok(bindings.apply(alloc, t)?)
}

#[test]
fn a_copy_is_replaced(rt: HostRuntime) -> Result<(), Fail> {
    let alloc = rt.alloc();
    let last = instance(alloc, &replaced(alloc)?)?;
    let want = term(alloc, 0, [Term::Var(0), Term::Var(3)])?;
    assert!(rt; last.same(&want));
    Ok(())
}
