//! Caps of terms, and terms that they keep apart.
ghost use Rattle.std.specs.Prelude.{◌≤◌};
ghost use Rattle.trs_core.specs.View.{tree};
ghost use Rattle.trs_defs.specs.Size.{size_of};

use crate::made::term;
use crate::texts::{ARITIES, read, system};
use nonjoin::apart;
use std::alloc::Global;
use std::test::Fail;
use trs_core::{Term, Trs};
use trs_unify::tcap;

/// `f(x, x) -> c` and `g(c) -> c`, with the symbols `c`, `g` and `f`.
fn two_rules(alloc: Global) -> Result<Trs, Fail> {
    system(alloc, &ARITIES, &[(b"c00", b"a"), (b"ba", b"a")])
}

/// Whether the cap of a term, by the two rules, is this term.
fn has_cap(alloc: Global, t: &Term, fixed: bool, want: &Term) -> Result<bool, Fail>
    requires { size_of (tree t.now) ≤ 65536 }
{
    let trs = two_rules(alloc)?;
    Ok(tcap(alloc, &trs, t, fixed)?.same(want))
}

#[test]
fn a_fixed_variable_keeps_its_symbol(rt: HostRuntime) -> Result<(), Fail> {
    let alloc = rt.alloc();
    let below = term(alloc, 1, [Term::Var(5)])?;
    let whole = term(alloc, 2, [Term::Var(5), below])?;
    assert!(rt; has_cap(alloc, &whole, true, &whole)?);
    assert!(rt; has_cap(alloc, &whole, false, &Term::Var(0))?);
    Ok(())
}

#[test]
fn a_marked_root_is_kept(rt: HostRuntime) -> Result<(), Fail> {
    let alloc = rt.alloc();
    let redex = term(alloc, 1, [term(alloc, 0, [])?])?;
    let marked = term(alloc, 4098, [redex, Term::Var(0)])?;
    let want = term(alloc, 4098, [Term::Var(1), Term::Var(0)])?;
    assert!(rt; has_cap(alloc, &marked, true, &want)?);
    Ok(())
}

/// Whether the terms of two texts are kept apart by `f(x, y) -> x`.
fn are_apart(alloc: Global, first: &[u8], second: &[u8]) -> Result<bool, Fail> {
    let trs = system(alloc, &ARITIES, &[(b"c01", b"0")])?;
    let first = read(alloc, &ARITIES, first)?;
    let second = read(alloc, &ARITIES, second)?;
    if first.size() > 9 || second.size() > 9 {
        return Err(Fail::new("small terms"));
    }
    Ok(apart(alloc, &trs, &first, &second)?)
}

#[test]
fn one_variable_is_one_constant(rt: HostRuntime) -> Result<(), Fail> {
    assert!(rt; are_apart(rt.alloc(), b"0", b"1")?);
    assert!(rt; !are_apart(rt.alloc(), b"1", b"1")?);
    assert!(rt; !are_apart(rt.alloc(), b"0", b"c0b0")?);
    Ok(())
}
