//! Lists of reachable terms.
ghost use Rattle.term_pool.specs.Redexes.{IsNarrow};
ghost use Rattle.trs_core.specs.View.{tree};

use crate::made::term;
use crate::texts::{ARITIES, system};
use rewrite_core::{Reached, reach, run_path};
use std::alloc::Global;
use std::test::Fail;
use trs_core::{Term, Trs};

fn is_among(found: &[Reached], t: &Term) -> bool {
    for one in found {
        if one.term.same(t) {
            return true;
        }
    }
    false
}

/// Whether each listed term is the end of its path, and no term is listed twice.
fn is_list_of(alloc: Global, trs: &Trs, start: &Term, found: &[Reached]) -> Result<bool, Fail> {
    for (i, one) in found.iter().enumerate() {
        let end = run_path(alloc, trs, start, &one.path)?;
        if !end.same(&one.term) || is_among(&found[..i], &one.term) {
            return Ok(false);
        }
    }
    Ok(true)
}

/// How many terms are listed within these limits, if the list is right.
fn count_of(
    alloc: Global,
    trs: &Trs,
    start: &Term,
    depth: u32,
    most: u32,
) -> Result<Option<usize>, Fail>
    requires { IsNarrow (tree start.now) }
{
    let found = reach(alloc, trs, start, depth, most, 4_096)?;
    let is_right = is_list_of(alloc, trs, start, &found)?;
    Ok(is_right.then_some(found.len()))
}

/// By `f(x, y) -> f(y, x)` and `g(c) -> c` the term `f(x, y)` reaches one other one.
#[test]
fn terms_are_reached_once(rt: HostRuntime) -> Result<(), Fail> {
    let alloc = rt.alloc();
    let trs = system(alloc, &ARITIES, &[(b"c01", b"c10"), (b"ba", b"a")])?;
    let start = term(alloc, 2, [Term::Var(0), Term::Var(1)])?;
    assert!(rt; count_of(alloc, &trs, &start, 8, 32)? == Some(2));
    Ok(())
}

/// How many terms are listed of those that `g(x)` reaches by `f(x, y) -> f(y, x)` and
/// `g(x) -> f(x, x)`, which is one other one.
fn count_of_two(alloc: Global, depth: u32, most: u32) -> Result<Option<usize>, Fail> {
    let trs = system(alloc, &ARITIES, &[(b"c01", b"c10"), (b"b0", b"c00")])?;
    let start = term(alloc, 1, [Term::Var(0)])?;
    count_of(alloc, &trs, &start, depth, most)
}

#[test]
fn limits_of_depth_and_count(rt: HostRuntime) -> Result<(), Fail> {
    for (depth, most, want) in &[(8, 32, 2), (8, 1, 1), (0, 32, 1)] {
        let found = count_of_two(rt.alloc(), *depth, *most)?;
        assert!(rt; found == Some(*want), "within {depth} and {most}");
    }
    Ok(())
}
