//! The finders of what confluence needs: what is found at critical peaks, and that a stop is seen
//! before the first.
ghost use Rattle.std.specs.Prelude.{Ok};
ghost use Rattle.crit_pairs.specs.PeakList.{ListsPeaks};

use crate::lettered::constants;
use crate::made::term;
use crate::stops::{BUDGET, Ending, at_once, ending_of, never};
use conf_find::{find_fork, find_split, fork_among, split_among};
use crit_pairs::{UnbuiltTop, critical_pairs, pooled_peaks, shared_peaks, top_of};
use finder_cases::StopAt;
use join_find::{
    find_newman, find_parallel, find_strong, newman_among, parallel_among, strong_among,
};
use label_find::{find_label, label_among};
use rewrite_core::{BuiltTop, Peak, SharedSide};
use std::alloc::Global;
use std::test::Fail;
use trs_core::{OutOfMemory, Rule, Term, Trs};

/// `a -> b` twice: both critical peaks are closed by no steps.
fn closed_system(alloc: Global) -> Result<Trs, Fail> {
    constants(alloc, 2, &[(0, 1), (0, 1)])
}

/// `a -> b` and `a -> c`: the critical peaks lead to different normal forms.
fn forked_system(alloc: Global) -> Result<Trs, Fail> {
    constants(alloc, 3, &[(0, 1), (0, 2)])
}

/// A term of 255 nodes: a tree over one constant.
fn large(alloc: Global, constant: u32) -> Result<Term, OutOfMemory> {
    let mut tree = term(alloc, constant, [])?;
    for _ in 0..7 {
        let other = tree.copy(alloc)?;
        tree = term(alloc, 3, [tree, other])?;
    }
    Ok(tree)
}

/// The constant `a` goes to the large trees over two constants.
fn large_system(alloc: Global, first: u32, second: u32) -> Result<Trs, Fail> {
    let mut rules = Vec::new(alloc);
    for constant in [first, second] {
        rules.push(Rule {
            left: term(alloc, 0, [])?,
            right: large(alloc, constant)?,
        })?;
    }
    let arities = Vec::from_array(alloc, [0, 0, 0, 2])?;
    Ok(Trs::new(arities, rules)?)
}

/// `f(f(x)) -> x` and `f(f(x)) -> f(a)`: they overlap at the root and below it.
fn overlapping_system(alloc: Global) -> Result<Trs, Fail> {
    let mut rules = Vec::new(alloc);
    rules.push(Rule {
        left: twice(alloc, Term::Var(0))?,
        right: Term::Var(0),
    })?;
    let a = term(alloc, 1, [])?;
    rules.push(Rule {
        left: twice(alloc, Term::Var(0))?,
        right: term(alloc, 0, [a])?,
    })?;
    Ok(Trs::new(Vec::from_array(alloc, [1, 0])?, rules)?)
}

/// The symbol 0 on itself on a term.
fn twice(alloc: Global, t: Term) -> Result<Term, OutOfMemory> {
    let inside = term(alloc, 0, [t])?;
    term(alloc, 0, [inside])
}

/// A finder of joins, of ranks or of what is not joined.
#[derive(Debug)]
enum Finder {
    Joins,
    ParallelSteps,
    StrongJoins,
    Ranks,
    Forks,
    Splits,
}

/// What a finder says of a system's critical peaks.
fn of_system(alloc: Global, finder: &Finder, trs: &Trs, stop: &mut StopAt) -> Result<Ending, Fail> {
    let peaks = critical_pairs(alloc, trs)?;
    of_peaks(alloc, finder, trs, &peaks, stop)
}

/// The same, where peaks may share their sides.
fn of_shared(alloc: Global, finder: &Finder, trs: &Trs) -> Result<Ending, Fail> {
    let peaks = shared_peaks(alloc, trs)?;
    of_peaks(alloc, finder, trs, &peaks, &mut never())
}

fn of_peaks<T: BuiltTop>(
    alloc: Global,
    finder: &Finder,
    trs: &Trs,
    peaks: &[Peak<T>],
    stop: &mut StopAt,
) -> Result<Ending, Fail>
    requires { ListsPeaks trs.now.rules (Ok peaks.now) }
{
    let ending = match finder {
        Finder::Joins => ending_of(find_newman(alloc, trs, peaks, stop)),
        Finder::ParallelSteps => ending_of(find_parallel(alloc, trs, peaks, stop)),
        Finder::StrongJoins => ending_of(find_strong(alloc, trs, peaks, stop)),
        Finder::Ranks => ending_of(find_label(alloc, trs, peaks, BUDGET, stop)),
        Finder::Forks => ending_of(find_fork(alloc, trs, peaks, stop)),
        Finder::Splits => ending_of(find_split(alloc, trs, peaks, stop)),
    };
    Ok(ending?)
}

/// The same, where the sides of peaks stand in one pool.
fn of_pooled(alloc: Global, finder: &Finder, trs: &Trs) -> Result<Ending, Fail> {
    let found = pooled_peaks(alloc, trs)?;
    let (peaks, pairs) = (&found.list, &found.pairs);
    let stop = &mut never();
    let ending = match finder {
        Finder::Joins => ending_of(newman_among(alloc, trs, peaks, pairs, stop)),
        Finder::ParallelSteps => ending_of(parallel_among(alloc, trs, peaks, pairs, stop)),
        Finder::StrongJoins => ending_of(strong_among(alloc, trs, peaks, pairs, stop)),
        Finder::Ranks => ending_of(label_among(alloc, trs, peaks, pairs, BUDGET, stop)),
        Finder::Forks => ending_of(fork_among(alloc, trs, peaks, pairs, stop)),
        Finder::Splits => ending_of(split_among(alloc, trs, peaks, pairs, stop)),
    };
    Ok(ending?)
}

#[test]
fn finders_at_closed_peaks(rt: HostRuntime) -> Result<(), Fail> {
    let trs = closed_system(rt.alloc())?;
    for finder in &[
        Finder::Joins,
        Finder::ParallelSteps,
        Finder::StrongJoins,
        Finder::Ranks,
    ] {
        let stopped = of_system(rt.alloc(), finder, &trs, &mut at_once())?;
        assert!(rt; matches!(stopped, Ending::Stopped), "by {finder:?}");
        let found = of_system(rt.alloc(), finder, &trs, &mut never())?;
        assert!(rt; matches!(found, Ending::Found), "by {finder:?}");
        let same = of_shared(rt.alloc(), finder, &trs)?;
        assert!(rt; matches!(same, Ending::Found), "by {finder:?}");
        let pooled = of_pooled(rt.alloc(), finder, &trs)?;
        assert!(rt; matches!(pooled, Ending::Found), "by {finder:?}");
    }
    Ok(())
}

#[test]
fn finders_at_different_normal_forms(rt: HostRuntime) -> Result<(), Fail> {
    let trs = forked_system(rt.alloc())?;
    for finder in &[Finder::Forks, Finder::Splits] {
        let stopped = of_system(rt.alloc(), finder, &trs, &mut at_once())?;
        assert!(rt; matches!(stopped, Ending::Stopped), "by {finder:?}");
        let found = of_system(rt.alloc(), finder, &trs, &mut never())?;
        assert!(rt; matches!(found, Ending::Found), "by {finder:?}");
        let same = of_shared(rt.alloc(), finder, &trs)?;
        assert!(rt; matches!(same, Ending::Found), "by {finder:?}");
        let pooled = of_pooled(rt.alloc(), finder, &trs)?;
        assert!(rt; matches!(pooled, Ending::Found), "by {finder:?}");
    }
    Ok(())
}

#[test]
fn finders_at_sides_in_a_pool(rt: HostRuntime) -> Result<(), Fail> {
    let trs = overlapping_system(rt.alloc())?;
    let forked = of_pooled(rt.alloc(), &Finder::Splits, &trs)?;
    let same = of_system(rt.alloc(), &Finder::Splits, &trs, &mut never())?;
    assert!(rt; matches!(forked, Ending::Found));
    assert!(rt; matches!(same, Ending::Found));
    Ok(())
}

#[test]
fn peaks_share_large_right_sides(rt: HostRuntime) -> Result<(), Fail> {
    let trs = large_system(rt.alloc(), 1, 2)?;
    let peaks = shared_peaks(rt.alloc(), &trs)?;
    assert!(rt; peaks.len() == 2);
    for peak in &peaks {
        assert!(rt; matches!(&peak.left, SharedSide::Shared(_)));
        assert!(rt; matches!(&peak.right, SharedSide::Shared(_)));
    }
    Ok(())
}

/// The tops of peaks that are not built.
fn tops_of(alloc: Global, trs: &Trs, peaks: &[Peak<UnbuiltTop>]) -> Result<Vec<Term>, OutOfMemory>
    requires { ListsPeaks trs.now.rules (Ok peaks.now) }
{
    let mut tops = Vec::new(alloc);
    for peak in peaks {
        tops.push(top_of(alloc, trs, peak)?)?;
    }
    Ok(tops)
}

#[test]
fn tops_are_built_of_their_peaks(rt: HostRuntime) -> Result<(), Fail> {
    let trs = overlapping_system(rt.alloc())?;
    let listed = critical_pairs(rt.alloc(), &trs)?;
    let tops = tops_of(rt.alloc(), &trs, &shared_peaks(rt.alloc(), &trs)?)?;
    assert!(rt; tops.len() == 6);
    assert!(rt; listed.len() == tops.len());
    for (peak, top) in listed.iter().zip(&tops) {
        assert!(rt; peak.top.same(top));
    }
    Ok(())
}

#[test]
fn finders_at_shared_sides(rt: HostRuntime) -> Result<(), Fail> {
    let closed = large_system(rt.alloc(), 1, 1)?;
    let joined = of_shared(rt.alloc(), &Finder::Joins, &closed)?;
    assert!(rt; matches!(joined, Ending::Found));
    let forked = large_system(rt.alloc(), 1, 2)?;
    let split = of_shared(rt.alloc(), &Finder::Splits, &forked)?;
    assert!(rt; matches!(split, Ending::Found));
    Ok(())
}
