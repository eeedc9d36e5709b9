//! Critical peaks that pass the limits, and such as have ids in a pool.
use crate::exploding::{chain, double};
use crate::lettered::constants;
use crate::texts::read;
use crit_pairs::{PeakFault, PooledPeaks, critical_pairs};
use std::alloc::Global;
use std::test::Fail;
use trs_core::{OutOfMemory, Rule, Trs};

/// The rule that takes the first term to c.
fn first_rule(alloc: Global, n: u32) -> Result<Rule, OutOfMemory> {
    let left = double(alloc, n)?;
    let right = read(alloc, &[], b"a")?;
    Ok(Rule { left, right })
}

/// The rule that takes the second term to d.
fn second_rule(alloc: Global, n: u32) -> Result<Rule, OutOfMemory> {
    let left = chain(alloc, n, 0)?;
    let right = read(alloc, &[], b"b")?;
    Ok(Rule { left, right })
}

/// The first rule in so many copies, and the second. The tops of their peaks have nodes in number of
/// about 2^(n + 3).
fn exploding(alloc: Global, n: u32, copies: u32) -> Result<Trs, Fail> {
    let mut rules = Vec::new(alloc);
    for _ in 0..copies {
        rules.push(first_rule(alloc, n)?)?;
    }
    rules.push(second_rule(alloc, n)?)?;
    let arities = Vec::from_array(alloc, [0, 0, 2, (2 * (n % 128)) as u8])?;
    Ok(Trs::new(arities, rules)?)
}

#[test]
fn a_top_has_almost_all_the_nodes_that_it_may(rt: HostRuntime) -> Result<(), Fail> {
    let peaks = critical_pairs(rt.alloc(), &exploding(rt.alloc(), 13, 1)?)?;
    assert!(rt; peaks.len() == 2);
    assert!(rt; peaks[0].top.size() == 65_503);
    Ok(())
}

/// No term that passes a limit is built, so that the last one is refused at once too.
#[test]
fn a_top_is_too_large(rt: HostRuntime) -> Result<(), Fail> {
    for n in [14, 40, 120] {
        let found = critical_pairs(rt.alloc(), &exploding(rt.alloc(), n, 1)?);
        assert!(rt; matches!(found, Err(PeakFault::TooLarge)));
    }
    Ok(())
}

/// There are 66 peaks of 65,505 nodes each, among others that are small.
#[test]
fn tops_are_too_many(rt: HostRuntime) -> Result<(), Fail> {
    let found = critical_pairs(rt.alloc(), &exploding(rt.alloc(), 13, 33)?);
    assert!(rt; matches!(found, Err(PeakFault::TooMany)));
    Ok(())
}

/// `a -> b` five times has 20 critical peaks.
#[test]
fn peaks_have_ids_where_there_are_no_more_than_asked_for(rt: HostRuntime) -> Result<(), Fail> {
    let trs = constants(rt.alloc(), 2, &[(0, 1), (0, 1), (0, 1), (0, 1), (0, 1)])?;
    let none = PooledPeaks::of(rt.alloc(), &trs, 19)?;
    assert!(rt; none.is_none());
    let found = PooledPeaks::of(rt.alloc(), &trs, 20)?;
    assert!(rt; found.is_some());
    if let Some(mut peaks) = found {
        assert!(rt; peaks.len() == 20);
        peaks.make_room();
        assert!(rt; peaks.len() == 20);
    }
    Ok(())
}
