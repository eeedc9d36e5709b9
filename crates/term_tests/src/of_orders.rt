//! The finders of places and orders on addition: what removes a pair is found, and a stop is seen
//! before the first attempt.
use crate::stops::{BUDGET, Ending, at_once, ending_of, never};
use dp_core::dependency_pairs;
use finder_cases::{StopAt, all_numbers, system};
use kbo_find::find_kbo;
use lpo_find::find_lpo;
use order_find::find_subterm;
use poly_find::{find_poly, find_usable};
use std::alloc::Global;
use std::test::Fail;
use trs_core::Trs;

/// `+(0, y) -> y` and `+(s(x), y) -> s(+(x, y))`.
fn addition(alloc: Global) -> Result<Trs, Fail> {
    system(alloc, b"0s+", &[b"+0y>y", b"+sxy>s+xy"])
}

/// A finder of places or orders.
#[derive(Debug)]
enum Finder {
    Places,
    Linear,
    LinearOfUsableRules,
    PathOrders,
    KnuthBendixOrders,
}

/// What a finder says of the pairs of addition.
fn of_addition(alloc: Global, finder: &Finder, stop: &mut StopAt) -> Result<Ending, Fail> {
    let trs = addition(alloc)?;
    let all = dependency_pairs(alloc, &trs)?;
    let problem = all_numbers(alloc, &trs, &all)?;
    let ending = match finder {
        Finder::Places => ending_of(find_subterm(alloc, &trs, &all, &problem, BUDGET, stop)),
        Finder::Linear => ending_of(find_poly(alloc, &trs, &all, &problem, BUDGET, stop)),
        Finder::LinearOfUsableRules => {
            ending_of(find_usable(alloc, &trs, &all, &problem, BUDGET, stop))
        }
        Finder::PathOrders => ending_of(find_lpo(alloc, &trs, &all, &problem, BUDGET, stop)),
        Finder::KnuthBendixOrders => ending_of(find_kbo(alloc, &trs, &all, &problem, BUDGET, stop)),
    };
    Ok(ending?)
}

#[test]
fn finders_of_places_and_orders(rt: HostRuntime) -> Result<(), Fail> {
    for finder in &[
        Finder::Places,
        Finder::Linear,
        Finder::LinearOfUsableRules,
        Finder::PathOrders,
        Finder::KnuthBendixOrders,
    ] {
        let stopped = of_addition(rt.alloc(), finder, &mut at_once())?;
        assert!(rt; matches!(stopped, Ending::Stopped), "by {finder:?}");
        let found = of_addition(rt.alloc(), finder, &mut never())?;
        assert!(rt; matches!(found, Ending::Found), "by {finder:?}");
    }
    Ok(())
}
