//! The strategy subterm.
ghost use Rattle.std.specs.Prelude.{◌≡◌, ◌<◌, ◌+◌, ◌^◌, All, IfOk, length};
ghost use Rattle.std.specs.List.Sorted.{IsStrictlyIncreasing};
ghost use Rattle.trs_core.specs.SystemLimits.{AreBytes};
ghost use Rattle.pair_theory.specs.DependencyPair.{dependency_pairs};
ghost use Rattle.assign_search.specs.Continues.{Continues};
ghost use Rattle.order_search.specs.dp_core.PlacedPairs.{placed_pairs};
ghost use Rattle.order_search.specs.Outcome.{IsFinding, IsNotThere, IsSpent};
ghost use Rattle.order_search.specs.Distinct.{AreDistinct};
ghost use Rattle.order_search.specs.Slots.{puzzle_of};
ghost use Rattle.order_find.specs.SubtermSpace.{subterm_search};
ghost use Rattle.order_find.specs.SubtermRow.{FindsSubterm, FailsSubterm, ArePlaces, places_of};

use crate::memo::Memo;
use crate::subterm_space::SubtermSpace;
use assign_search::{Search, Stop};
use order_search::placing::SymbolPlaces;
use order_search::roots::roots;
use order_search::taking::take_pairs;
use order_search::{DpPair, Pairs, Readable, Sides, find_first_by, placed_pairs_are_the_pairs};
use pair_theory::dependency_pairs_suffice;
use std::alloc::Global;
use trs_core::{OutOfMemory, Trs, systems_are_valid};

/// The places of a projection by which the subterm criterion removes a pair of the problem, each
/// root with a place, counted from 1. It is the first solution of a finite search: a slot for each
/// root, ascending, whose values are the places; each pair projects to a subterm, and some pair to
/// a proper one. The budget is that of `first_solution`.
///
/// `stop` is asked before each prefix of places.
pub fn find_subterm<P: Stop>(
    alloc: Global,
    trs: &Trs,
    all: &[DpPair],
    problem: &[u32],
    budget: u64,
    stop: &mut P,
) -> Result<Search<Vec<(u32, u8)>>, OutOfMemory>
    requires all { all.now ≡ placed_pairs trs.now.rules }
    requires ascending { IsStrictlyIncreasing problem.now }
    requires numbers { All (λ n. n < length (dependency_pairs trs.now.rules)) problem.now }
    ensures answer { IfOk result (IsFinding
        (λ places. FindsSubterm trs.now problem.now budget places.items)
        (FailsSubterm trs.now problem.now (IsNotThere budget))
        (FailsSubterm trs.now problem.now (IsSpent budget))
        (P.stops stop.old < P.stops stop.new)) }
    ensures continues { Continues P.Stop stop.old stop.new }
{
    let pairs = Pairs::of(alloc, trs, all)?;
    find_subterm_in(alloc, trs, &pairs, problem, budget, stop)
}

/// `find_subterm` where the pairs of the system are at hand, as they are for many problems of one
/// system.
pub fn find_subterm_in<P: Stop>(
    alloc: Global,
    trs: &Trs,
    pairs: &Pairs,
    problem: &[u32],
    budget: u64,
    stop: &mut P,
) -> Result<Search<Vec<(u32, u8)>>, OutOfMemory>
    requires pairs { pairs.now ≡ dependency_pairs trs.now.rules }
    requires ascending { IsStrictlyIncreasing problem.now }
    requires numbers { All (λ n. n < length (dependency_pairs trs.now.rules)) problem.now }
    ensures answer { IfOk result (IsFinding
        (λ places. FindsSubterm trs.now problem.now budget places.items)
        (FailsSubterm trs.now problem.now (IsNotThere budget))
        (FailsSubterm trs.now problem.now (IsSpent budget))
        (P.stops stop.old < P.stops stop.new)) }
    ensures continues { Continues P.Stop stop.old stop.new }
{
    let arities = trs.arities();
    systems_are_valid(trs);
    placed_pairs_are_the_pairs();
    dependency_pairs_suffice();
    let taken = take_pairs(alloc, pairs.sides(), problem)?;
    let roots = roots(alloc, &taken)?;
    search_places(alloc, arities, &roots, &taken, budget, stop)
}

/// The places of the roots of these pairs.
fn search_places<P: Stop>(
    alloc: Global,
    arities: &[u8],
    roots: &[u32],
    pairs: &[Sides],
    budget: u64,
    stop: &mut P,
) -> Result<Search<Vec<(u32, u8)>>, OutOfMemory>
    requires bytes { AreBytes arities.now }
    requires distinct { AreDistinct roots.now }
    requires few_roots { length roots.now < 2 ^ 32 }
    requires few_pairs { length pairs.now + 1 < 2 ^ 32 }
    ensures answer { IfOk result (IsFinding
        (λ places. ArePlaces budget arities.now roots.now pairs.now places.items)
        (IsNotThere budget (puzzle_of (subterm_search arities.now roots.now pairs.now)))
        (IsSpent budget (puzzle_of (subterm_search arities.now roots.now pairs.now)))
        (P.stops stop.old < P.stops stop.new)) }
    ensures continues { Continues P.Stop stop.old stop.new }
{
    let slots = SymbolPlaces::of(alloc, roots)?;
    let space = SubtermSpace {
        arities,
        roots,
        slots: &slots,
        pairs,
    };
    find_first_by(alloc, &space, &mut Memo::new(alloc), budget, stop)
}

impl<'a> Readable for SubtermSpace<'a> {
    type Found = Vec<(u32, u8)>;

    ghost finds = { λ x budget places.
        ArePlaces budget x.arities.now x.roots.now x.pairs.now places.items };

    fn read(&self, alloc: Global, values: &[u32]) -> Result<Vec<(u32, u8)>, OutOfMemory> {
        places_of(alloc, self.roots, values)
    }
}

/// Each root with its place.
fn places_of(alloc: Global, roots: &[u32], values: &[u32]) -> Result<Vec<(u32, u8)>, OutOfMemory>
    requires each { length values.now ≡ length roots.now }
    requires small { All (λ v. v < 255) values.now }
    ensures { IfOk result (λ places. places.items ≡ places_of roots.now values.now) }
{
    let mut places = Vec::with_capacity(alloc, roots.len())?;
    for (i, f) in roots.iter().enumerate() {
        places.push((*f, values[i] as u8 + 1))?;
    }
    Ok(places)
}
