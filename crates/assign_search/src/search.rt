ghost use Rattle.std.specs.Prelude.{◌<◌, IfOk};
ghost use Rattle.assign_search.specs.Searched.{IsAnswer};
ghost use Rattle.assign_search.specs.Continues.{Continues};

use crate::grouping::groups;
use crate::memory::OutOfMemory;
use crate::space::Space;
use crate::stop::Stop;
use crate::testing::{Anew, Tester};
use crate::visiting::{Turn, visit};
use std::alloc::Global;

/// What a search answers: what it found, that there is none, that its budget was spent first, or
/// that it was stopped.
#[derive(Debug, Drop)]
pub enum Search<T> {
    Found(T),
    NotThere,
    Spent,
    Stopped,
}

/// The first solution in lexicographic order, as one value for each slot.
///
/// A prefix of values is refuted where a constraint whose slots all lie in it is false, and minimal
/// where no shorter prefix of it is. The answer is `Spent` where at least `budget` minimal refuted
/// prefixes come before the first solution, or at all where there is none; else `NotThere` where
/// there is no solution.
///
/// `stop` is asked before each prefix.
pub fn first_solution<S: Space, P: Stop>(
    alloc: Global,
    space: &S,
    budget: u64,
    stop: &mut P,
) -> Result<Search<Vec<u32>>, OutOfMemory>
    ensures answer { IfOk result
        (IsAnswer (λ v. v.items) (S.puzzle space.now) budget (P.stops stop.old < P.stops stop.new)) }
    ensures continues { Continues P.Stop stop.old stop.new }
{
    first_solution_by(alloc, space, &mut Anew, budget, stop)
}

/// `first_solution` where this tester tests the constraints.
pub fn first_solution_by<S: Space, T: Tester<S>, P: Stop>(
    alloc: Global,
    space: &S,
    tester: &mut T,
    budget: u64,
    stop: &mut P,
) -> Result<Search<Vec<u32>>, OutOfMemory>
    requires serves { T.serves tester.old space.now }
    ensures answer { IfOk result
        (IsAnswer (λ v. v.items) (S.puzzle space.now) budget (P.stops stop.old < P.stops stop.new)) }
    ensures continues { Continues P.Stop stop.old stop.new }
{
    if stop.stopped() {
        return Ok(Search::Stopped);
    }
    if budget == 0 {
        return Ok(Search::Spent);
    }
    let slots = space.slots();
    let groups = groups(alloc, space)?;
    let mut values = Vec::new(alloc);
    let mut count = 0;
    loop {
        match visit(
            alloc,
            space,
            tester,
            slots,
            &groups,
            budget,
            &mut count,
            &mut values,
        )? {
            Turn::Next => {}
            Turn::Solved => return Ok(Search::Found(values)),
            Turn::Exhausted => return Ok(Search::NotThere),
            Turn::Spent => return Ok(Search::Spent),
        }
        if stop.stopped() {
            return Ok(Search::Stopped);
        }
    }
}
