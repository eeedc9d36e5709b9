//! The strategy loop.
ghost use Rattle.std.specs.Prelude.{◌≡◌, ◌<◌, IfOk};
ghost use Rattle.trs_core.specs.View.{tree};
ghost use Rattle.assign_search.specs.Continues.{Continues};
ghost use Rattle.loop_find.specs.ApartRules.{AreCopies};
ghost use Rattle.loop_find.specs.Closures.{rule_closures};
ghost use Rattle.loop_find.specs.LoopRow.{IsLoopAnswer};
ghost use Rattle.loop_find.specs.Links.{closures_of, IsSound};

use crate::apart_rules::no_copies;
use crate::closures::{Closures, no_closures};
use crate::found::LoopFound;
use crate::rule_loops::loop_of_rules;
use crate::trying::{Turn, expand};
use assign_search::{Search, Stop};
use rewrite_core::PathStep;
use std::alloc::Global;
use trs_core::{OutOfMemory, Position, Trs};

/// The first forward closure that loops. The closures begin with the rules. An attempt is a place of
/// a closure's right side, at which a symbol stands, with a rule: places in preorder, and at each
/// the rules in order. It gives a new closure where the rule narrows there, and no side of it has
/// more than 256 nodes. A closure loops where its path, run within the limits, ends in a term that
/// holds an instance of its left side.
///
/// The budget counts attempts: `Spent` where so many are there, and no closure loops that is a rule
/// or that they gave. `stop` is asked before each attempt.
pub fn find_loop<P: Stop>(
    alloc: Global,
    trs: &Trs,
    budget: u64,
    stop: &mut P,
) -> Result<Search<LoopFound>, OutOfMemory>
    ensures answer { IfOk result (IsLoopAnswer trs.now.rules budget
        (λ found. tree found.start) (λ found. found.path.items) (λ found. found.place)
        (P.stops stop.old < P.stops stop.new)) }
    ensures continues { Continues P.Stop stop.old stop.new }
{
    if let Some(found) = loop_of_rules(alloc, trs)? {
        return Ok(Search::Found(found));
    }
    let mut closures = rules_as_closures(alloc, trs)?;
    let mut next = 0;
    while next < closures.links.len() {
        match expand(alloc, trs, budget, next, &mut closures, stop)? {
            Turn::Next => next += 1,
            Turn::Found(found) => return Ok(Search::Found(found)),
            Turn::Spent => return Ok(Search::Spent),
            Turn::Stopped => return Ok(Search::Stopped),
        }
    }
    if closures.attempts >= budget {
        return Ok(Search::Spent);
    }
    Ok(Search::NotThere)
}

/// The rules as closures.
fn rules_as_closures(alloc: Global, trs: &Trs) -> Result<Closures, OutOfMemory>
    ensures rules { IfOk result (λ closures.
        closures_of closures ≡ rule_closures 0 trs.now.rules) }
    ensures sound { IfOk result (λ closures. IsSound trs.now.arities closures) }
    ensures attempts { IfOk result (λ closures. closures.attempts ≡ 0) }
    ensures copies { IfOk result (λ closures. AreCopies trs.now.rules closures.copies.items) }
{
    let copies = no_copies(alloc, trs.rules().len())?;
    let mut closures = no_closures(alloc, copies);
    for (k, rule) in trs.rules().iter().enumerate() {
        let step = PathStep {
            place: Position::new(alloc),
            rule: k as u32,
        };
        closures.add_first(&rule.left, &rule.right, step)?;
    }
    Ok(closures)
}
