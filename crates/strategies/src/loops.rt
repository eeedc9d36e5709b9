//! The strategy loop.
ghost use Rattle.std.specs.Prelude.{◌<◌, IfOk};
ghost use Rattle.cert_step.specs.ProofProblem.{loop};
ghost use Rattle.assign_search.specs.Continues.{Continues};
ghost use Rattle.strategies.specs.Endings.{IsAnswer};

use crate::found::closing;
use crate::searched::Searched;
use crate::{Findings, Strategy};
use assign_search::{Search, Stop};
use cert_step::Step;
use loop_find::{find_loop, found_loops_are_loops};
use std::alloc::Global;
use trs_core::{OutOfMemory, Trs, systems_are_valid};

/// A loop by forward closures.
pub(crate) fn search_loop<P: Stop>(
    alloc: Global,
    trs: &Trs,
    budget: u64,
    stop: &mut P,
) -> Result<Searched, OutOfMemory>
    ensures answer { IfOk result
        (IsAnswer trs.now budget Strategy.Loop loop (P.stops stop.old < P.stops stop.new)) }
    ensures continues { Continues P.Stop stop.old stop.new }
{
    systems_are_valid(trs);
    found_loops_are_loops();
    match find_loop(alloc, trs, budget, stop)? {
        Search::Found(found) => {
            let step = Step::Loop {
                start: found.start,
                path: found.path,
                place: found.place,
            };
            Ok(Searched::Ended(closing(alloc, step)))
        }
        Search::NotThere => Ok(Searched::Ended(Findings::NotThere)),
        Search::Spent => Ok(Searched::Ended(Findings::Spent)),
        Search::Stopped => Ok(Searched::Stopped),
    }
}
