ghost use Rattle.std.specs.Prelude.{◌≡◌, ◌<◌, IfOk};
ghost use Rattle.trs_defs.specs.Member.{In};
ghost use Rattle.cert_step.specs.ProofProblem.{problem_of, IsWellMadeProblem};
ghost use Rattle.assign_search.specs.Continues.{Continues};
ghost use Rattle.strategies.specs.Endings.{IfEnded, IfStopped};
ghost use Rattle.strategies.specs.Kinds.{strategies_for};
ghost use Rattle.strategies.specs.Truth.{IsTrueRun};

use crate::run::search;
use crate::searched::Searched;
use crate::tables::Tables;
use crate::{Limits, Outcome, Ran, Strategy};
use assign_search::Stop;
use cert_step::{Prepared, Problem};
use std::alloc::Global;
use std::marker::Model;
use trs_core::OutOfMemory;

/// What runs strategies on a system, over tables that it was lent. What of the pairs these have not,
/// it makes once. Contracts see the system.
#[derive(Drop)]
pub struct Searcher<'t, 'a> {
    tables: &'t Tables<'a>,
    prepared: Prepared<'t, 'a>,
}

impl<'t, 'a> Model for Searcher<'t, 'a> {
    ghost use Rattle.std.specs.Prelude.{◌≡◌};
    ghost use Rattle.trs_defs.specs.System.{System, system_code};

    ghost Value = { System };

    ghost coded = { system_code };

    ghost view = { λ a. a.tables.now };

    ghost invariant = { λ a. a.prepared ≡ a.tables.now };
}

impl<'t, 'a> Searcher<'t, 'a> {
    /// A searcher to which the tables are lent.
    pub fn new(tables: &'t Tables<'a>) -> Searcher<'t, 'a>
        ensures { result ≡ tables.now }
    {
        Searcher {
            tables,
            prepared: Prepared::over(tables.system(), tables.pairs(), tables.graph()),
        }
    }

    /// Runs a strategy on a problem, as `run_strategy` does.
    pub fn run<P: Stop>(
        &mut self,
        alloc: Global,
        problem: &Problem,
        strategy: Strategy,
        limits: &Limits,
        stop: &mut P,
    ) -> Result<Ran<'a>, OutOfMemory>
        requires problem { IsWellMadeProblem self.old (problem_of problem.now) }
        requires kind { In strategy (strategies_for (problem_of problem.now)) }
        ensures searcher { self.new ≡ self.old }
        ensures system { IfOk result (IfEnded (λ o. o.system ≡ self.old)) }
        ensures limits { IfOk result (IfEnded (λ o. o.budget ≡ limits.now.budget)) }
        ensures problem { IfOk result (IfEnded (λ o. o.problem ≡ problem_of problem.now)) }
        ensures strategy { IfOk result (IfEnded (λ o. o.strategy ≡ strategy)) }
        ensures is_true { IfOk result (IfEnded IsTrueRun) }
        ensures stopped { IfOk result (IfStopped (P.stops stop.old < P.stops stop.new)) }
        ensures continues { Continues P.Stop stop.old stop.new }
    {
        let trs = self.tables.system();
        let budget = limits.budget;
        let searched = search(
            alloc,
            trs,
            self.tables,
            &mut self.prepared,
            problem,
            strategy,
            budget,
            stop,
        )?;
        match searched {
            Searched::Ended(findings) => {
                let problem = problem.copy(alloc)?;
                let outcome = Outcome::new(trs, *limits, problem, strategy, findings);
                Ok(Ran::Ended(outcome))
            }
            Searched::Stopped => Ok(Ran::Stopped),
        }
    }
}
