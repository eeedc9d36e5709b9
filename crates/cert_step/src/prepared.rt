ghost use Rattle.std.specs.Prelude.{◌≡◌, List, IfOk, IfErr, IfSome};
ghost use Rattle.pair_theory.specs.DependencyPair.{dependency_pairs};
ghost use Rattle.rewrite_core.specs.Check.{RefusedFor};
ghost use Rattle.cert_step.specs.ProofProblem.{ProofProblem, problem_of, Holds, IsWellMadeProblem};
ghost use Rattle.cert_step.specs.ProofStep.{step_of, IsWellMade};
ghost use Rattle.cert_step.specs.Applies.{Applies, DoesApply};
ghost use Rattle.cert_step.specs.Refused.{IsStepRefused};
ghost use Rattle.cert_step.specs.Subproblems.{AllHold, AreWellMadeProblems};
ghost use Rattle.cert_step.specs.Subproblems.{GivesSubproblems, problems_of};
ghost use Rattle.cert_step.specs.Table.{contents};

use crate::apply::{check, keeps_system};
use crate::known::left_by_known;
use crate::table::Table;
use crate::tables::Tables;
use crate::{Problem, Step};
use dp_graph::{PairGraph, Pairs};
use rewrite_core::CheckFault;
use std::alloc::Global;
use std::marker::Model;
use trs_core::{OutOfMemory, Trs};

/// A system, and what the steps of a proof look up in it: its dependency pairs and their graph,
/// each lent, or made once for all steps. So a step on pairs costs in proportion to its own pairs,
/// beside what it looks at in the rules. Contracts see the system.
#[derive(Drop)]
pub struct Prepared<'t, 'a> {
    trs: &'a Trs,
    tables: Tables<'t, 'a>,
}

impl<'t, 'a> Model for Prepared<'t, 'a> {
    ghost use Rattle.trs_defs.specs.System.{System, system_code};
    ghost use Rattle.cert_step.specs.Tables.{AreTablesOf};

    ghost Value = { System };

    ghost coded = { system_code };

    ghost view = { λ a. a.trs.now };

    ghost invariant = { λ a. AreTablesOf a.trs.now a.tables };
}

impl<'t, 'a> Prepared<'t, 'a> {
    /// Nothing is made yet.
    pub fn new(trs: &'a Trs) -> Prepared<'t, 'a>
        ensures { result ≡ trs.now }
    {
        Prepared {
            trs,
            tables: Tables {
                pairs: None,
                graph: None,
            },
        }
    }

    /// Looks into the tables that are lent. One that is not is made when a step first looks into it.
    pub fn over(
        trs: &'a Trs,
        pairs: Option<&'t Pairs<'a>>,
        graph: Option<&'t PairGraph<'a>>,
    ) -> Prepared<'t, 'a>
        requires pairs { IfSome pairs (λ pairs. pairs.now ≡ dependency_pairs trs.now.rules) }
        requires graph { IfSome graph (λ graph. graph.now ≡ trs.now) }
        ensures { result ≡ trs.now }
    {
        Prepared {
            trs,
            tables: Tables {
                pairs: pairs.map(Table::Lent),
                graph: graph.map(Table::Lent),
            },
        }
    }

    /// Takes the dependency pairs out, which are made where they are not there. To be put back, so
    /// that they are made once.
    pub fn take_pairs(&mut self, alloc: Global) -> Result<Table<'t, Pairs<'a>>, OutOfMemory>
        ensures system { self.new ≡ self.old }
        ensures pairs { IfOk result (λ pairs. contents pairs ≡ dependency_pairs self.old.rules) }
    {
        self.tables.take_pairs(alloc, self.trs)
    }

    /// Puts the dependency pairs back.
    pub fn put_pairs(&mut self, pairs: Table<'t, Pairs<'a>>)
        requires { contents pairs ≡ dependency_pairs self.old.rules }
        ensures { self.new ≡ self.old }
    {
        self.tables.pairs = Some(pairs);
    }

    /// Takes the graph of the pairs out, as `take_pairs` does the pairs.
    pub fn take_graph(&mut self, alloc: Global) -> Result<Table<'t, PairGraph<'a>>, OutOfMemory>
        ensures system { self.new ≡ self.old }
        ensures graph { IfOk result (λ graph. contents graph ≡ self.old) }
    {
        self.tables.take_graph(alloc, self.trs)
    }

    /// Puts the graph back.
    pub fn put_graph(&mut self, graph: Table<'t, PairGraph<'a>>)
        requires { contents graph ≡ self.old }
        ensures { self.new ≡ self.old }
    {
        self.tables.graph = Some(graph);
    }

    /// The subproblems that a step leaves of a problem, as `apply_step` answers them.
    pub fn apply(
        &mut self,
        alloc: Global,
        problem: &Problem,
        step: &Step,
    ) -> Result<Vec<Problem>, CheckFault>
        requires well_made_problem { IsWellMadeProblem self.old (problem_of problem.now) }
        requires well_made_step { IsWellMade self.old (step_of step.now) }
        ensures system { self.new ≡ self.old }
        ensures ok { IfOk result (λ subproblems. Applies self.old (problem_of problem.now)
            (step_of step.now) (problems_of subproblems)) }
        ensures refused { IfErr result
            (RefusedFor (IsStepRefused self.old (problem_of problem.now) (step_of step.now))) }

        // A step that applies is refused only for want of memory.
        ensures only { (subproblems : List ProofProblem)
            → Applies self.old (problem_of problem.now) (step_of step.now) subproblems
            → GivesSubproblems result subproblems }
        ensures sound { IfOk result (λ subproblems.
            AllHold self.old (problems_of subproblems) → Holds self.old (problem_of problem.now)) }
        ensures well_made { IfOk result (λ subproblems.
            AreWellMadeProblems self.old (problems_of subproblems)) }
    {
        keeps_system(self.trs);
        check(alloc, self.trs, &mut self.tables, problem, step)
    }

    /// The subproblems that a step leaves of a problem to which it applies, as one that a search
    /// found. Its conditions on rules and on edges are not checked again.
    pub fn apply_known(
        &mut self,
        alloc: Global,
        problem: &Problem,
        step: &Step,
    ) -> Result<Vec<Problem>, OutOfMemory>
        requires well_made_problem { IsWellMadeProblem self.old (problem_of problem.now) }
        requires well_made_step { IsWellMade self.old (step_of step.now) }
        requires applies { DoesApply self.old (problem_of problem.now) (step_of step.now) }
        ensures system { self.new ≡ self.old }
        ensures ok { IfOk result (λ subproblems. Applies self.old (problem_of problem.now)
            (step_of step.now) (problems_of subproblems)) }
        ensures sound { IfOk result (λ subproblems.
            AllHold self.old (problems_of subproblems) → Holds self.old (problem_of problem.now)) }
        ensures well_made { IfOk result (λ subproblems.
            AreWellMadeProblems self.old (problems_of subproblems)) }
    {
        keeps_system(self.trs);
        match left_by_known(alloc, self.trs, &mut self.tables, problem, step) {
            Ok(left) => Ok(left),
            Err(CheckFault::Refused(_)) => unreachable!(),
            Err(CheckFault::OutOfMemory) => Err(OutOfMemory),
        }
    }
}
