ghost use Rattle.std.specs.Prelude.{List, IfOk, IfErr, IsTrue};
ghost use Rattle.trs_defs.specs.System.{IsSystem};
ghost use Rattle.rewrite_core.specs.Check.{AnswersBy, RefusedFor};
ghost use Rattle.cert_step.specs.ProofProblem.{ProofProblem, problem_of, Holds, IsWellMadeProblem};
ghost use Rattle.cert_step.specs.ProofStep.{step_of, kind_of, IsWellMade};
ghost use Rattle.cert_step.specs.Applies.{Applies, step_conditions};
ghost use Rattle.cert_step.specs.Refused.{IsStepRefused};
ghost use Rattle.cert_step.specs.Tables.{AreTablesOf};
ghost use Rattle.cert_step.specs.Subproblems.{AllHold, AreWellMadeProblems};
ghost use Rattle.cert_step.specs.Subproblems.{GivesSubproblems, problems_of};

use crate::confluence_step::apply_confluence;
use crate::dp_step::apply_dp;
use crate::fork_step::apply_fork;
use crate::graph_step::apply_graph;
use crate::label_step::apply_label;
use crate::loop_step::apply_loop;
use crate::newman_step::apply_newman;
use crate::order_step::apply_order;
use crate::parallel_step::apply_parallel;
use crate::strong_step::apply_strong;
use crate::subterm_step::apply_subterm;
use crate::tables::Tables;
use crate::usable_step::apply_usable;
use crate::{Prepared, Problem, Step};
use rewrite_core::{CheckFault, StepRefused};
use std::alloc::Global;
use trs_core::Trs;

/// The subproblems that a step leaves of a problem: the problem holds once they do. Where the step
/// does not apply, the first of its conditions that fails.
pub fn apply_step(
    alloc: Global,
    trs: &Trs,
    problem: &Problem,
    step: &Step,
) -> Result<Vec<Problem>, CheckFault>
    requires well_made_problem { IsWellMadeProblem trs.now (problem_of problem.now) }
    requires well_made_step { IsWellMade trs.now (step_of step.now) }
    ensures ok { IfOk result (λ subproblems. Applies trs.now (problem_of problem.now)
        (step_of step.now) (problems_of subproblems)) }
    ensures refused { IfErr result
        (RefusedFor (IsStepRefused trs.now (problem_of problem.now) (step_of step.now))) }

    // A step that applies is refused only for want of memory.
    ensures only { (subproblems : List ProofProblem)
        → Applies trs.now (problem_of problem.now) (step_of step.now) subproblems
        → GivesSubproblems result subproblems }

    ensures sound { IfOk result (λ subproblems.
        AllHold trs.now (problems_of subproblems) → Holds trs.now (problem_of problem.now)) }
    ensures well_made { IfOk result (λ subproblems.
        AreWellMadeProblems trs.now (problems_of subproblems)) }
{
    let mut prepared = Prepared::new(trs);
    prepared.apply(alloc, problem, step)
}

/// The type of a system keeps that it is one.
pub(crate) fn keeps_system(trs: &Trs)
    ensures { IsSystem trs.now }
{
    trs.rules();
}

/// The subproblems that a step leaves, by its conditions alone.
pub(crate) fn check<'t, 'a>(
    alloc: Global,
    trs: &'a Trs,
    tables: &mut Tables<'t, 'a>,
    problem: &Problem,
    step: &Step,
) -> Result<Vec<Problem>, CheckFault>
    requires tables { AreTablesOf trs.now tables.old }
    requires problem { IsWellMadeProblem trs.now (problem_of problem.now) }
    requires step { IsWellMade trs.now (step_of step.now) }
    ensures answers { AnswersBy problems_of
        (step_conditions trs.now (problem_of problem.now) (step_of step.now)) result }
    ensures tables { AreTablesOf trs.now tables.new }
{
    if !step.is_for(problem) {
        return Err(CheckFault::Refused(StepRefused::WrongProblem));
    }
    check_kind(alloc, trs, tables, problem, step)
}

/// The subproblems that a step leaves of a problem that it is for.
fn check_kind<'t, 'a>(
    alloc: Global,
    trs: &'a Trs,
    tables: &mut Tables<'t, 'a>,
    problem: &Problem,
    step: &Step,
) -> Result<Vec<Problem>, CheckFault>
    requires is_for { IsTrue ((kind_of (step_of step.now)).is_for (problem_of problem.now)) }
    requires tables { AreTablesOf trs.now tables.old }
    requires problem { IsWellMadeProblem trs.now (problem_of problem.now) }
    requires step { IsWellMade trs.now (step_of step.now) }
    ensures answers { AnswersBy problems_of
        ((kind_of (step_of step.now)).conditions trs.now (problem_of problem.now)) result }
    ensures tables { AreTablesOf trs.now tables.new }
{
    match step {
        Step::Dp => apply_dp(alloc, trs),
        Step::Graph(items) => apply_graph(alloc, trs, tables, problem.pairs(), items),
        Step::Subterm(projection) => {
            apply_subterm(alloc, trs, tables, problem.pairs(), projection)
        }
        Step::Order(order) => apply_order(alloc, trs, tables, problem.pairs(), order),
        Step::UsablePoly(table) => apply_usable(alloc, trs, tables, problem.pairs(), table),
        Step::Loop { start, path, place } => apply_loop(alloc, trs, start, path, place),
        Step::Newman(joins) => apply_newman(alloc, trs, joins),
        Step::Parallel(paths) => apply_parallel(alloc, trs, paths),
        Step::Strong(fours) => apply_strong(alloc, trs, fours),
        Step::Label { ranks, joins } => apply_label(alloc, trs, ranks, joins),
        Step::Fork {
            start,
            left,
            right,
            test,
        } => apply_fork(alloc, trs, start, left, right, *test),
        Step::Confluence => apply_confluence(alloc, problem),
    }
}
