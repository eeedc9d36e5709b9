//! What a step leaves that is known to apply. No rule is compared again, and no edge is looked for.
ghost use Rattle.std.specs.Prelude.{◌≡◌, ◌<◌, [], All, List, IfOk, length};
ghost use Rattle.pair_theory.specs.DependencyPair.{DependencyPair, dependency_pairs};
ghost use Rattle.rewrite_core.specs.Check.{AnswersBy};
ghost use Rattle.dp_graph.specs.GroupOrSingle.{items_of, groups_of};
ghost use Rattle.dp_graph.specs.dp_core.Numbered.{ArePairsOf};
ghost use Rattle.dp_graph.specs.dp_core.PairConditions.{removal_conditions};
ghost use Rattle.cert_step.specs.GraphKind.{group_problems};
ghost use Rattle.cert_step.specs.ProofProblem.{dp, problem_of, IsWellMadeProblem};
ghost use Rattle.cert_step.specs.ProofStep.{step_of, order_step, comparing_of, usable_poly};
ghost use Rattle.cert_step.specs.ProofStep.{IsWellMade};
ghost use Rattle.cert_step.specs.Applies.{DoesApply, step_conditions};
ghost use Rattle.cert_step.specs.Subproblems.{problems_of};
ghost use Rattle.cert_step.specs.Tables.{AreTablesOf};

use crate::apply::check;
use crate::on_pairs::remaining;
use crate::tables::Tables;
use crate::{AnyOrder, Problem, Step};
use dp_graph::{GraphItem, Pairs};
use poly_lin::LinTable;
use rewrite_core::CheckFault;
use std::alloc::Global;
use trs_core::{OutOfMemory, Trs};

/// The subproblems that a step leaves of a problem to which it applies.
pub(crate) fn left_by_known<'t, 'a>(
    alloc: Global,
    trs: &'a Trs,
    tables: &mut Tables<'t, 'a>,
    problem: &Problem,
    step: &Step,
) -> Result<Vec<Problem>, CheckFault>
    requires tables { AreTablesOf trs.now tables.old }
    requires problem { IsWellMadeProblem trs.now (problem_of problem.now) }
    requires step { IsWellMade trs.now (step_of step.now) }
    requires applies { DoesApply trs.now (problem_of problem.now) (step_of step.now) }
    ensures answers { AnswersBy problems_of
        (step_conditions trs.now (problem_of problem.now) (step_of step.now)) result }
    ensures tables { AreTablesOf trs.now tables.new }
{
    match step {
        Step::Graph(items) => Ok(groups(alloc, items)?),
        Step::Order(order) => left_by_order(alloc, trs, tables, problem.pairs(), order),
        Step::UsablePoly(table) => left_by_usable(alloc, trs, tables, problem.pairs(), table),
        _ => check(alloc, trs, tables, problem, step),
    }
}

/// The problem of each group, in order.
fn groups(alloc: Global, items: &[GraphItem]) -> Result<Vec<Problem>, OutOfMemory>
    ensures { IfOk result (λ problems.
        problems_of problems ≡ group_problems (groups_of (items_of items.now))) }
{
    let mut problems = Vec::new(alloc);
    for item in items {
        let GraphItem::Group(pairs) = item else {
            continue;
        };
        problems.push(Problem::Dp(pairs.to_vec(alloc)?))?;
    }
    Ok(problems)
}

/// The problem of the pairs that an order leaves.
fn left_by_order<'t, 'a>(
    alloc: Global,
    trs: &'a Trs,
    tables: &mut Tables<'t, 'a>,
    numbers: &[u32],
    order: &AnyOrder,
) -> Result<Vec<Problem>, CheckFault>
    requires tables { AreTablesOf trs.now tables.old }
    requires numbers { All (λ n. n < length (dependency_pairs trs.now.rules)) numbers.now }
    requires applies { DoesApply trs.now (dp numbers.now) (order_step order.now) }
    ensures answers { AnswersBy problems_of
        (step_conditions trs.now (dp numbers.now) (order_step order.now)) result }
    ensures tables { AreTablesOf trs.now tables.new }
{
    let pairs = tables.take_pairs(alloc, trs)?;
    let left = not_strict(alloc, trs, pairs.get(), numbers, order);
    tables.pairs = Some(pairs);
    remaining(alloc, left)
}

/// The problem of the pairs that an interpretation leaves under which the usable rules are weak.
fn left_by_usable<'t, 'a>(
    alloc: Global,
    trs: &'a Trs,
    tables: &mut Tables<'t, 'a>,
    numbers: &[u32],
    table: &LinTable,
) -> Result<Vec<Problem>, CheckFault>
    requires tables { AreTablesOf trs.now tables.old }
    requires numbers { All (λ n. n < length (dependency_pairs trs.now.rules)) numbers.now }
    requires applies { DoesApply trs.now (dp numbers.now) (usable_poly table.now) }
    ensures answers { AnswersBy problems_of
        (step_conditions trs.now (dp numbers.now) (usable_poly table.now)) result }
    ensures tables { AreTablesOf trs.now tables.new }
{
    let pairs = tables.take_pairs(alloc, trs)?;
    let left = pairs
        .get()
        .removal_check(alloc, trs, numbers, table, &[], None);
    tables.pairs = Some(pairs);
    remaining(alloc, left)
}

/// The pairs that are not strict by an order, where no rule has to be weak.
fn not_strict(
    alloc: Global,
    trs: &Trs,
    pairs: &Pairs,
    numbers: &[u32],
    order: &AnyOrder,
) -> Result<Vec<u32>, CheckFault>
    requires pairs { pairs.now ≡ dependency_pairs trs.now.rules }
    requires numbers { All (λ n. n < length pairs.now) numbers.now }
    ensures { (taken : List DependencyPair) → ArePairsOf pairs.now numbers.now taken
        → AnswersBy (λ left. left.items) (removal_conditions (comparing_of order.now) [] []
        (length trs.now.rules) numbers.now taken) result }
{
    match order {
        AnyOrder::Poly(table) => pairs.removal_check(alloc, trs, numbers, table, &[], None),
        AnyOrder::Lpo(order) => pairs.removal_check(alloc, trs, numbers, order, &[], None),
        AnyOrder::Kbo(order) => pairs.removal_check(alloc, trs, numbers, order, &[], None),
    }
}
