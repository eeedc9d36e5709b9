//! The strategy graph.
ghost use Rattle.std.specs.Prelude.{◌≡◌, ◌↔◌, ◌∷◌, [], ℕ, IfOk, IsTrue};
ghost use Rattle.std.specs.List.Sorted.{IsStrictlyIncreasing};
ghost use Rattle.cert_step.specs.OnPairs.{for_pairs};
ghost use Rattle.cert_step.specs.ProofProblem.{problem_of, IsWellMadeProblem};
ghost use Rattle.cert_step.specs.dp_graph.GroupOrSingle.{item_of, items_of, group};
ghost use Rattle.strategies.specs.Rows.{AreComponentsOf};
ghost use Rattle.strategies.specs.Truth.{AreTrueFindings};

use crate::found::leaving;
use crate::{Findings, Strategy};
use cert_step::{GraphItem, Prepared, Problem, Step, components_pass};
use std::alloc::Global;
use trs_core::{OutOfMemory, Trs};

/// The components of the dependency graph, unless they are one group of all pairs.
pub(crate) fn search_graph(
    alloc: Global,
    trs: &Trs,
    prepared: &mut Prepared,
    problem: &Problem,
) -> Result<Findings, OutOfMemory>
    requires prepared { prepared.old ≡ trs.now }
    requires pairs { IsTrue (for_pairs (problem_of problem.now)) }
    requires well_made { IsWellMadeProblem trs.now (problem_of problem.now) }
    ensures answer { IfOk result (λ findings. (budget : ℕ) → AreTrueFindings
        trs.now budget Strategy.Graph (problem_of problem.now) findings) }
    ensures prepared { prepared.new ≡ trs.now }
{
    let Problem::Dp(numbers) = problem else {
        unreachable!()
    };
    let graph = prepared.take_graph(alloc)?;
    let found = graph.get().components(alloc, numbers);
    prepared.put_graph(graph);
    let items = found?;
    if is_all(&items, numbers) {
        return Ok(Findings::NotThere);
    }
    components_pass();
    leaving(alloc, prepared, problem, Step::Graph(items))
}

/// Whether there is one item, a group of all these pairs.
fn is_all(items: &[GraphItem], numbers: &[u32]) -> bool
    ensures { IsTrue result ↔ (items_of items.now ≡ group numbers.now ∷ []) }
{
    if items.len() != 1 {
        return false;
    }
    is_group_of(&items[0], numbers)
}

/// Whether an item is a group of these pairs.
fn is_group_of(item: &GraphItem, numbers: &[u32]) -> bool
    ensures { IsTrue result ↔ (item_of item.now ≡ group numbers.now) }
{
    match item {
        GraphItem::Group(members) => members.as_slice() == numbers,
        GraphItem::Single(_) => false,
    }
}
