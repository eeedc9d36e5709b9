ghost use Rattle.std.specs.Prelude.{◌≡◌, ◌<◌, All, length};
ghost use Rattle.pair_theory.specs.DependencyPair.{dependency_pairs};
ghost use Rattle.rewrite_core.specs.Check.{AnswersBy};
ghost use Rattle.dp_graph.specs.dp_core.PairConditions.{pair_conditions};
ghost use Rattle.cert_step.specs.ProofProblem.{dp};
ghost use Rattle.cert_step.specs.ProofStep.{order_step, kind_of, comparing_of};
ghost use Rattle.cert_step.specs.Subproblems.{problems_of};
ghost use Rattle.cert_step.specs.Tables.{AreTablesOf};

use crate::on_pairs::remaining;
use crate::tables::Tables;
use crate::{AnyOrder, Problem};
use dp_graph::Pairs;
use rewrite_core::CheckFault;
use std::alloc::Global;
use trs_core::Trs;

/// Removal of pairs by an order. Rules are weak, and each pair is weak and stays or is strict.
/// (Arts and Giesl, 2000.)
pub(crate) fn apply_order<'t, 'a>(
    alloc: Global,
    trs: &'a Trs,
    tables: &mut Tables<'t, 'a>,
    numbers: &[u32],
    order: &AnyOrder,
) -> Result<Vec<Problem>, CheckFault>
    requires tables { AreTablesOf trs.now tables.old }
    requires numbers { All (λ n. n < length (dependency_pairs trs.now.rules)) numbers.now }
    ensures answers { AnswersBy problems_of
        ((kind_of (order_step order.now)).conditions trs.now (dp numbers.now)) result }
    ensures tables { AreTablesOf trs.now tables.new }
{
    let pairs = tables.take_pairs(alloc, trs)?;
    let left = pairs_left(alloc, trs, pairs.get(), numbers, order);
    tables.pairs = Some(pairs);
    remaining(alloc, left)
}

/// The pairs that remain.
fn pairs_left(
    alloc: Global,
    trs: &Trs,
    pairs: &Pairs,
    numbers: &[u32],
    order: &AnyOrder,
) -> Result<Vec<u32>, CheckFault>
    requires pairs { pairs.now ≡ dependency_pairs trs.now.rules }
    requires numbers { All (λ n. n < length pairs.now) numbers.now }
    ensures { AnswersBy (λ left. left.items)
        (pair_conditions (comparing_of order.now) trs.now.rules pairs.now numbers.now) result }
{
    match order {
        AnyOrder::Poly(table) => pairs.pair_check(alloc, trs, numbers, table),
        AnyOrder::Lpo(order) => pairs.pair_check(alloc, trs, numbers, order),
        AnyOrder::Kbo(order) => pairs.pair_check(alloc, trs, numbers, order),
    }
}
