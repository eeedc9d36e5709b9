ghost use Rattle.rewrite_core.specs.Check.{AnswersBy};
ghost use Rattle.dp_graph.specs.GroupOrSingle.{items_of};
ghost use Rattle.cert_step.specs.ProofProblem.{dp};
ghost use Rattle.cert_step.specs.GraphKind.{graph_kind};
ghost use Rattle.cert_step.specs.Subproblems.{problems_of};
ghost use Rattle.cert_step.specs.Tables.{AreTablesOf};

use crate::Problem;
use crate::on_pairs::split;
use crate::tables::Tables;
use dp_graph::GraphItem;
use rewrite_core::CheckFault;
use std::alloc::Global;
use trs_core::Trs;

/// Groups along the dependency graph. A problem is finite if that of each group is, which are left
/// to show. (Arts and Giesl, 2000; Giesl, Thiemann and Schneider-Kamp, 2005.)
pub(crate) fn apply_graph<'t, 'a>(
    alloc: Global,
    trs: &'a Trs,
    tables: &mut Tables<'t, 'a>,
    numbers: &[u32],
    items: &[GraphItem],
) -> Result<Vec<Problem>, CheckFault>
    requires { AreTablesOf trs.now tables.old }
    ensures answers { AnswersBy problems_of
        ((graph_kind (items_of items.now)).conditions trs.now (dp numbers.now)) result }
    ensures tables { AreTablesOf trs.now tables.new }
{
    let graph = tables.take_graph(alloc, trs)?;
    let groups = graph.get().group_check(alloc, numbers, items);
    tables.graph = Some(graph);
    split(alloc, groups)
}
