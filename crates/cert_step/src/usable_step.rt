ghost use Rattle.std.specs.Prelude.{◌<◌, All, length};
ghost use Rattle.pair_theory.specs.DependencyPair.{dependency_pairs};
ghost use Rattle.rewrite_core.specs.Check.{AnswersBy};
ghost use Rattle.cert_step.specs.ProofProblem.{dp};
ghost use Rattle.cert_step.specs.UsableKind.{usable_kind};
ghost use Rattle.cert_step.specs.Subproblems.{problems_of};
ghost use Rattle.cert_step.specs.Tables.{AreTablesOf};

use crate::Problem;
use crate::on_pairs::remaining;
use crate::tables::Tables;
use poly_lin::LinTable;
use rewrite_core::CheckFault;
use std::alloc::Global;
use trs_core::Trs;
use usable_rules::prepared_usable_check;

/// Removal of pairs by a linear interpretation under which the usable rules alone are weak.
/// (Hirokawa and Middeldorp, 2007; Giesl, Thiemann, Schneider-Kamp and Falke, 2006.)
pub(crate) fn apply_usable<'t, 'a>(
    alloc: Global,
    trs: &'a Trs,
    tables: &mut Tables<'t, 'a>,
    numbers: &[u32],
    table: &LinTable,
) -> Result<Vec<Problem>, CheckFault>
    requires tables { AreTablesOf trs.now tables.old }
    requires numbers { All (λ n. n < length (dependency_pairs trs.now.rules)) numbers.now }
    ensures answers { AnswersBy problems_of
        ((usable_kind table.now).conditions trs.now (dp numbers.now)) result }
    ensures tables { AreTablesOf trs.now tables.new }
{
    let pairs = tables.take_pairs(alloc, trs)?;
    let left = prepared_usable_check(alloc, trs, pairs.get(), numbers, table);
    tables.pairs = Some(pairs);
    remaining(alloc, left)
}
