ghost use Rattle.std.specs.Prelude.{◌<◌, All, length};
ghost use Rattle.pair_theory.specs.DependencyPair.{dependency_pairs};
ghost use Rattle.rewrite_core.specs.Check.{AnswersBy};
ghost use Rattle.cert_step.specs.ProofProblem.{dp};
ghost use Rattle.cert_step.specs.SubtermKind.{subterm_kind};
ghost use Rattle.cert_step.specs.Subproblems.{problems_of};
ghost use Rattle.cert_step.specs.Tables.{AreTablesOf};

use crate::Problem;
use crate::on_pairs::remaining;
use crate::tables::Tables;
use rewrite_core::CheckFault;
use std::alloc::Global;
use trs_core::Trs;

/// The subterm criterion. Pairs go whose right side projects to a proper subterm of what the left
/// side projects to. (Hirokawa and Middeldorp, 2007.)
pub(crate) fn apply_subterm<'t, 'a>(
    alloc: Global,
    trs: &'a Trs,
    tables: &mut Tables<'t, 'a>,
    numbers: &[u32],
    projection: &[(u32, u8)],
) -> Result<Vec<Problem>, CheckFault>
    requires tables { AreTablesOf trs.now tables.old }
    requires numbers { All (λ n. n < length (dependency_pairs trs.now.rules)) numbers.now }
    ensures answers { AnswersBy problems_of
        ((subterm_kind projection.now).conditions trs.now (dp numbers.now)) result }
    ensures tables { AreTablesOf trs.now tables.new }
{
    let pairs = tables.take_pairs(alloc, trs)?;
    let left = pairs.get().subterm_check(alloc, numbers, projection);
    tables.pairs = Some(pairs);
    remaining(alloc, left)
}
