ghost use Rattle.std.specs.Prelude.{◌≡◌, ◌<◌, length, IfOk};
ghost use Rattle.trs_core.specs.View.{tree};
ghost use Rattle.term_pool.specs.Pooled.{Extends, tree_at};
ghost use Rattle.rewrite_core.specs.Check.{AnswersBy};
ghost use Rattle.rewrite_core.specs.PathCheck.{Runs, number_of_fault, path_refusal};

use crate::{CheckFault, PathFault, PathStep, StepFault, StepRefused, run_path};
use std::alloc::Global;
use term_pool::Pool;
use trs_core::{Term, Trs};

/// What a check answers where a path is not followed: path number `path` of item number `item`,
/// both counted from 0.
fn path_refused(item: u64, path: u64, fault: PathFault) -> CheckFault
    ensures { result ≡ path_refusal item path fault }
{
    match fault {
        PathFault::At(k, cause) => {
            CheckFault::Refused(StepRefused::Path(item, path, k, fault_number(cause)))
        }
        PathFault::OutOfMemory => CheckFault::OutOfMemory,
    }
}

/// The end of a path of a step: path number `number` of item number `item`, both counted from 0.
pub fn end_of_path(
    alloc: Global,
    trs: &Trs,
    start: &Term,
    path: &[PathStep],
    item: u64,
    number: u64,
) -> Result<Term, CheckFault>
    ensures { AnswersBy tree (Runs trs.now.rules (tree start.now) path.now item number) result }
{
    match run_path(alloc, trs, start, path) {
        Ok(end) => Ok(end),
        Err(fault) => Err(path_refused(item, number, fault)),
    }
}

/// The id of the end of a path of a step, in a pool: path number `number` of item number `item`,
/// both counted from 0.
pub fn end_in_pool(
    alloc: Global,
    pool: &mut Pool,
    trs: &Trs,
    start: u32,
    path: &[PathStep],
    item: u64,
    number: u64,
) -> Result<u32, CheckFault>
    requires { start < length pool.old }
    ensures end { AnswersBy (tree_at pool.new)
        (Runs trs.now.rules (tree_at pool.old start) path.now item number) result }
    ensures there { IfOk result (λ end. end < length pool.new) }
    ensures kept { Extends pool.old pool.new }
{
    match pool.run_path(alloc, trs, start, path) {
        Ok(end) => Ok(end),
        Err(fault) => Err(path_refused(item, number, fault)),
    }
}

fn fault_number(fault: StepFault) -> u64
    ensures { result ≡ number_of_fault fault }
{
    match fault {
        StepFault::NoPosition => 1,
        StepFault::NoMatch => 2,
        StepFault::NoRule => 3,
        StepFault::TooLarge => 4,
        StepFault::OutOfMemory => 5,
    }
}
