ghost use Rattle.std.specs.Prelude.{◌≡◌, ◌<◌, length, IfOk, OnOk};
ghost use Rattle.term_pool.specs.Pooled.{Extends, tree_at};
ghost use Rattle.term_pool.specs.Redexes.{IsNarrow};
ghost use Rattle.completion.specs.Moving.{IsMove, IsStopOf};
ghost use Rattle.completion.specs.MetTerms.{IsMet};

use crate::Unfinished;
use crate::growing::GrowingTrs;
use crate::met::Met;
use crate::searching::first_redex;
use rewrite_core::StepFault;
use std::alloc::Global;
use trs_core::{OutOfMemory, Position};

/// What the first redex of a term leads to.
#[derive(Clone, Copy)]
pub(crate) enum Move {
    Nowhere,
    To(u32),
    Stopped(Unfinished),
}

/// The step at the first redex of an id's term, for which so many units are there.
pub(crate) fn first_move(
    alloc: Global,
    system: &GrowingTrs,
    met: &mut Met,
    id: u32,
    units: u64,
) -> Result<Move, OutOfMemory>
    requires there { id < length met.old.pool }
    requires narrow { IsNarrow (tree_at met.old.pool id) }
    requires met { IsMet system.now.rules met.old }
    ensures moves { IfOk result (
        IsMove system.now.rules units (tree_at met.old.pool id) met.new.pool) }
    ensures kept { OnOk result (Extends met.old.pool met.new.pool) }
    ensures base { OnOk result (met.new.base ≡ met.old.base) }
    ensures met { OnOk result (IsMet system.now.rules met.new) }
{
    let mut place = Vec::new(alloc);
    let sides = met.sides.as_slice();
    match first_redex(
        alloc,
        &met.pool,
        system,
        sides,
        id,
        &mut place,
        &mut met.passed,
    )? {
        None => Ok(Move::Nowhere),
        Some(rule) => {
            if units == 0 {
                return Ok(Move::Stopped(Unfinished::NoUnit));
            }
            let place = Position::of(alloc, &place)?;
            match system.step_at(alloc, &mut met.pool, id, &place, rule) {
                Ok(next) => Ok(Move::To(next)),
                Err(fault) => stop_of(fault),
            }
        }
    }
}

/// A step that is there is refused for its size alone, unless memory runs out.
fn stop_of(fault: StepFault) -> Result<Move, OutOfMemory>
    ensures { IfOk result (IsStopOf fault) }
{
    match fault {
        StepFault::TooLarge => Ok(Move::Stopped(Unfinished::TooLarge)),
        _ => Err(OutOfMemory),
    }
}
