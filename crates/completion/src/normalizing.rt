ghost use Rattle.std.specs.Prelude.{◌≡◌, IfOk, OnOk};
ghost use Rattle.term_pool.specs.Pooled.{Extends, tree_at};
ghost use Rattle.completion.specs.Normalizing.{Normalizes};
ghost use Rattle.completion.specs.Taking.{IsIdOver};
ghost use Rattle.completion.specs.Moving.{form_of, IsFormIn};
ghost use Rattle.completion.specs.MetTerms.{IsMet};

use crate::Unfinished;
use crate::first_steps::{Move, first_move};
use crate::growing::{GrowingTrs, growing_systems_are_valid};
use crate::met::Met;
use std::alloc::Global;
use trs_core::OutOfMemory;

/// The id of a normal form with the units that are left, or why there is none.
#[derive(Clone, Copy)]
pub(crate) enum Form {
    Normal(u32, u64),
    Stopped(Unfinished),
}

/// The normal form of an id's term by its first redexes. Each step is a unit. It costs what its rule
/// and the way to its place have nodes, and a match with each rule of its root at each node that is
/// new. The terms that were met before keep their ids.
pub(crate) fn normal_form(
    alloc: Global,
    system: &GrowingTrs,
    met: &mut Met,
    id: u32,
    units: u64,
) -> Result<Form, OutOfMemory>
    requires over { IsIdOver system.now.arities met.old.pool id }
    requires met { IsMet system.now.rules met.old }
    ensures form { IfOk result (λ form. Normalizes system.now.rules units
        (tree_at met.old.pool id) (form_of met.new.pool form)) }
    ensures there { IfOk result (IsFormIn met.new.pool) }
    ensures kept { OnOk result (Extends met.old.pool met.new.pool) }
    ensures base { OnOk result (met.new.base ≡ met.old.base) }
    ensures met { OnOk result (IsMet system.now.rules met.new) }
{
    growing_systems_are_valid(system);
    let mark = met.pool.mark();
    let mut current = id;
    let mut left = units;
    loop {
        match first_move(alloc, system, met, current, left)? {
            Move::Nowhere => return Ok(Form::Normal(current, left)),
            Move::Stopped(why) => return Ok(Form::Stopped(why)),
            Move::To(next) => {
                current = met.carry_over(alloc, mark, next)?;
                left -= 1;
            }
        }
    }
}
