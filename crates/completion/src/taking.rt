ghost use Rattle.std.specs.Prelude.{IfOk};
ghost use Rattle.completion.specs.GreaterBy.{GreaterBy};
ghost use Rattle.completion.specs.Taking.{HasTaken};

use crate::Completion;
use crate::growing::GrowingTrs;
use crate::met::Met;
use crate::treating::{Outcome, treat};
use path_lpo::Lpo;
use std::alloc::Global;
use trs_core::{OutOfMemory, Trs};

/// The rules that all equations gave, the terms that were met, and the units that are left; or how
/// the run ended.
#[derive(Drop)]
pub(crate) enum Taken {
    Rules(GrowingTrs, Met, u64),
    Ended(Completion),
}

/// The equations in order, from no rules on.
pub(crate) fn take(
    alloc: Global,
    equations: &Trs,
    order: &Lpo,
    budget: u64,
) -> Result<Taken, OutOfMemory>
    ensures { IfOk result (HasTaken equations.now (GreaterBy order.now) budget) }
{
    let mut system = GrowingTrs::over(alloc, equations)?;
    let mut met = Met::new(alloc);
    let mut left = budget;
    for equation in equations.rules() {
        match treat(
            alloc,
            order,
            &system,
            &mut met,
            &equation.left,
            &equation.right,
            left,
        )? {
            Outcome::Passed(units) => left = units,
            Outcome::Added(rule, units) => {
                met.add_rule(alloc, &rule)?;
                system = system.with_rule(alloc, rule)?;
                left = units;
            }
            Outcome::Ended(why) => return Ok(Taken::Ended(why)),
        }
    }
    Ok(Taken::Rules(system, met, left))
}
