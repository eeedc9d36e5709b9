ghost use Rattle.std.specs.Prelude.{IfOk};
ghost use Rattle.order_theory.specs.Keeping.{KeepsAllPlaces};
ghost use Rattle.path_lpo.specs.Table.{filter_in};
ghost use Rattle.completion.specs.GreaterBy.{GreaterBy, HasEntryForEach};
ghost use Rattle.completion.specs.CompletionRun.{Completes};
ghost use Rattle.completion.specs.Endings.{IsRightEnding};
ghost use Rattle.completion.specs.Answers.{plain_ending, HasArities};

use crate::Completion;
use crate::closing::close;
use crate::taking::{Taken, take};
use path_lpo::Lpo;
use std::alloc::Global;
use trs_core::{OutOfMemory, Trs, systems_are_valid};

/// Completion of equations, which are given as rules, with so many units: each rewrite step and
/// each new rule is one. Rules are neither dropped nor reduced, and after each new rule all
/// critical peaks are looked at anew. (Knuth and Bendix, 1970; Baader and Nipkow, section 7.1.)
pub fn complete(
    alloc: Global,
    equations: &Trs,
    order: &Lpo,
    budget: u64,
) -> Result<Completion, OutOfMemory>
    requires entries { HasEntryForEach equations.now.arities order.now }
    requires full { KeepsAllPlaces equations.now.arities (filter_in order.now) }
    ensures run { IfOk result (λ c.
        Completes equations.now (GreaterBy order.now) budget (plain_ending c)) }
    ensures right { IfOk result (λ c.
        IsRightEnding equations.now (GreaterBy order.now) (plain_ending c)) }
    ensures arities { IfOk result (HasArities equations.now.arities) }
{
    systems_are_valid(equations);
    match take(alloc, equations, order, budget)? {
        Taken::Ended(why) => Ok(why),
        Taken::Rules(system, met, units) => close(alloc, order, system, met, units),
    }
}
