ghost use Rattle.std.specs.Prelude.{IfOk, Some, slice_get, ◌≡◌, ℕ, IsTrue};
ghost use Rattle.order_theory.specs.Keeping.{KeepsAllPlaces};
ghost use Rattle.path_lpo.specs.Table.{filter_in};
ghost use Rattle.completion.specs.GreaterBy.{HasEntryForEach};
ghost use Rattle.completion_text.specs.CompletionText.{IsCompletionText};

use crate::printing::{print_system, print_terms};
use completion::{Completion, complete};
use names_text::NamedTrs;
use path_lpo::Lpo;
use std::alloc::Global;
use trs_core::OutOfMemory;

/// The text of how completion of the rules of a system, read as equations, ends.
#[tactic(auto, using(crate::proofs::Completed::text_of_run))]
pub(crate) fn completion_text(
    alloc: Global,
    system: &NamedTrs,
    order: &Lpo,
    budget: u64,
) -> Result<Vec<u8>, OutOfMemory>
    requires entries { HasEntryForEach system.now.system.arities order.now }
    requires full { KeepsAllPlaces system.now.system.arities (filter_in order.now) }
    ensures { IfOk result (λ text. IsCompletionText system.now order.now budget text.items) }
{
    match complete(alloc, system.trs(), order, budget)? {
        Completion::Done(rules) => print_system(alloc, system, rules),
        Completion::Unorientable(s, t) => print_terms(alloc, system, &s, &t),
        Completion::Spent => Ok(Vec::from_slice(alloc, b"SPENT\n")?),
        Completion::Limit => Ok(Vec::from_slice(alloc, b"LIMIT\n")?),
    }
}
