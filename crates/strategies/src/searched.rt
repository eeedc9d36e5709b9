ghost use Rattle.strategies.specs.Endings.{EndsAs};

use crate::Findings;
use trs_core::OutOfMemory;

/// What the search of a strategy ended with.
#[derive(Drop)]
pub(crate) enum Searched {
    /// What it answers.
    Ended(Findings),
    /// It was stopped.
    Stopped,
}

/// The search of a strategy that is never stopped.
pub(crate) fn ending(findings: Result<Findings, OutOfMemory>) -> Result<Searched, OutOfMemory>
    ensures { EndsAs findings result }
{
    Ok(Searched::Ended(findings?))
}
