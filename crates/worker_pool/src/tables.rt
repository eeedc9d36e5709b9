ghost use Rattle.std.specs.Prelude.{◌≡◌, IfOk};

use std::alloc::Global;
use tree_core::{Question, Tables};
use trs_core::{OutOfMemory, Trs};

/// What one worker makes ahead for the strategies of a question. Where termination is asked, none of
/// them looks at critical peaks.
pub(crate) fn tables_for<'a>(
    alloc: Global,
    question: Question,
    trs: &'a Trs,
) -> Result<Tables<'a>, OutOfMemory>
    ensures { IfOk result (λ tables. tables ≡ trs.now) }
{
    match question {
        Question::Termination => Ok(Tables::new(trs)),
        Question::Confluence => Tables::with_peaks(alloc, trs),
        Question::Unique => Tables::with_peaks(alloc, trs),
    }
}

/// The same for several workers: the dependency pairs and their graph too, which are lent to all.
pub(crate) fn shared_tables<'a>(
    alloc: Global,
    question: Question,
    trs: &'a Trs,
) -> Result<Tables<'a>, OutOfMemory>
    ensures { IfOk result (λ tables. tables ≡ trs.now) }
{
    let mut tables = tables_for(alloc, question, trs)?;
    tables.add_pairs(alloc)?;
    Ok(tables)
}
