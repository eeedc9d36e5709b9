ghost use Rattle.std.specs.Prelude.{◌≡◌, ◌++◌, map, OnOk};
ghost use Rattle.sexp_core.specs.Items.{items_of};
ghost use Rattle.sexp_core.specs.Printed.{text_of, spaced};
ghost use Rattle.tree_definitions.specs.Reports.{failure_by, failed_of};
ghost use Rattle.report_text.specs.GoalLines.{reason_word as word_of_reason, failed_item};

use text_reading::put;
use tree_definitions::Strategy;
use trs_core::OutOfMemory;

/// Appends the strategies that failed, each `(failed strategy reason)`, with a blank before each.
pub(crate) fn put_failures(
    out: &mut Vec<u8>,
    failed: &[(Strategy, bool)],
) -> Result<(), OutOfMemory>
    ensures { OnOk result (out.new.items
        ≡ out.old.items ++ spaced (items_of (map failed_item (map failed_of failed.now)))) }
{
    for (strategy, spent) in failed {
        put(out, b" ")?;
        put_failure(out, *strategy, *spent)?;
    }
    Ok(())
}

fn put_failure(out: &mut Vec<u8>, strategy: Strategy, spent: bool) -> Result<(), OutOfMemory>
    ensures { OnOk result (out.new.items
        ≡ out.old.items ++ text_of (failed_item (strategy, failure_by spent))) }
{
    put(out, b"(failed ")?;
    put(out, strategy.word().as_bytes())?;
    put(out, b" ")?;
    put(out, reason_word(spent))?;
    put(out, b")")?;
    Ok(())
}

/// The reason of a strategy that failed, by whether its budget was spent.
fn reason_word(spent: bool) -> &'static [u8]
    ensures { result.now ≡ word_of_reason (failure_by spent) }
{
    if spent { b"spent" } else { b"none" }
}
