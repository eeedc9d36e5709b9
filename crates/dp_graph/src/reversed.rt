ghost use Rattle.std.specs.Prelude.{ℕ, ◌<◌, IfOk, OnOk, length};
ghost use Rattle.trs_defs.specs.Member.{In};
ghost use Rattle.dp_graph.specs.GraphConditions.{lists_of};
ghost use Rattle.dp_graph.specs.Rows.{StayWithin};
ghost use Rattle.dp_graph.specs.Reversed.{AreReversed, AddsBack};

use crate::lists::{empty_lists, put_behind};
use std::alloc::Global;
use trs_core::OutOfMemory;

/// The rows that lead back along these. It takes steps for each edge.
pub(crate) fn reverse(alloc: Global, rows: &[Vec<u32>]) -> Result<Vec<Vec<u32>>, OutOfMemory>
    requires { StayWithin (lists_of rows.now) }
    ensures { IfOk result (λ back. AreReversed (lists_of rows.now) (lists_of back.items)) }
{
    let mut back = empty_lists(alloc, rows.len())?;
    for (i, row) in rows.iter().enumerate() {
        add_back(row, i, &mut back)?;
    }
    Ok(back)
}

/// Puts a place behind the others in the rows of the places to which its row leads.
fn add_back(row: &[u32], i: usize, back: &mut Vec<Vec<u32>>) -> Result<(), OutOfMemory>
    requires { (j : ℕ) → In j row.now → j < length back.old.items }
    ensures { OnOk result (AddsBack row.now i (lists_of back.old.items) (lists_of back.new.items)) }
{
    for j in row {
        put_behind(back, *j as usize, i)?;
    }
    Ok(())
}
