ghost use Rattle.std.specs.Prelude.{◌≡◌, ◌++◌, Ok, map, OnOk, IfOk};
ghost use Rattle.sexp_core.specs.Items.{views};
ghost use Rattle.sexp_core.specs.Printed.{text_of};
ghost use Rattle.cert_step.specs.dp_graph.GroupOrSingle.{item_of};
ghost use Rattle.cert_step.specs.ProofStep.{step_of};
ghost use Rattle.text_reading.specs.Reading.{◌<*>◌, many};
ghost use Rattle.text_reading.specs.Seen.{seen};
ghost use Rattle.pair_text.specs.GraphItems.{graph_item};
ghost use Rattle.step_text.specs.GraphText.{graph_step, graph_step_item, graph_text};

use cert_step::{GraphItem, Step};
use pair_text::{put_graph_items, read_graph_items};
use sexp_core::Sexp;
use std::alloc::Global;
use text_reading::{Read, put};
use trs_core::OutOfMemory;

/// A step by the dependency graph, `(graph item ..)`, by the members behind its word.
pub fn read_graph(alloc: Global, members: &[Sexp]) -> Result<Read<Step>, OutOfMemory>
    ensures { IfOk result (λ r.
        seen step_of r ≡ Ok graph_step <*> many graph_item (views members.now)) }
{
    match read_graph_items(alloc, members)? {
        Ok(items) => Ok(Ok(Step::Graph(items))),
        Err(at) => Ok(Err(at)),
    }
}

/// Appends the text of a step by the dependency graph.
pub fn put_graph(out: &mut Vec<u8>, items: &[GraphItem]) -> Result<(), OutOfMemory>
    ensures text { OnOk result (out.new.items
        ≡ out.old.items ++ text_of (graph_step_item (map item_of items.now))) }
    ensures range { OnOk result (graph_text (map item_of items.now)).is_in_range }
{
    put(out, b"(graph")?;
    put_graph_items(out, items)?;
    put(out, b")")?;
    Ok(())
}
