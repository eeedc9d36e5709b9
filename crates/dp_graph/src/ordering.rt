ghost use Rattle.std.specs.Prelude.{◌≡◌, IfOk, length};
ghost use Rattle.dp_graph.specs.GraphConditions.{lists_of};
ghost use Rattle.dp_graph.specs.Rows.{StayWithin};
ghost use Rattle.dp_graph.specs.Leaders.{AreLeaders};
ghost use Rattle.dp_graph.specs.PlaceLists.{AreLed};
ghost use Rattle.dp_graph.specs.PutOut.{PutsOut};

use crate::waiting::Waiting;
use std::alloc::Global;
use trs_core::OutOfMemory;

/// The leaders in order. Next comes always, of those to whose components no edge leads from another
/// one that is left, the least; but a rule or a right side that lies on no cycle comes as soon as it
/// can, so that it holds up no pair. Each edge is looked at twice. The first places are those of so
/// many pairs.
pub(crate) fn sort_components(
    alloc: Global,
    pairs: usize,
    rows: &[Vec<u32>],
    leaders: &[usize],
    led: &[Vec<u32>],
) -> Result<Vec<usize>, OutOfMemory>
    requires leaders { AreLeaders (lists_of rows.now) leaders.now }
    requires within { StayWithin (lists_of rows.now) }
    requires led { AreLed leaders.now (lists_of led.now) }
    ensures { IfOk result (λ order. PutsOut pairs (lists_of rows.now) leaders.now order.items) }
{
    let mut waiting = Waiting::new(alloc, rows, leaders)?;
    let mut order = Vec::new(alloc);
    while let Some(v) = waiting.take_ready(pairs) {
        order.push(v)?;
        let places = &led[v];
        waiting.release(rows, leaders, v, places)?;
    }
    Ok(order)
}
