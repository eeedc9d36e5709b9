ghost use Rattle.std.specs.Prelude.{ℕ, ◌≡◌, ◌<◌, ◌≤◌, List, IfOk, OnOk, length};
ghost use Rattle.trs_defs.specs.Member.{In};
ghost use Rattle.dp_graph.specs.GraphConditions.{lists_of};
ghost use Rattle.dp_graph.specs.Rows.{StayWithin};
ghost use Rattle.dp_graph.specs.Reversed.{AreReversed};
ghost use Rattle.dp_graph.specs.Finishing.{IsFinishingOrder};
ghost use Rattle.dp_graph.specs.Leaders.{AreLeaders, Leads, LeadsFrom};

use crate::collecting::collect;
use crate::finishing::finishing_order;
use crate::reversed::reverse;
use std::alloc::Global;
use trs_core::OutOfMemory;

/// For each place the least place of its component. The rows that lead back are not kept.
pub(crate) fn leaders_of(alloc: Global, rows: &[Vec<u32>]) -> Result<Vec<usize>, OutOfMemory>
    requires { StayWithin (lists_of rows.now) }
    ensures { IfOk result (λ leaders. AreLeaders (lists_of rows.now) leaders.items) }
{
    let order = finishing_order(alloc, rows)?;
    let back = reverse(alloc, rows)?;
    leaders(alloc, &back, &order)
}

/// For each place the least place of its component. From the last place of an order of finishing
/// on, what leads to a place and is in no component yet is the component of that place.
fn leaders(alloc: Global, back: &[Vec<u32>], order: &[usize]) -> Result<Vec<usize>, OutOfMemory>
    requires { (i : ℕ) → In i order.now → i < length back.now }
    ensures { IfOk result (λ leaders. (rows : List (List ℕ)) →
        AreReversed rows (lists_of back.now) → IsFinishingOrder rows order.now →
        AreLeaders rows leaders.items) }
{
    let mut leaders = vec![in alloc; 0; back.len()]?;
    let mut flags = vec![in alloc; false; back.len()]?;
    let mut k = order.len();
    while k > 0 {
        k -= 1;
        lead_from(alloc, back, order[k], &mut flags, &mut leaders)?;
    }
    Ok(leaders)
}

/// Finds the leader of the component of a place, unless it was found.
fn lead_from(
    alloc: Global,
    back: &[Vec<u32>],
    v: usize,
    flags: &mut Vec<bool>,
    leaders: &mut Vec<usize>,
) -> Result<(), OutOfMemory>
    requires place { v < length back.now }
    requires flags { length flags.old.items ≡ length back.now }
    requires leaders { length leaders.old.items ≡ length back.now }
    ensures { OnOk result (LeadsFrom (lists_of back.now) v flags.old.items flags.new.items
        leaders.old.items leaders.new.items) }
{
    if flags[v] {
        return Ok(());
    }
    let component = collect(alloc, back, v, flags)?;
    lead(&component, leaders);
    Ok(())
}

/// Makes the least of these places the leader of all of them.
fn lead(component: &[usize], leaders: &mut Vec<usize>)
    requires some { 0 < length component.now }
    requires within { (w : ℕ) → In w component.now → w < length leaders.old.items }
    ensures { Leads component.now leaders.old.items leaders.new.items }
{
    let least = least(component);
    for w in component {
        leaders[*w] = least;
    }
}

fn least(places: &[usize]) -> usize
    requires { 0 < length places.now }
    ensures there { In result places.now }
    ensures least { (w : ℕ) → In w places.now → result ≤ w }
{
    let mut least = places[0];
    for w in places {
        least = lesser(least, *w);
    }
    least
}

fn lesser(v: usize, w: usize) -> usize
    ensures first { result ≤ v }
    ensures second { result ≤ w }
    ensures one { (result ≡ w → ⊥) → result ≡ v }
{
    if w < v { w } else { v }
}
