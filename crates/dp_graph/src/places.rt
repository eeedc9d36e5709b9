ghost use Rattle.std.specs.Prelude.{ℕ, ◌≡◌, ◌<◌, ◌≤◌, ◌++◌, List, [], All, IfOk, OnOk, Some, length, slice_get};
ghost use Rattle.dp_graph.specs.GraphConditions.{lists_of};
ghost use Rattle.dp_graph.specs.GroupOrSingle.{item_of, items_of};
ghost use Rattle.dp_graph.specs.PlaceLists.{AreLed, before_others, places_below, numbers_of};
ghost use Rattle.dp_graph.specs.PutOut.{AddsItem, AreItemsOf, IsItemOf, led_by};

use crate::GraphItem;
use crate::lists::{empty_lists, put_behind};
use std::alloc::Global;
use trs_core::OutOfMemory;

/// For each place the places that it leads, in order.
pub(crate) fn list_led(alloc: Global, leaders: &[usize]) -> Result<Vec<Vec<u32>>, OutOfMemory>
    requires { All (λ l. l < length leaders.now) leaders.now }
    ensures { IfOk result (λ led. AreLed leaders.now (lists_of led.items)) }
{
    let mut led = empty_lists(alloc, leaders.len())?;
    for (w, v) in leaders.iter().enumerate() {
        put_behind(&mut led, *v, w)?;
    }
    Ok(led)
}

/// The components of those leaders that are pairs, in the same order.
pub(crate) fn items(
    alloc: Global,
    problem: &[u32],
    leaders: &[usize],
    led: &[Vec<u32>],
    order: &[usize],
) -> Result<Vec<GraphItem>, OutOfMemory>
    requires places { length problem.now ≤ length leaders.now }
    requires led { AreLed leaders.now (lists_of led.now) }
    requires order { All (λ v. slice_get leaders.now v ≡ Some v) order.now }
    ensures { IfOk result
        (λ items. AreItemsOf problem.now leaders.now order.now (items_of items.items)) }
{
    let mut items = Vec::new(alloc);
    for v in order {
        let places = &led[*v];
        add_item(alloc, problem, places, *v, &mut items)?;
    }
    Ok(items)
}

/// Adds the component of a leader, if it is a pair.
fn add_item(
    alloc: Global,
    problem: &[u32],
    led: &[u32],
    v: usize,
    items: &mut Vec<GraphItem>,
) -> Result<(), OutOfMemory>
    ensures { OnOk result ((leaders : List ℕ) → length problem.now ≤ length leaders →
        slice_get leaders v ≡ Some v → led.now ≡ led_by v (places_below (length leaders)) leaders →
        AddsItem problem.now leaders v items.old.items items.new.items) }
{
    if v < problem.len() {
        items.push(item(alloc, problem, led, v)?)?;
    }
    Ok(())
}

/// The component of a leader: a single pair where it leads no other place.
fn item(alloc: Global, problem: &[u32], led: &[u32], v: usize) -> Result<GraphItem, OutOfMemory>
    requires { v < length problem.now }
    ensures { IfOk result (λ item. (leaders : List ℕ) → length problem.now ≤ length leaders →
        slice_get leaders v ≡ Some v → led.now ≡ led_by v (places_below (length leaders)) leaders →
        IsItemOf problem.now leaders v (item_of item)) }
{
    if led.len() == 1 {
        return Ok(GraphItem::Single(problem[v]));
    }
    let members = numbers_at(alloc, problem, led)?;
    Ok(GraphItem::Group(members))
}

/// The numbers at those of these places that are pairs.
fn numbers_at(alloc: Global, problem: &[u32], places: &[u32]) -> Result<Vec<u32>, OutOfMemory>
    ensures { IfOk result (λ numbers. numbers.items ≡ numbers_of problem.now places.now) }
{
    let mut numbers = Vec::new(alloc);
    for w in places {
        add_number(problem, *w as usize, &mut numbers)?;
    }
    Ok(numbers)
}

/// Adds the number at a place, if it is a pair.
fn add_number(problem: &[u32], w: usize, numbers: &mut Vec<u32>) -> Result<(), OutOfMemory>
    ensures { OnOk result (numbers.new.items
        ≡ numbers.old.items ++ before_others (slice_get problem.now w) []) }
{
    if w < problem.len() {
        numbers.push(problem[w])?;
    }
    Ok(())
}
