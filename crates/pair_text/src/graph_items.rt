ghost use Rattle.std.specs.Prelude.{◌≡◌, ◌<◌, ◌-◌, ◌^◌, ◌++◌, Ok, map, OnOk, IfOk};
ghost use Rattle.std.specs.List.{AllByRecursion};
ghost use Rattle.sexp_core.specs.Items.{view, views, items_of};
ghost use Rattle.sexp_core.specs.Printed.{text_of, spaced};
ghost use Rattle.text_reading.specs.Reading.{◌<*>◌, many};
ghost use Rattle.text_reading.specs.Numbers.{number};
ghost use Rattle.text_reading.specs.Printed.{number_item};
ghost use Rattle.text_reading.specs.Seen.{seen};
ghost use Rattle.pair_text.specs.InTurn.{ascending};
ghost use Rattle.dp_graph.specs.GroupOrSingle.{item_of};
ghost use Rattle.pair_text.specs.GraphItems.{group_of, single_of, graph_item, printed_item};
ghost use Rattle.pair_text.specs.Ranges.{HasPairs};

use crate::ascending::read_number_from;
use dp_graph::GraphItem;
use sexp_core::Sexp;
use std::alloc::Global;
use text_reading::{Read, place, push, put, put_number, read_number, refuse_more};
use trs_core::OutOfMemory;

/// The greatest number of a pair, 2^32 - 1.
const LAST_PAIR: u64 = 4_294_967_295;

/// Groups of pairs and single pairs, each `(group number number ..)` or `(single number)`.
pub fn read_graph_items(alloc: Global, items: &[Sexp]) -> Result<Read<Vec<GraphItem>>, OutOfMemory>
    ensures { IfOk result (λ r.
        seen (λ v. map item_of v.items) r ≡ many graph_item (views items.now)) }
{
    let mut groups = Ok(Vec::new(alloc));
    for item in items {
        push(&mut groups, read_graph_item(alloc, item)?)?;
    }
    Ok(groups)
}

fn read_graph_item(alloc: Global, item: &Sexp) -> Result<Read<GraphItem>, OutOfMemory>
    ensures { IfOk result (λ r. seen item_of r ≡ graph_item (view item.now)) }
{
    let Sexp::List(at, members) = item else {
        return Ok(Err(place(item)));
    };
    let Some((head, pairs)) = members.split_first() else {
        return Ok(Err(*at));
    };
    let Some((pair, more)) = pairs.split_first() else {
        return Ok(Err(*at));
    };
    let Sexp::Word(head_at, word) = head else {
        return Ok(Err(place(head)));
    };
    if word.as_slice() == b"group".as_slice() {
        read_group(alloc, pairs)
    } else if word.as_slice() == b"single".as_slice() {
        Ok(single(refuse_more(read_pair(pair), more)))
    } else {
        Ok(Err(*head_at))
    }
}

/// A group, by the numbers of its pairs, which ascend strictly.
fn read_group(alloc: Global, items: &[Sexp]) -> Result<Read<GraphItem>, OutOfMemory>
    ensures { IfOk result (λ r.
        seen item_of r ≡ Ok group_of <*> ascending (2 ^ 32 - 1) (views items.now) 0) }
{
    match read_pairs(alloc, items)? {
        Ok(pairs) => Ok(Ok(GraphItem::Group(pairs))),
        Err(at) => Ok(Err(at)),
    }
}

fn read_pairs(alloc: Global, items: &[Sexp]) -> Result<Read<Vec<u32>>, OutOfMemory>
    ensures { IfOk result (λ r.
        seen (λ v. v.items) r ≡ ascending (2 ^ 32 - 1) (views items.now) 0) }
{
    let mut pairs = Vec::new(alloc);
    let mut least = 0;
    for item in items {
        match read_number_from(LAST_PAIR, least, item) {
            Ok(pair) => {
                pairs.push(pair as u32)?;
                least = pair + 1;
            }
            Err(at) => return Ok(Err(at)),
        }
    }
    Ok(Ok(pairs))
}

fn read_pair(item: &Sexp) -> Read<u32>
    ensures { result ≡ number (2 ^ 32 - 1) (view item.now) }
{
    match read_number(LAST_PAIR, item) {
        Ok(pair) => Ok(pair as u32),
        Err(at) => Err(at),
    }
}

fn single(pair: Read<u32>) -> Read<GraphItem>
    ensures { seen item_of result ≡ seen single_of pair }
{
    match pair {
        Ok(pair) => Ok(GraphItem::Single(pair)),
        Err(at) => Err(at),
    }
}

/// Appends the texts of groups of pairs and single pairs, with a blank before each.
pub fn put_graph_items(out: &mut Vec<u8>, items: &[GraphItem]) -> Result<(), OutOfMemory>
    ensures text { OnOk result (out.new.items
        ≡ out.old.items ++ spaced (items_of (map printed_item (map item_of items.now)))) }
    ensures range { OnOk result (AllByRecursion HasPairs (map item_of items.now)) }
{
    for item in items {
        put(out, b" ")?;
        put_graph_item(out, item)?;
    }
    Ok(())
}

fn put_graph_item(out: &mut Vec<u8>, item: &GraphItem) -> Result<(), OutOfMemory>
    ensures text { OnOk result (out.new.items
        ≡ out.old.items ++ text_of (printed_item (item_of item.now))) }
    ensures range { OnOk result (HasPairs (item_of item.now)) }
{
    match item {
        GraphItem::Group(pairs) => {
            put(out, b"(group")?;
            put_pairs(out, pairs)?;
        }
        GraphItem::Single(pair) => {
            put(out, b"(single ")?;
            put_number(out, u64::from(*pair))?;
        }
    }
    put(out, b")")?;
    Ok(())
}

/// Appends numbers of pairs, with a blank before each.
fn put_pairs(out: &mut Vec<u8>, pairs: &[u32]) -> Result<(), OutOfMemory>
    ensures text { OnOk result (out.new.items
        ≡ out.old.items ++ spaced (items_of (map number_item pairs.now))) }
    ensures range { OnOk result (AllByRecursion (λ n. n < 2 ^ 32) pairs.now) }
{
    for pair in pairs {
        put(out, b" ")?;
        put_number(out, u64::from(*pair))?;
    }
    Ok(())
}
