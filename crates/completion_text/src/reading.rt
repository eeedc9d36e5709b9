ghost use Rattle.std.specs.Prelude.{◌≡◌, ◌≤◌, ◌^◌, ℕ, List, map, Ok, Some, length, slice_get, IsTrue, IfOk, IfErr, MatchResult};
ghost use Rattle.sexp_core.specs.Items.{view, views};
ghost use Rattle.text_reading.specs.Seen.{seen};
ghost use Rattle.order_theory.specs.Keeping.{KeepsAllPlaces};
ghost use Rattle.pair_order.specs.Entries.{has_entry};
ghost use Rattle.path_lpo.specs.Plain.{plain};
ghost use Rattle.path_lpo.specs.Table.{PathEntry, symbol_of, filter_in};
ghost use Rattle.completion_text.specs.OrderText.{has_each, order, with_each, order_items, SaysOrder, IsOrderRefused};
ghost use Rattle.completion_text.specs.OrderAnswers.{Answers};

use crate::entries::read_entries;
use crate::refused::OrderRefused;
use bumpalo::Bump;
use names_text::NamedTrs;
use pair_order::ReductionPair;
use path_lpo::{Lpo, LpoEntry};
use sexp_core::{Sexp, read_all};
use std::alloc::Global;
use text_reading::{Read, both, keyword, place, refuse_more};
use trs_core::OutOfMemory;

/// How many lists may be open at once.
const MOST_OPEN_LISTS: u32 = 1_040;

/// The order that a text says over the symbols of a system: `(order (sym name rank) ..)`, with each
/// symbol exactly once and ranks up to 2^63 - 1. The order keeps all arguments. Places are byte
/// offsets. The text is refused for its fault as a list of items; else at the least place of what
/// can't stand where it does, an entry of a symbol that has one at its own; else at its length where
/// there is no list, and at the list where a symbol has no entry.
#[tactic(auto, using(crate::proofs::Orders::refused_text, crate::proofs::Orders::refused_items))]
pub fn read_order(alloc: Global, system: &NamedTrs, text: &[u8]) -> Result<Lpo, OrderRefused>
    requires size { length text.now ≤ 2 ^ 31 }
    ensures found { IfOk result (λ order. SaysOrder system.now text.now order) }
    ensures refused { IfErr result (IsOrderRefused system.now text.now) }
    ensures keeps { IfOk result (λ order.
        KeepsAllPlaces system.now.system.arities (filter_in order)) }
    ensures each { IfOk result (λ order. (f n : ℕ) → slice_get system.now.system.arities f ≡ Some n
        → IsTrue (has_entry symbol_of order f)) }

    // What a text says is read, unless memory runs out.
    ensures only { (says : List PathEntry) → SaysOrder system.now text.now says
        → MatchResult result (λ order. order ≡ says) (λ e. e ≡ OrderRefused.OutOfMemory) }
{
    let arena = Bump::new(alloc);
    let items = read_all(&arena, alloc, text, MOST_OPEN_LISTS)?;
    read_items(alloc, system, text.len() as u32, &items)
}

/// The items of a text of this length.
fn read_items(
    alloc: Global,
    system: &NamedTrs,
    size: u32,
    items: &[Sexp],
) -> Result<Lpo, OrderRefused>
    ensures { Answers result (order_items system.now size (views items.now)) }
{
    let Some((list, more)) = items.split_first() else {
        return Err(OrderRefused::At(size));
    };
    match refuse_more(read_list(alloc, system, list)?, more) {
        Ok(entries) => order_of(alloc, system, place(list), entries),
        Err(at) => Err(OrderRefused::At(at)),
    }
}

/// The entries of a list `(order (sym name rank) ..)`.
fn read_list(
    alloc: Global,
    system: &NamedTrs,
    item: &Sexp,
) -> Result<Read<Vec<LpoEntry>>, OutOfMemory>
    ensures { IfOk result (λ r.
        seen (λ v. map plain v.items) r ≡ order system.now (view item.now)) }
{
    let Sexp::List(at, members) = item else {
        return Ok(Err(place(item)));
    };
    let Some((head, entries)) = members.split_first() else {
        return Ok(Err(*at));
    };
    match both(
        keyword(b"order", head),
        read_entries(alloc, system, entries)?,
    ) {
        Ok(((), entries)) => Ok(Ok(entries)),
        Err(at) => Ok(Err(at)),
    }
}

/// The order of the entries of a list at a place, if each symbol has one.
fn order_of(
    alloc: Global,
    system: &NamedTrs,
    at: u32,
    entries: Vec<LpoEntry>,
) -> Result<Lpo, OrderRefused>
    ensures { Answers result (with_each system.now at (Ok (map plain entries.items))) }
{
    // The entries have no fault, so only memory can have run out.
    let Ok(order) = Lpo::new(alloc, entries) else {
        return Err(OrderRefused::OutOfMemory);
    };
    if has_each(&order, system.symbols()) {
        Ok(order)
    } else {
        Err(OrderRefused::At(at))
    }
}

/// Whether each of the first so many symbols has an entry.
#[tactic(auto, using(crate::proofs::MadeOrders::one_missing))]
fn has_each(order: &Lpo, count: u32) -> bool
    ensures { result ≡ has_each order.now count }
{
    for symbol in 0..count {
        if !order.has_entry(symbol) {
            return false;
        }
    }
    true
}
