ghost use Rattle.std.specs.Prelude.{◌≡◌, ◌<◌, ◌≤◌, ◌-◌, ◌^◌, ◌++◌, ◌∷◌, Ok, min, [], map, IfOk, OnOk};
ghost use Rattle.std.specs.List.{AllByRecursion};
ghost use Rattle.sexp_core.specs.Items.{view, views, items_of};
ghost use Rattle.sexp_core.specs.Printed.{text_of, spaced, joined};
ghost use Rattle.text_reading.specs.Reading.{◌<*>◌};
ghost use Rattle.text_reading.specs.Printed.{number_item};
ghost use Rattle.text_reading.specs.Seen.{seen};
ghost use Rattle.pair_text.specs.InTurn.{ascending};
ghost use Rattle.path_lpo.specs.Plain.{plain, plain_filter};
ghost use Rattle.pair_text.specs.PathEntries.{filter, path_entry_of, path_entry, filter_item, path_entry_item, path_entries};
ghost use Rattle.pair_text.specs.EntryRanges.{HasBytes, HasPlaces};

use crate::add_symbol;
use crate::ascending::read_number_from;
use crate::entries::put_entry_begin;
use crate::symbols::{read_argument_place, read_marked_symbol};
use names_text::{NamedTrs, Symbol};
use pair_order::SymbolIndex;
use path_lpo::{Filter, Lpo, LpoEntry};
use sexp_core::Sexp;
use std::alloc::Global;
use text_reading::{Read, both, place, put, put_number, read_number, refuse_more};
use trs_core::{GREATEST_NUMBER, OutOfMemory};

/// A path order, by its entries `(sym name number filter)` and `(mark name number filter)`, no symbol twice.
pub fn read_path_order(
    alloc: Global,
    system: &NamedTrs,
    items: &[Sexp],
) -> Result<Read<Lpo>, OutOfMemory>
    ensures { IfOk result (λ r. r ≡ path_entries system.now (views items.now)) }
{
    match read_path_entries(alloc, system, items)? {
        Ok(entries) => match Lpo::new(alloc, entries) {
            Ok(order) => Ok(Ok(order)),
            // The entries have no fault, so only memory can have run out.
            Err(_) => Err(OutOfMemory),
        },
        Err(at) => Ok(Err(at)),
    }
}

fn read_path_entries(
    alloc: Global,
    system: &NamedTrs,
    items: &[Sexp],
) -> Result<Read<Vec<LpoEntry>>, OutOfMemory>
    ensures { IfOk result (λ r.
        seen (λ v. map plain v.items) r ≡ path_entries system.now (views items.now)) }
{
    let mut known = SymbolIndex::new(alloc);
    let mut entries = Vec::new(alloc);
    for item in items {
        match read_path_entry(alloc, system, &mut known, item)? {
            Ok(entry) => entries.push(entry)?,
            Err(at) => return Ok(Err(at)),
        }
    }
    Ok(Ok(entries))
}

/// The rank and the filter of a symbol that is not known yet.
fn read_path_entry(
    alloc: Global,
    system: &NamedTrs,
    known: &mut SymbolIndex,
    item: &Sexp,
) -> Result<Read<LpoEntry>, OutOfMemory>
    ensures entry { IfOk result (λ r.
        seen plain r ≡ path_entry system.now known.old (view item.now)) }
    ensures known { IfOk result (λ r. IfOk r (λ e. known.new ≡ known.old ++ e.symbol ∷ [])) }
{
    let Sexp::List(at, members) = item else {
        return Ok(Err(place(item)));
    };
    let [head, name, rank, kept, more @ ..] = *members else {
        return Ok(Err(*at));
    };
    match add_symbol(known, *at, read_marked_symbol(system, head, name))? {
        Ok(symbol) => {
            let rank = read_number(GREATEST_NUMBER, rank);
            let kept = read_filter(alloc, symbol.arity, kept)?;
            Ok(path_entry_of(symbol, refuse_more(both(rank, kept), more)))
        }
        Err(at) => Ok(Err(at)),
    }
}

fn path_entry_of(symbol: Symbol, parts: Read<(u64, Filter)>) -> Read<LpoEntry>
    ensures value { seen plain result
        ≡ seen (λ p. path_entry_of symbol p.0 (plain_filter p.1)) parts }
    ensures symbol { IfOk result (λ e. e.symbol ≡ symbol.number) }
{
    match parts {
        Ok((rank, filter)) => Ok(LpoEntry {
            symbol: symbol.number,
            rank,
            filter,
        }),
        Err(at) => Err(at),
    }
}

/// A filter, `place` or `(place ..)`.
fn read_filter(alloc: Global, arity: u8, item: &Sexp) -> Result<Read<Filter>, OutOfMemory>
    ensures { IfOk result (λ r. seen plain_filter r ≡ filter arity (view item.now)) }
{
    match item {
        Sexp::Word(_, _) => match read_argument_place(arity, item) {
            Ok(argument) => Ok(Ok(Filter::To(argument))),
            Err(at) => Ok(Err(at)),
        },
        Sexp::List(_, places) => match read_places(alloc, arity, places)? {
            Ok(places) => Ok(Ok(Filter::Keep(places))),
            Err(at) => Ok(Err(at)),
        },
    }
}

/// Places of arguments that ascend strictly.
fn read_places(alloc: Global, arity: u8, items: &[Sexp]) -> Result<Read<Vec<u8>>, OutOfMemory>
    ensures { IfOk result (λ r.
        seen (λ v. v.items) r ≡ ascending (min arity 255) (views items.now) 1) }
{
    let mut places = Vec::new(alloc);
    let mut least = 1;
    for item in items {
        match read_number_from(u64::from(arity), least, item) {
            Ok(argument) => {
                places.push(argument as u8)?;
                least = argument + 1;
            }
            Err(at) => return Ok(Err(at)),
        }
    }
    Ok(Ok(places))
}

/// Appends the texts of entries, with a blank before each.
pub fn put_path_entries(
    out: &mut Vec<u8>,
    system: &NamedTrs,
    entries: &[LpoEntry],
) -> Result<(), OutOfMemory>
    ensures text { OnOk result (out.new.items ≡ out.old.items
        ++ spaced (items_of (map (path_entry_item system.now) (map plain entries.now)))) }
    ensures range { OnOk result (AllByRecursion HasPlaces (map plain entries.now)) }
{
    for entry in entries {
        put(out, b" ")?;
        put_path_entry(out, system, entry)?;
    }
    Ok(())
}

fn put_path_entry(out: &mut Vec<u8>, system: &NamedTrs, entry: &LpoEntry) -> Result<(), OutOfMemory>
    ensures text { OnOk result (out.new.items
        ≡ out.old.items ++ text_of (path_entry_item system.now (plain entry.now))) }
    ensures range { OnOk result (HasPlaces (plain entry.now)) }
{
    put_entry_begin(out, system, entry.symbol)?;
    put(out, b" ")?;
    put_number(out, entry.rank)?;
    put(out, b" ")?;
    put_filter(out, &entry.filter)?;
    put(out, b")")?;
    Ok(())
}

fn put_filter(out: &mut Vec<u8>, filter: &Filter) -> Result<(), OutOfMemory>
    ensures text { OnOk result (out.new.items
        ≡ out.old.items ++ text_of (filter_item (plain_filter filter.now))) }
    ensures range { OnOk result (HasBytes (plain_filter filter.now)) }
{
    match filter {
        Filter::To(argument) => put_number(out, u64::from(*argument))?,
        Filter::Keep(places) => {
            put(out, b"(")?;
            put_places(out, places)?;
            put(out, b")")?;
        }
    }
    Ok(())
}

/// Appends places, with one blank between them.
fn put_places(out: &mut Vec<u8>, places: &[u8]) -> Result<(), OutOfMemory>
    ensures text { OnOk result (out.new.items
        ≡ out.old.items ++ joined (items_of (map number_item places.now))) }
    ensures range { OnOk result (AllByRecursion (λ place. place ≤ 255) places.now) }
{
    let Some((first, rest)) = places.split_first() else {
        return Ok(());
    };
    put_number(out, u64::from(*first))?;
    for argument in rest {
        put(out, b" ")?;
        put_number(out, u64::from(*argument))?;
    }
    Ok(())
}
