ghost use Rattle.std.specs.Prelude.{◌≡◌, ◌++◌, ◌∷◌, [], List, Ok, map, IfOk, OnOk};
ghost use Rattle.sexp_core.specs.Items.{view, views, items_of};
ghost use Rattle.sexp_core.specs.Printed.{text_of, spaced};
ghost use Rattle.text_reading.specs.Seen.{seen};
ghost use Rattle.kbo_order.specs.Table.{symbol_of};
ghost use Rattle.pair_text.specs.Entries.{entries};
ghost use Rattle.pair_text.specs.KnuthEntries.{weighed, stated_entry, is_too_light, only_stated, kbo_entry, kbo_entry_item, stated, is_low, first_low, kbo_entries};
ghost use Rattle.kbo_order.specs.declared.entries.KboEntry.{KboEntry as Entry};
ghost use Rattle.pair_text.specs.TopRanks.{AreTopRanks, with_read};

use crate::add_symbol;
use crate::entries::put_entry_begin;
use crate::symbols::read_marked_symbol;
use crate::top_ranks::{TopRanks, are_below, with_rank};
use kbo_order::{Kbo, KboEntry};
use names_text::{NamedTrs, Symbol};
use pair_order::SymbolIndex;
use sexp_core::Sexp;
use std::alloc::Global;
use text_reading::{Read, and_place, both, place, put, put_number, read_number, refuse_more};
use trs_core::{GREATEST_NUMBER, OutOfMemory};

/// A Knuth-Bendix order, by its entries `(sym name weight rank)` and `(mark name weight rank)`, no symbol twice. Constants
/// weigh, and a symbol with one argument that weighs nothing is ranked above all others.
pub fn read_knuth_order(
    alloc: Global,
    system: &NamedTrs,
    items: &[Sexp],
) -> Result<Read<Kbo>, OutOfMemory>
    ensures { IfOk result (λ r.
        seen (λ order. order.entries.items) r ≡ kbo_entries system.now (views items.now)) }
{
    match read_kbo_entries(alloc, system, items)? {
        Ok(entries) => match Kbo::new(alloc, entries) {
            Ok(order) => Ok(Ok(order)),
            // The entries have no fault, so only memory can have run out.
            Err(_) => Err(OutOfMemory),
        },
        Err(at) => Ok(Err(at)),
    }
}

fn read_kbo_entries(
    alloc: Global,
    system: &NamedTrs,
    items: &[Sexp],
) -> Result<Read<Vec<KboEntry>>, OutOfMemory>
    ensures { IfOk result (λ r.
        seen (λ v. v.items) r ≡ kbo_entries system.now (views items.now)) }
{
    let top = top_ranks(system, items);
    let low = first_low(system, top, items);
    let entries = read_each(alloc, system, items)?;
    match low {
        Some(at) => Ok(and_place(entries, at)),
        None => Ok(entries),
    }
}

fn read_each(
    alloc: Global,
    system: &NamedTrs,
    items: &[Sexp],
) -> Result<Read<Vec<KboEntry>>, OutOfMemory>
    ensures { IfOk result (λ r. seen (λ v. v.items) r
        ≡ entries symbol_of (kbo_entry system.now) (views items.now)) }
{
    let mut known = SymbolIndex::new(alloc);
    let mut entries = Vec::new(alloc);
    for item in items {
        match read_kbo_entry(system, &mut known, item)? {
            Ok(entry) => entries.push(entry)?,
            Err(at) => return Ok(Err(at)),
        }
    }
    Ok(Ok(entries))
}

/// The weight and the rank of a symbol that is not known yet.
fn read_kbo_entry(
    system: &NamedTrs,
    known: &mut SymbolIndex,
    item: &Sexp,
) -> Result<Read<KboEntry>, OutOfMemory>
    ensures entry { IfOk result (λ r. r ≡ kbo_entry system.now known.old (view item.now)) }
    ensures known { IfOk result (λ r. IfOk r (λ e. known.new ≡ known.old ++ e.symbol ∷ [])) }
{
    let Sexp::List(at, members) = item else {
        return Ok(Err(place(item)));
    };
    let [head, name, weight, rank, more @ ..] = *members else {
        return Ok(Err(*at));
    };
    match add_symbol(known, *at, read_marked_symbol(system, head, name))? {
        Ok(symbol) => {
            let numbers = both(
                read_number(GREATEST_NUMBER, weight),
                read_number(GREATEST_NUMBER, rank),
            );
            Ok(only_stated(*at, more, weigh(symbol, numbers)))
        }
        Err(at) => Ok(Err(at)),
    }
}

/// What an entry states, whatever stands behind its rank.
fn read_stated(system: &NamedTrs, item: &Sexp) -> Read<KboEntry>
    ensures { result ≡ stated_entry system.now (view item.now) }
{
    let Sexp::List(at, members) = item else {
        return Err(place(item));
    };
    let [head, name, weight, rank, _more @ ..] = *members else {
        return Err(*at);
    };
    match read_marked_symbol(system, head, name) {
        Ok(symbol) => {
            let numbers = both(
                read_number(GREATEST_NUMBER, weight),
                read_number(GREATEST_NUMBER, rank),
            );
            weigh(symbol, numbers)
        }
        Err(at) => Err(at),
    }
}

fn weigh(symbol: Symbol, numbers: Read<(u64, u64)>) -> Read<KboEntry>
    ensures value { result ≡ seen (λ p. weighed symbol p.0 p.1) numbers }
    ensures symbol { IfOk result (λ e. e.symbol ≡ symbol.number) }
{
    match numbers {
        Ok((weight, rank)) => Ok(KboEntry {
            symbol: symbol.number,
            arity: symbol.arity,
            weight,
            rank,
        }),
        Err(at) => Err(at),
    }
}

/// An entry at a place with nothing behind, unless it is a constant that weighs nothing.
fn only_stated(at: u32, more: &[Sexp], entry: Read<KboEntry>) -> Read<KboEntry>
    ensures value { result ≡ only_stated at (views more.now) entry }
    ensures same { IfOk result (λ e. entry ≡ Ok e) }
{
    match entry {
        Ok(entry) => {
            if is_too_light(entry) {
                Err(at)
            } else {
                refuse_more(Ok(entry), more)
            }
        }
        Err(at) => Err(at),
    }
}

fn is_too_light(entry: KboEntry) -> bool
    ensures { result ≡ is_too_light entry }
{
    entry.arity == 0 && entry.weight == 0
}

/// The greatest ranks of the entries that state one.
fn top_ranks(system: &NamedTrs, items: &[Sexp]) -> Option<TopRanks>
    ensures { AreTopRanks result (stated system.now (views items.now)) }
{
    let mut top = None;
    for item in items {
        top = with_read(top, read_stated(system, item));
    }
    top
}

fn with_read(top: Option<TopRanks>, entry: Read<KboEntry>) -> Option<TopRanks>
    ensures { result ≡ with_read top entry }
{
    match entry {
        Ok(entry) => with_rank(top, entry.symbol, entry.rank),
        Err(_) => top,
    }
}

/// The place of the first entry that is not on top of the entries with these greatest ranks.
fn first_low(system: &NamedTrs, top: Option<TopRanks>, items: &[Sexp]) -> Option<u32>
    ensures { (es : List Entry) → AreTopRanks top es
        → result ≡ first_low system.now es (views items.now) }
{
    for item in items {
        if is_low(top, read_stated(system, item)) {
            return Some(place(item));
        }
    }
    None
}

fn is_low(top: Option<TopRanks>, entry: Read<KboEntry>) -> bool
    ensures { (es : List Entry) → AreTopRanks top es → result ≡ is_low es entry }
{
    match entry {
        Ok(entry) => {
            entry.arity == 1 && entry.weight == 0 && !are_below(top, entry.symbol, entry.rank)
        }
        Err(_) => false,
    }
}

/// Appends the texts of entries, with a blank before each.
pub fn put_kbo_entries(
    out: &mut Vec<u8>,
    system: &NamedTrs,
    entries: &[KboEntry],
) -> Result<(), OutOfMemory>
    ensures { OnOk result (out.new.items ≡ out.old.items
        ++ spaced (items_of (map (kbo_entry_item system.now) entries.now))) }
{
    for entry in entries {
        put(out, b" ")?;
        put_kbo_entry(out, system, entry)?;
    }
    Ok(())
}

fn put_kbo_entry(out: &mut Vec<u8>, system: &NamedTrs, entry: &KboEntry) -> Result<(), OutOfMemory>
    ensures { OnOk result (out.new.items
        ≡ out.old.items ++ text_of (kbo_entry_item system.now entry.now)) }
{
    put_entry_begin(out, system, entry.symbol)?;
    put(out, b" ")?;
    put_number(out, entry.weight)?;
    put(out, b" ")?;
    put_number(out, entry.rank)?;
    put(out, b")")?;
    Ok(())
}
