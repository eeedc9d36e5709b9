ghost use Rattle.std.specs.Prelude.{◌≡◌, ◌-◌, ◌^◌, ◌++◌, ◌∷◌, Ok, [], map, IfOk, OnOk};
ghost use Rattle.sexp_core.specs.Items.{view, views, items_of};
ghost use Rattle.sexp_core.specs.Printed.{text_of, spaced};
ghost use Rattle.text_reading.specs.Reading.{many};
ghost use Rattle.text_reading.specs.Numbers.{number};
ghost use Rattle.text_reading.specs.Seen.{seen};
ghost use Rattle.poly_lin.specs.Plain.{plain};
ghost use Rattle.pair_text.specs.LinearEntries.{polynomial, coefficients, linear_entry, linear_entry_item, linear_entries};

use crate::add_symbol;
use crate::entries::put_entry_begin;
use crate::symbols::read_marked_symbol;
use names_text::{NamedTrs, Symbol};
use pair_order::SymbolIndex;
use poly_lin::LinTable;
use sexp_core::Sexp;
use std::alloc::Global;
use text_reading::{Read, place, push, put, put_numbers, read_number, refuse_more};
use trs_core::{GREATEST_NUMBER, OutOfMemory};

/// A table of linear polynomials, by its entries `(sym name number ..)` and `(mark name number ..)`, no symbol twice.
pub fn read_linear_table(
    alloc: Global,
    system: &NamedTrs,
    items: &[Sexp],
) -> Result<Read<LinTable>, OutOfMemory>
    ensures { IfOk result (λ r. r ≡ linear_entries system.now (views items.now)) }
{
    match read_linear_entries(alloc, system, items)? {
        Ok(entries) => match LinTable::new(alloc, entries) {
            Ok(table) => Ok(Ok(table)),
            // The entries have no fault, so only memory can have run out.
            Err(_) => Err(OutOfMemory),
        },
        Err(at) => Ok(Err(at)),
    }
}

fn read_linear_entries(
    alloc: Global,
    system: &NamedTrs,
    items: &[Sexp],
) -> Result<Read<Vec<(u32, Vec<u64>)>>, OutOfMemory>
    ensures { IfOk result (λ r.
        seen (λ v. map plain v.items) r ≡ linear_entries system.now (views items.now)) }
{
    let mut known = SymbolIndex::new(alloc);
    let mut entries = Vec::new(alloc);
    for item in items {
        match read_linear_entry(alloc, system, &mut known, item)? {
            Ok(entry) => entries.push(entry)?,
            Err(at) => return Ok(Err(at)),
        }
    }
    Ok(Ok(entries))
}

/// The polynomial of a symbol that is not known yet.
fn read_linear_entry(
    alloc: Global,
    system: &NamedTrs,
    known: &mut SymbolIndex,
    item: &Sexp,
) -> Result<Read<(u32, Vec<u64>)>, OutOfMemory>
    ensures entry { IfOk result (λ r.
        seen plain r ≡ linear_entry system.now known.old (view item.now)) }
    ensures known { IfOk result (λ r. IfOk r (λ e. known.new ≡ known.old ++ e.0 ∷ [])) }
{
    let Sexp::List(at, members) = item else {
        return Ok(Err(place(item)));
    };
    let [head, name, numbers @ ..] = *members else {
        return Ok(Err(*at));
    };
    if numbers.is_empty() {
        return Ok(Err(*at));
    }
    match add_symbol(known, *at, read_marked_symbol(system, head, name))? {
        Ok(symbol) => read_coefficients(alloc, *at, symbol, numbers),
        Err(at) => Ok(Err(at)),
    }
}

/// One number more than the symbol's arity, behind its name in a list at a place.
fn read_coefficients(
    alloc: Global,
    at: u32,
    symbol: Symbol,
    items: &[Sexp],
) -> Result<Read<(u32, Vec<u64>)>, OutOfMemory>
    ensures value { IfOk result (λ r.
        seen plain r ≡ coefficients symbol at (Ok (polynomial symbol)) (views items.now)) }
    ensures symbol { IfOk result (λ r. IfOk r (λ e. e.0 ≡ symbol.number)) }
{
    let count = usize::from(symbol.arity) + 1;
    if items.len() < count {
        return Ok(Err(at));
    }
    let (numbers, more) = items.split_at(count);
    let numbers = read_numbers(alloc, numbers)?;
    match refuse_more(numbers, more) {
        Ok(numbers) => Ok(Ok((symbol.number, numbers))),
        Err(at) => Ok(Err(at)),
    }
}

fn read_numbers(alloc: Global, items: &[Sexp]) -> Result<Read<Vec<u64>>, OutOfMemory>
    ensures { IfOk result (λ r.
        seen (λ v. v.items) r ≡ many (number (2 ^ 63 - 1)) (views items.now)) }
{
    let mut numbers = Ok(Vec::with_capacity(alloc, items.len())?);
    for item in items {
        push(&mut numbers, read_number(GREATEST_NUMBER, item))?;
    }
    Ok(numbers)
}

/// Appends the texts of entries, with a blank before each.
pub fn put_linear_entries(
    out: &mut Vec<u8>,
    system: &NamedTrs,
    entries: &[(u32, Vec<u64>)],
) -> Result<(), OutOfMemory>
    ensures { OnOk result (out.new.items ≡ out.old.items
        ++ spaced (items_of (map (linear_entry_item system.now) (map plain entries.now)))) }
{
    for (symbol, numbers) in entries {
        put(out, b" ")?;
        put_linear_entry(out, system, *symbol, numbers)?;
    }
    Ok(())
}

fn put_linear_entry(
    out: &mut Vec<u8>,
    system: &NamedTrs,
    symbol: u32,
    numbers: &[u64],
) -> Result<(), OutOfMemory>
    ensures { OnOk result (out.new.items
        ≡ out.old.items ++ text_of (linear_entry_item system.now (symbol, numbers.now))) }
{
    put_entry_begin(out, system, symbol)?;
    put_numbers(out, numbers)?;
    put(out, b")")?;
    Ok(())
}
