ghost use Rattle.std.specs.Prelude.{◌≡◌, ◌++◌, ◌∷◌, [], map, IfOk, OnOk};
ghost use Rattle.std.specs.List.{AllByRecursion};
ghost use Rattle.sexp_core.specs.Items.{view, views, items_of};
ghost use Rattle.sexp_core.specs.Printed.{text_of, spaced};
ghost use Rattle.text_reading.specs.Seen.{seen};
ghost use Rattle.pair_text.specs.Projections.{projected, projection, projection_item, projections};
ghost use Rattle.pair_text.specs.Ranges.{HasPlace};

use crate::symbols::read_argument_place;
use crate::{add_symbol, put_name, read_symbol};
use names_text::{NamedTrs, Symbol};
use pair_order::SymbolIndex;
use sexp_core::Sexp;
use std::alloc::Global;
use text_reading::{Read, place, put, put_number, refuse_more};
use trs_core::OutOfMemory;

/// Places of arguments for symbols, each `(name place)`, no symbol twice.
pub fn read_projections(
    alloc: Global,
    system: &NamedTrs,
    items: &[Sexp],
) -> Result<Read<Vec<(u32, u8)>>, OutOfMemory>
    ensures { IfOk result (λ r.
        seen (λ v. v.items) r ≡ projections system.now (views items.now)) }
{
    let mut known = SymbolIndex::new(alloc);
    let mut entries = Vec::new(alloc);
    for item in items {
        match read_projection(system, &mut known, item)? {
            Ok(entry) => entries.push(entry)?,
            Err(at) => return Ok(Err(at)),
        }
    }
    Ok(Ok(entries))
}

/// A symbol that is not known yet, and the place of an argument.
fn read_projection(
    system: &NamedTrs,
    known: &mut SymbolIndex,
    item: &Sexp,
) -> Result<Read<(u32, u8)>, OutOfMemory>
    ensures entry { IfOk result (λ r. r ≡ projection system.now known.old (view item.now)) }
    ensures known { IfOk result (λ r. IfOk r (λ e. known.new ≡ known.old ++ e.0 ∷ [])) }
{
    let Sexp::List(at, members) = item else {
        return Ok(Err(place(item)));
    };
    let [name, argument, more @ ..] = *members else {
        return Ok(Err(*at));
    };
    match add_symbol(known, *at, read_symbol(system, name))? {
        Ok(symbol) => {
            let argument = read_argument_place(symbol.arity, argument);
            Ok(projection_of(symbol, refuse_more(argument, more)))
        }
        Err(at) => Ok(Err(at)),
    }
}

fn projection_of(symbol: Symbol, argument: Read<u8>) -> Read<(u32, u8)>
    ensures value { result ≡ seen (λ n. projected symbol n) argument }
    ensures symbol { IfOk result (λ e. e.0 ≡ symbol.number) }
{
    match argument {
        Ok(argument) => Ok((symbol.number, argument)),
        Err(at) => Err(at),
    }
}

/// Appends the texts of places of arguments for symbols, with a blank before each.
pub fn put_projections(
    out: &mut Vec<u8>,
    system: &NamedTrs,
    entries: &[(u32, u8)],
) -> Result<(), OutOfMemory>
    ensures text { OnOk result (out.new.items
        ≡ out.old.items ++ spaced (items_of (map (projection_item system.now) entries.now))) }
    ensures range { OnOk result (AllByRecursion HasPlace entries.now) }
{
    for (symbol, argument) in entries {
        put(out, b" ")?;
        put_projection(out, system, *symbol, *argument)?;
    }
    Ok(())
}

fn put_projection(
    out: &mut Vec<u8>,
    system: &NamedTrs,
    symbol: u32,
    argument: u8,
) -> Result<(), OutOfMemory>
    ensures { OnOk result (out.new.items
        ≡ out.old.items ++ text_of (projection_item system.now (symbol, argument))) }
{
    put(out, b"(")?;
    put_name(out, system, symbol)?;
    put(out, b" ")?;
    put_number(out, u64::from(argument))?;
    put(out, b")")?;
    Ok(())
}
