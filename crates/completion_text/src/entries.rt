ghost use Rattle.std.specs.Prelude.{◌≡◌, ◌++◌, ◌∷◌, [], map, IfOk};
ghost use Rattle.sexp_core.specs.Items.{view, views};
ghost use Rattle.text_reading.specs.Seen.{seen};
ghost use Rattle.order_theory.specs.Keeping.{places_from};
ghost use Rattle.path_lpo.specs.Plain.{plain};
ghost use Rattle.completion_text.specs.OrderText.{plain_symbol, ranked, entry, entries};

use names_text::{NamedTrs, Symbol};
use pair_order::SymbolIndex;
use pair_text::{add_symbol, read_symbol};
use path_lpo::{Filter, LpoEntry};
use sexp_core::Sexp;
use std::alloc::Global;
use text_reading::{Read, both, keyword, place, read_number, refuse_more};
use trs_core::{GREATEST_NUMBER, OutOfMemory};

/// Entries `(sym name rank)`, no symbol twice.
#[tactic(auto, using(text_reading::proofs::SeenParts::joined_none, pair_text::proofs::InTurnLaws::refused_in_turn, pair_text::proofs::InTurnLaws::all_in_turn))]
pub(crate) fn read_entries(
    alloc: Global,
    system: &NamedTrs,
    items: &[Sexp],
) -> Result<Read<Vec<LpoEntry>>, OutOfMemory>
    ensures { IfOk result (λ r.
        seen (λ v. map plain v.items) r ≡ entries system.now (views items.now)) }
{
    let mut known = SymbolIndex::new(alloc);
    let mut entries = Vec::new(alloc);
    for item in items {
        match read_entry(alloc, system, &mut known, item)? {
            Ok(entry) => entries.push(entry)?,
            Err(at) => return Ok(Err(at)),
        }
    }
    Ok(Ok(entries))
}

/// The rank of a symbol that is not known yet.
fn read_entry(
    alloc: Global,
    system: &NamedTrs,
    known: &mut SymbolIndex,
    item: &Sexp,
) -> Result<Read<LpoEntry>, OutOfMemory>
    ensures entry { IfOk result (λ r. seen plain r ≡ entry system.now known.old (view item.now)) }
    ensures known { IfOk result (λ r. IfOk r (λ e. known.new ≡ known.old ++ e.symbol ∷ [])) }
{
    let Sexp::List(at, members) = item else {
        return Ok(Err(place(item)));
    };
    let [head, name, rank, more @ ..] = *members else {
        return Ok(Err(*at));
    };
    match add_symbol(known, *at, read_plain_symbol(system, head, name))? {
        Ok(symbol) => {
            let rank = read_number(GREATEST_NUMBER, rank);
            ranked_if_read(alloc, symbol, refuse_more(rank, more))
        }
        Err(at) => Ok(Err(at)),
    }
}

/// The symbol of an entry, `sym name`.
fn read_plain_symbol(system: &NamedTrs, head: &Sexp, name: &Sexp) -> Read<Symbol>
    ensures { result ≡ plain_symbol system.now (view head.now) (view name.now) }
{
    match both(keyword(b"sym", head), read_symbol(system, name)) {
        Ok(((), symbol)) => Ok(symbol),
        Err(at) => Err(at),
    }
}

fn ranked_if_read(
    alloc: Global,
    symbol: Symbol,
    rank: Read<u64>,
) -> Result<Read<LpoEntry>, OutOfMemory>
    ensures value { IfOk result (λ r. seen plain r ≡ seen (λ n. ranked symbol n) rank) }
    ensures symbol { IfOk result (λ r. IfOk r (λ e. e.symbol ≡ symbol.number)) }
{
    match rank {
        Ok(rank) => Ok(Ok(entry_of(alloc, symbol, rank)?)),
        Err(at) => Ok(Err(at)),
    }
}

/// The entry of a symbol, which keeps all its arguments.
fn entry_of(alloc: Global, symbol: Symbol, rank: u64) -> Result<LpoEntry, OutOfMemory>
    ensures entry { IfOk result (λ e. plain e ≡ ranked symbol rank) }
    ensures symbol { IfOk result (λ e. e.symbol ≡ symbol.number) }
{
    Ok(LpoEntry {
        symbol: symbol.number,
        rank,
        filter: Filter::Keep(all_places(alloc, symbol.arity)?),
    })
}

/// The places of all arguments, from 1 on.
#[tactic(auto, using(crate::proofs::PlacesFrom::no_place, crate::proofs::PlacesFrom::next_place, crate::proofs::PlacesFrom::all_listed))]
fn all_places(alloc: Global, arity: u8) -> Result<Vec<u8>, OutOfMemory>
    ensures { IfOk result (λ places. places.items ≡ places_from 1 arity) }
{
    let mut places = Vec::with_capacity(alloc, usize::from(arity))?;
    for before in 0..arity {
        places.push(before + 1)?;
    }
    Ok(places)
}
