ghost use Rattle.std.specs.Prelude.{◌≡◌, ◌++◌, ◌∷◌, [], IfOk, OnOk};
ghost use Rattle.pair_text.specs.Symbols.{mark_word, unmarked, name_of};
ghost use Rattle.pair_text.specs.Entries.{new_symbol};

use crate::symbols::put_name;
use names_text::{NamedTrs, Symbol};
use pair_order::{MARK, SymbolIndex};
use text_reading::{Read, put};
use trs_core::OutOfMemory;

/// Puts the symbol of an entry at a place behind those of earlier entries. One that is among them is refused at that place.
pub fn add_symbol(
    known: &mut SymbolIndex,
    at: u32,
    symbol: Read<Symbol>,
) -> Result<Read<Symbol>, OutOfMemory>
    ensures symbol { IfOk result (λ r. r ≡ new_symbol known.old at symbol) }
    ensures known { IfOk result (λ r. IfOk r (λ s. known.new ≡ known.old ++ s.number ∷ [])) }
{
    match symbol {
        Ok(symbol) => {
            if known.add(symbol.number)? {
                Ok(Ok(symbol))
            } else {
                Ok(Err(at))
            }
        }
        Err(at) => Ok(Err(at)),
    }
}

/// Appends the begin of an entry, `(sym name` or `(mark name`, by the number that the symbol has in tables.
pub(crate) fn put_entry_begin(
    out: &mut Vec<u8>,
    system: &NamedTrs,
    symbol: u32,
) -> Result<(), OutOfMemory>
    ensures { OnOk result (out.new.items
        ≡ out.old.items ++ 40 ∷ (mark_word symbol ++ 32 ∷ name_of system.now (unmarked symbol))) }
{
    if symbol < MARK {
        put(out, b"(sym ")?;
        put_name(out, system, symbol)
    } else {
        put(out, b"(mark ")?;
        put_name(out, system, symbol - MARK)
    }
}
