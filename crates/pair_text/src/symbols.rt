ghost use Rattle.std.specs.Prelude.{◌≡◌, ◌≤◌, ◌<◌, ◌++◌, IfOk, OnOk};
ghost use Rattle.sexp_core.specs.Items.{view};
ghost use Rattle.pair_text.specs.Symbols.{symbol, mark, with_mark, marked_symbol, argument_place, name_of};

use names_text::{NamedTrs, Symbol};
use pair_order::MARK;
use sexp_core::Sexp;
use text_reading::{Read, both, place, put, read_positive};
use trs_core::OutOfMemory;

/// The symbol with a name.
pub fn read_symbol(system: &NamedTrs, item: &Sexp) -> Read<Symbol>
    ensures symbol { result ≡ symbol system.now (view item.now) }
    ensures small { IfOk result (λ s. s.number < 4096) }
{
    // A system has at most 4,095 symbols, so marked ones have numbers of their own.
    prove!(system.symbols() <= 4_095);
    let Sexp::Word(at, name) = item else {
        return Err(place(item));
    };
    match system.table().find(name) {
        Some(symbol) => Ok(symbol),
        None => Err(*at),
    }
}

/// The symbol of an entry, `sym name` or `mark name`, with the number that it has in tables.
pub(crate) fn read_marked_symbol(system: &NamedTrs, head: &Sexp, name: &Sexp) -> Read<Symbol>
    ensures { result ≡ marked_symbol system.now (view head.now) (view name.now) }
{
    let added = read_mark(head);
    let symbol = read_symbol(system, name);
    match both(added, symbol) {
        Ok((added, symbol)) => Ok(Symbol {
            number: symbol.number + added,
            arity: symbol.arity,
        }),
        Err(at) => Err(at),
    }
}

fn read_mark(item: &Sexp) -> Read<u32>
    ensures mark { result ≡ mark (view item.now) }
    ensures small { IfOk result (λ added. added ≤ 4096) }
{
    match item {
        Sexp::Word(at, word) => {
            if word.as_slice() == b"sym".as_slice() {
                Ok(0)
            } else if word.as_slice() == b"mark".as_slice() {
                Ok(MARK)
            } else {
                Err(*at)
            }
        }
        Sexp::List(at, _) => Err(*at),
    }
}

/// The place of an argument, from 1 to the arity of a symbol.
pub(crate) fn read_argument_place(arity: u8, item: &Sexp) -> Read<u8>
    ensures { result ≡ argument_place arity (view item.now) }
{
    match read_positive(u64::from(arity), item) {
        Ok(argument) => Ok(argument as u8),
        Err(at) => Err(at),
    }
}

/// Appends the name of a symbol. One that the system does not have is written as no bytes.
pub fn put_name(out: &mut Vec<u8>, system: &NamedTrs, symbol: u32) -> Result<(), OutOfMemory>
    ensures { OnOk result (out.new.items ≡ out.old.items ++ name_of system.now symbol) }
{
    if symbol < system.symbols() {
        put(out, system.name(symbol))?;
    }
    Ok(())
}
