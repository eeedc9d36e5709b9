ghost use Rattle.std.specs.Prelude.{◌≡◌, length};
ghost use Rattle.names_text.specs.Symbols.{paired, symbol_named};

use crate::names::Names;
use std::marker::Model;

/// A symbol: its number, counted from 0, and how many arguments it takes.
#[derive(Clone, Copy)]
pub struct Symbol {
    pub number: u32,
    pub arity: u8,
}

/// Symbols by their names. Contracts see the list of the names with their arities.
#[derive(Drop)]
pub struct SymbolTable<'s> {
    names: &'s Names,
    arities: &'s [u8],
}

impl<'s> Model for SymbolTable<'s> {
    ghost use Rattle.std.specs.Prelude.{List, ◌≡◌, length};
    ghost use Rattle.names_text.specs.Symbols.{Declared, paired};

    ghost Value = { List Declared };

    ghost view = { λ s. paired s.names.now s.arities.now };

    ghost invariant = { λ s. length s.names.now ≡ length s.arities.now };
}

impl<'s> SymbolTable<'s> {
    /// Names beside the arities of the symbols.
    pub fn new(names: &'s Names, arities: &'s [u8]) -> SymbolTable<'s>
        requires { length names.now ≡ length arities.now }
        ensures { result ≡ paired names.now arities.now }
    {
        SymbolTable { names, arities }
    }

    /// The symbol with a name.
    pub fn find(&self, name: &[u8]) -> Option<Symbol>
        ensures { result ≡ symbol_named self.now name.now }
    {
        let number = self.names.find(name)?;
        Some(Symbol {
            number: number as u32,
            arity: self.arities[number],
        })
    }
}
