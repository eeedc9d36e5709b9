ghost use Rattle.std.specs.Prelude.{◌≡◌, ◌++◌, ◌∷◌, [], None, OnOk, OnErr};
ghost use Rattle.names_text.specs.Symbols.{symbol_named, names_of, arities_of};

use crate::names::Names;
use crate::table::{Symbol, SymbolTable};
use std::alloc::{AllocError, Global};
use std::marker::Model;

/// The declared symbols: names with arities, in the order of their declarations.
#[derive(Drop)]
pub struct Symbols {
    names: Names,
    arities: Vec<u8>,
}

impl Model for Symbols {
    ghost use Rattle.std.specs.Prelude.{List, ◌≡◌, length};
    ghost use Rattle.names_text.specs.Symbols.{Declared, paired};

    ghost Value = { List Declared };

    ghost view = { λ s. paired s.names s.arities.items };

    ghost invariant = { λ s. length s.names ≡ length s.arities.items };
}

impl Symbols {
    pub fn new(alloc: Global) -> Symbols
        ensures { result ≡ [] }
    {
        Symbols {
            names: Names::new(alloc),
            arities: Vec::new(alloc),
        }
    }

    /// The symbols by their names.
    pub fn table(&self) -> SymbolTable<'_>
        ensures { result ≡ self.now }
    {
        SymbolTable::new(&self.names, &self.arities)
    }

    /// The symbol with a name, if it is declared.
    pub fn find(&self, name: &[u8]) -> Option<Symbol>
        ensures { result ≡ symbol_named self.now name.now }
    {
        self.table().find(name)
    }

    /// The names, in the order of their declarations.
    pub fn names(&self) -> &Names
        ensures { result.now ≡ names_of self.now }
    {
        &self.names
    }

    /// One more symbol, whose name is not declared.
    pub fn add(&mut self, name: Vec<u8>, arity: u8) -> Result<(), AllocError>
        requires { symbol_named self.old name.items ≡ None }
        ensures ok { OnOk result (self.new ≡ self.old ++ (name.items, arity) ∷ []) }
        ensures err { OnErr result (self.new ≡ self.old) }
    {
        self.arities.push(arity)?;
        let Ok(()) = self.names.add(name) else {
            self.arities.pop();
            return Err(AllocError);
        };
        Ok(())
    }

    /// The names and the arities, each in the order of the declarations.
    pub fn into_parts(self) -> (Names, Vec<u8>)
        ensures names { result.0 ≡ names_of self }
        ensures arities { result.1.items ≡ arities_of self }
    {
        (self.names, self.arities)
    }
}
