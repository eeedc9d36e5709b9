//! The symbols and the variables of a term, each as often as it occurs.
ghost use Rattle.std.specs.Prelude.{◌≡◌, ◌↔◌, ◌++◌, IfOk, OnOk, IsTrue};
ghost use Rattle.std.specs.List.Sorted.{IsNonDecreasing};
ghost use Rattle.trs_core.specs.View.{tree};
ghost use Rattle.trs_core.specs.Occurrences.{occurring_in};
ghost use Rattle.order_search.specs.dp_core.Symbols.{symbols_of};
ghost use Rattle.kbo_find.specs.Occurring.{AreOccurrences, StandAsOften};

use std::alloc::Global;
use trs_core::{OutOfMemory, Term};

/// The symbols and the variables of a term, each as often as it occurs, ascending.
#[derive(Drop)]
pub(crate) struct Occurrences {
    pub(crate) symbols: Vec<u32>,
    pub(crate) variables: Vec<u32>,
}

impl Occurrences {
    /// Those of a term.
    pub(crate) fn of(alloc: Global, t: &Term) -> Result<Occurrences, OutOfMemory>
        ensures { IfOk result (AreOccurrences (tree t.now)) }
    {
        let mut symbols = Vec::new(alloc);
        let mut variables = Vec::new(alloc);
        add_occurrences(t, &mut symbols, &mut variables)?;
        symbols.sort_unstable();
        variables.sort_unstable();
        Ok(Occurrences { symbols, variables })
    }
}

/// Adds those of a term, from the left.
fn add_occurrences(
    t: &Term,
    symbols: &mut Vec<u32>,
    variables: &mut Vec<u32>,
) -> Result<(), OutOfMemory>
    ensures symbols { OnOk result
        (symbols.new.items ≡ symbols.old.items ++ symbols_of (tree t.now)) }
    ensures variables { OnOk result
        (variables.new.items ≡ variables.old.items ++ occurring_in (tree t.now)) }
{
    match t {
        Term::Var(v) => {
            variables.push(*v)?;
        }
        Term::App(f, args) => {
            symbols.push(*f)?;
            for arg in &args.items {
                add_occurrences(arg, symbols, variables)?;
            }
        }
    }
    Ok(())
}

/// Whether each number stands in the first of two ascending lists at least as often as in the
/// second.
pub(crate) fn stands_as_often(many: &[u32], few: &[u32]) -> bool
    requires many { IsNonDecreasing many.now }
    requires few { IsNonDecreasing few.now }
    ensures { IsTrue result ↔ StandAsOften many.now few.now }
{
    let mut found = 0;
    for x in many {
        if found < few.len() && few[found] == *x {
            found += 1;
        }
    }
    found == few.len()
}
