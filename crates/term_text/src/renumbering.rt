ghost use Rattle.std.specs.Prelude.{◌≡◌, [], OnOk, IfOk};
ghost use Rattle.trs_defs.specs.Tree.{var};
ghost use Rattle.trs_defs.specs.Variable.{with_variables};
ghost use Rattle.trs_core.specs.View.{tree, forest};
ghost use Rattle.term_text.specs.Renumbered.{number_among, with_numbers as numbered_tree, all_with_numbers, in_order};

use indexmap::IndexSet;
use std::alloc::{AllocError, Global};
use std::marker::Model;
use trs_core::{Args, OutOfMemory, Term};

/// Variables, each once, numbered from 0 in the order of their first occurrences. Contracts see the
/// list of them.
#[derive(Drop)]
struct Numbers {
    variables: IndexSet<u32>,
}

impl Model for Numbers {
    ghost use Rattle.std.specs.Prelude.{ℕ, List, ◌<◌, ◌^◌, length};

    ghost Value = { List ℕ };

    ghost view = { λ s. s.variables.keys };

    ghost invariant = { λ s. length s.variables.keys < 2 ^ 32 };
}

impl Numbers {
    fn new(alloc: Global) -> Numbers
        ensures { result ≡ [] }
    {
        Numbers {
            variables: IndexSet::new(alloc),
        }
    }

    /// The number of a variable.
    fn of(&self, variable: u32) -> u32
        ensures { result ≡ number_among self.now variable }
    {
        match self.variables.get_index_of(&variable) {
            Some(number) => number as u32,
            None => self.variables.len() as u32,
        }
    }

    /// Adds the variables of a term that are not among them.
    fn add(&mut self, term: &Term) -> Result<(), AllocError>
        ensures { OnOk result (self.new ≡ with_variables self.old (tree term.now)) }
    {
        match term {
            Term::Var(variable) => self.insert(*variable),
            Term::App(_, args) => {
                for arg in &args.items {
                    self.add(arg)?;
                }
                Ok(())
            }
        }
    }

    // One more variable, if it is new. Where there is no room for it memory ran out too.
    fn insert(&mut self, variable: u32) -> Result<(), AllocError>
        ensures { OnOk result (self.new ≡ with_variables self.old (var variable)) }
    {
        if self.variables.len() >= u32::MAX as usize {
            return Err(AllocError);
        }
        self.variables.insert(variable)?;
        Ok(())
    }
}

/// The term with its variables numbered from 0 in the order of their first occurrences.
pub fn in_order(alloc: Global, term: &Term) -> Result<Term, OutOfMemory>
    ensures { IfOk result (λ t. tree t ≡ in_order (tree term.now)) }
{
    let mut numbers = Numbers::new(alloc);
    numbers.add(term)?;
    with_numbers(alloc, &numbers, term)
}

#[cycle(numbered)]
#[tactic(auto, using(crate::proofs::BuiltTerms::behind_push, crate::proofs::BuiltTerms::behind_none, std::proofs::lemmas::Grind::common_steps))]
fn with_numbers(alloc: Global, numbers: &Numbers, term: &Term) -> Result<Term, OutOfMemory>
    ensures { IfOk result (λ t. tree t ≡ numbered_tree numbers.now (tree term.now)) }
{
    match term {
        Term::Var(variable) => Ok(Term::Var(numbers.of(*variable))),
        Term::App(f, args) => {
            let args = all_with_numbers(alloc, numbers, &args.items)?;
            Ok(Term::App(*f, Args::new(args)))
        }
    }
}

#[cycle(numbered)]
#[tactic(auto, using(crate::proofs::BuiltTerms::behind_push, crate::proofs::BuiltTerms::behind_none, std::proofs::lemmas::Grind::common_steps))]
fn all_with_numbers(
    alloc: Global,
    numbers: &Numbers,
    terms: &[Term],
) -> Result<Vec<Term>, OutOfMemory>
    ensures { IfOk result (λ ts. forest ts.items
        ≡ all_with_numbers numbers.now (forest terms.now)) }
{
    let mut copies = Vec::with_capacity(alloc, terms.len())?;
    for term in terms {
        copies.push(with_numbers(alloc, numbers, term)?)?;
    }
    Ok(copies)
}
