ghost use Rattle.std.specs.Prelude.{◌≡◌, ◌+◌, ◌<◌, ◌≤◌, ◌++◌, ◌∷◌, map, length, slice_get, All, Some, option_map, position, not, IfOk, IfSome, OnOk, List, [], ℕ};
ghost use Rattle.std.specs.List.{list_all};
ghost use Rattle.sexp_core.specs.Tokens.{class_of, is_letter};
ghost use Rattle.trs_core.specs.View.{tree};
ghost use Rattle.names_text.specs.Names.{number_among};
ghost use Rattle.names_text.specs.Named.{IsNamed, table_of, is_word, is_shallow, is_numbered, next_number};
ghost use Rattle.names_text.specs.declared.names_fault.NamesFault.TheVariants.{BadName};
ghost use Rattle.names_text.specs.NamesFault.{names_fault, rules_fault, first_bad_name, AnswersBy};

use crate::names::Names;
use crate::names_fault::NamesFault;
use crate::table::SymbolTable;
use std::alloc::Global;
use std::marker::Model;
use trs_core::{Rule, Term, Trs};

/// A rewriting system whose symbols have names, as a problem text can write it: the names are words, each once, no side
/// is deeper than 256, and the variables of a rule are numbered in the order of their first occurrences in its left side.
#[derive(Drop)]
pub struct NamedTrs {
    names: Names,
    trs: Trs,
}

impl Model for NamedTrs {
    ghost use Rattle.names_text.specs.Named.{NamedSystem, named_code, IsNamed};

    ghost Value = { NamedSystem };

    ghost coded = { named_code };

    ghost view = { λ s. record { names = s.names; system = s.trs } };

    ghost invariant = { λ s. IsNamed (record { names = s.names; system = s.trs }) };
}

impl NamedTrs {
    /// The system with a name for each symbol, in the order of the symbols' numbers.
    pub fn new(alloc: Global, names: Vec<Vec<u8>>, trs: Trs) -> Result<NamedTrs, NamesFault>
        ensures named { IfOk result (λ s. s
            ≡ record { names = map (λ n. n.items) names.items; system = trs }) }
        ensures exact { AnswersBy result (names_fault (map (λ n. n.items) names.items) trs) }
    {
        if names.len() != trs.arities().len() {
            return Err(NamesFault::Count);
        }
        let names = distinct_words(alloc, names)?;
        match rules_fault(trs.rules()) {
            Some(fault) => Err(fault),
            None => Ok(NamedTrs { names, trs }),
        }
    }

    /// The system of these parts.
    pub fn from_parts(names: Names, trs: Trs) -> NamedTrs
        requires { IsNamed (record { names = names; system = trs }) }
        ensures { result ≡ record { names = names; system = trs } }
    {
        NamedTrs { names, trs }
    }

    /// The names of the symbols.
    pub fn names(&self) -> &Names
        ensures { result.now ≡ self.now.names }
    {
        &self.names
    }

    pub fn trs(&self) -> &Trs
        ensures trs { result.now ≡ self.now.system }
        ensures named { IsNamed self.now }
    {
        &self.trs
    }

    /// The number of symbols.
    pub fn symbols(&self) -> u32
        ensures symbols { result ≡ length self.now.system.arities }
        ensures names { result ≡ length self.now.names }
        ensures named { IsNamed self.now }
    {
        self.trs.arities().len() as u32
    }

    /// For each symbol, by its number, how many arguments it has.
    pub fn arities(&self) -> &[u8]
        ensures arities { result.now ≡ self.now.system.arities }
        ensures bytes { All (λ a. a ≤ 255) result.now }
    {
        let arities = self.trs.arities();
        arities
    }

    /// The symbols by their names.
    pub fn table(&self) -> SymbolTable<'_>
        ensures { result ≡ table_of self.now }
    {
        SymbolTable::new(&self.names, self.trs.arities())
    }

    /// The name of a symbol.
    pub fn name(&self, f: u32) -> &[u8]
        requires { f < length self.now.names }
        ensures { slice_get self.now.names f ≡ Some result.now }
    {
        self.names.get(f as usize)
    }

    /// The symbol with a name.
    pub fn find(&self, name: &[u8]) -> Option<u32>
        ensures { result ≡ number_among self.now.names name.now }
    {
        match self.names.find(name) {
            None => None,
            Some(f) => Some(f as u32),
        }
    }
}

/// A law, with nothing to run but the reading of the system: by its type its names are words, each once, no side is too
/// deep, and the variables of its rules are numbered in order.
pub fn systems_are_named(system: &NamedTrs)
    ensures { IsNamed system.now }
{
    let _trs = system.trs();
}

/// The names as a set, where each is a word that does not stand before.
#[tactic(auto, using(crate::proofs::NamedSteps::names_next, crate::proofs::NamedSteps::names_fail, std::proofs::lemmas::Grind::common_steps))]
fn distinct_words(alloc: Global, names: Vec<Vec<u8>>) -> Result<Names, NamesFault>
    requires { length names.items ≤ 4095 }
    ensures names { IfOk result (λ known. known ≡ map (λ n. n.items) names.items) }
    ensures exact { AnswersBy result
        (option_map (λ f. BadName f) (first_bad_name [] (map (λ n. n.items) names.items))) }
{
    let mut known = Names::new(alloc);
    for name in names {
        add_word(&mut known, name)?;
    }
    Ok(known)
}

/// One more name, which is to be a word that is not among the others.
fn add_word(known: &mut Names, name: Vec<u8>) -> Result<(), NamesFault>
    ensures added { OnOk result (known.new ≡ known.old ++ name.items ∷ []) }
    ensures exact { AnswersBy result
        (option_map (λ f. BadName f) (first_bad_name known.old (name.items ∷ []))) }
{
    if !is_word(&name) || known.find(&name).is_some() {
        return Err(NamesFault::BadName(known.len() as u32));
    }
    known.add(name)?;
    Ok(())
}

#[tactic(auto, using(crate::proofs::NamedSteps::word_test))]
fn is_word(name: &[u8]) -> bool
    ensures { result ≡ is_word name.now }
{
    !name.is_empty() && are_letters(name)
}

fn are_letters(name: &[u8]) -> bool
    ensures { result ≡ list_all (λ x. is_letter (class_of x)) name.now }
{
    name.iter().all(|b| is_letter(*b))
}

/// Whether a byte may stand in a word.
#[tactic(auto, unfolding(sexp_core::specs::Tokens::class_of))]
fn is_letter(b: u8) -> bool
    ensures { result ≡ is_letter (class_of b) }
{
    !matches!(
        b,
        b' ' | b'\t' | b'\n' | b'\r' | b';' | b'(' | b')' | 0..=31 | 127
    )
}

/// The fault of the first rule that has one.
fn rules_fault(rules: &[Rule]) -> Option<NamesFault>
    requires { length rules.now ≤ 4095 }
    ensures { result ≡ rules_fault rules.now }
{
    match first_deep(rules) {
        Some(i) => Some(NamesFault::TooDeep(i as u32)),
        None => match first_unnumbered(rules) {
            Some(i) => Some(NamesFault::BadNumbering(i as u32)),
            None => None,
        },
    }
}

fn first_deep(rules: &[Rule]) -> Option<usize>
    ensures first { result ≡ position (λ r. not (is_shallow r)) rules.now }
    ensures within { IfSome result (λ i. i < length rules.now) }
{
    rules.iter().position(|rule| !is_shallow(rule))
}

fn first_unnumbered(rules: &[Rule]) -> Option<usize>
    ensures first { result ≡ position (λ r. not (is_numbered r)) rules.now }
    ensures within { IfSome result (λ i. i < length rules.now) }
{
    rules.iter().position(|rule| !is_numbered(rule))
}

fn is_shallow(rule: &Rule) -> bool
    ensures { result ≡ is_shallow rule.now }
{
    rule.left.depth() <= 256 && rule.right.depth() <= 256
}

fn is_numbered(rule: &Rule) -> bool
    ensures { result ≡ is_numbered rule.now }
{
    next_number(0, &rule.left).is_some()
}

/// The next number behind a term, if its variables are numbered in the order of their first occurrences from a number on.
fn next_number(next: u64, term: &Term) -> Option<u64>
    ensures { result ≡ next_number next (tree term.now) }
{
    match term {
        Term::Var(v) => {
            let v = u64::from(*v);
            if v < next {
                Some(next)
            } else if v == next {
                Some(next + 1)
            } else {
                None
            }
        }
        Term::App(_, args) => {
            let mut next = next;
            for arg in &args.items {
                let Some(after) = next_number(next, arg) else {
                    return None;
                };
                next = after;
            }
            Some(next)
        }
    }
}
