//! Terms of items, with one answer for all faults.
ghost use Rattle.std.specs.Prelude.{◌≡◌, ◌++◌, ◌∷◌, [], Some, IfOk, OnOk, length};
ghost use Rattle.sexp_core.specs.Items.{view, views};
ghost use Rattle.trs_core.specs.View.{tree, forest};
ghost use Rattle.names_text.specs.Names.{number_among};
ghost use Rattle.names_text.specs.Symbols.{symbol_named};
ghost use Rattle.term_text.specs.Checked.{judged};
ghost use Rattle.term_text.specs.Viewed.{viewed, both_viewed, unless_refused, refused_also, read_behind};
ghost use Rattle.term_text.specs.Terms.{with_variable, with_word, variables_after, all_variables_after, variable, lone, taking, head, term, terms};

use crate::fault::{Refusal, TermFault};
use names_text::{Names, Symbol, SymbolTable};
use sexp_core::Sexp;
use std::alloc::{AllocError, Global};
use text_reading::place;
use trs_core::{Args, OutOfMemory, Term};

/// A value, or one answer for all faults.
pub type Judged<T, F> = Result<T, F>;

// A variable at a place, which may be a new one or not.
fn check_variable<F: Refusal>(
    alloc: Global,
    new: bool,
    variables: &mut Names,
    name: &[u8],
    at: u32,
) -> Result<Judged<Term, F>, AllocError>
    ensures term { IfOk result (λ r. viewed tree r ≡ judged F.of F.both
        (variable new at (length variables.old) (number_among variables.old name.now))) }
    ensures variables { OnOk result (variables.new
        ≡ with_variable new variables.old name.now (number_among variables.old name.now)) }
{
    if let Some(number) = variables.find(name) {
        return Ok(Ok(Term::Var(number as u32)));
    }
    if new {
        let next = variables.len();
        variables.add(Vec::from_slice(alloc, name)?)?;
        Ok(Ok(Term::Var(next as u32)))
    } else {
        Ok(Err(F::of(TermFault::NewVariable(at))))
    }
}

// A lone word at a place.
fn check_word<F: Refusal>(
    alloc: Global,
    new: bool,
    variables: &mut Names,
    name: &[u8],
    at: u32,
    symbol: Option<Symbol>,
) -> Result<Judged<Term, F>, AllocError>
    ensures term { IfOk result (λ r. viewed tree r
        ≡ judged F.of F.both (lone new variables.old name.now at symbol)) }
    ensures variables { OnOk result (variables.new ≡ with_word new variables.old name.now symbol) }
{
    let Some(symbol) = symbol else {
        return check_variable(alloc, new, variables, name, at);
    };
    if symbol.arity == 0 {
        Ok(Ok(Term::App(symbol.number, Args::new(Vec::new(alloc)))))
    } else {
        Ok(Err(F::of(TermFault::LoneSymbol(at))))
    }
}

// A symbol of a term at a place, if as many arguments follow as it takes.
fn check_count<F: Refusal>(at: u32, symbol: Symbol, args: &[Sexp]) -> Judged<u32, F>
    ensures { result ≡ judged F.of F.both (taking symbol.number at symbol.arity (views args.now)) }
{
    match args.get(symbol.arity as usize) {
        Some(extra) => Err(F::of(TermFault::ArgumentExtra(at, place(extra)))),
        None => {
            if args.len() == symbol.arity as usize {
                Ok(symbol.number)
            } else {
                Err(F::of(TermFault::ArgumentLacks(at)))
            }
        }
    }
}

// The head of a term at a place.
fn check_head<F: Refusal>(
    at: u32,
    head_at: u32,
    args: &[Sexp],
    symbol: Option<Symbol>,
) -> Judged<u32, F>
    ensures { result ≡ judged F.of F.both (head at head_at (views args.now) symbol) }
{
    match symbol {
        None => Err(F::of(TermFault::Undeclared(head_at))),
        Some(symbol) => check_count(at, symbol, args),
    }
}

/// Two parts, of which those that are refused have one answer.
pub fn both<X: Drop, Y: Drop, F: Refusal>(x: Judged<X, F>, y: Judged<Y, F>) -> Judged<(X, Y), F>
    ensures { result ≡ both_viewed F.both x y }
{
    match x {
        Ok(x) => match y {
            Ok(y) => Ok((x, y)),
            Err(fault) => Err(fault),
        },
        Err(fault) => match y {
            Ok(_) => Err(fault),
            Err(other) => Err(fault.both(other)),
        },
    }
}

/// Values, and one more.
pub fn push_judged<T: Drop, F: Refusal>(
    parts: Judged<(Vec<T>, T), F>,
) -> Result<Judged<Vec<T>, F>, AllocError>
    ensures { IfOk result (λ r. viewed (λ v. v.items) r
        ≡ viewed (λ p. p.0.items ++ p.1 ∷ []) parts) }
{
    match parts {
        Ok((values, value)) => {
            let mut values = values;
            values.push(value)?;
            Ok(Ok(values))
        }
        Err(fault) => Ok(Err(fault)),
    }
}

// The answer for one more part that is refused.
fn note_refusal<F: Refusal>(refused: &mut Option<F>, answer: F)
    ensures { refused.new ≡ Some (refused_also F.both refused.old answer) }
{
    *refused = Some(match refused.take() {
        None => answer,
        Some(before) => before.both(answer),
    });
}

// A value, or where it is refused another one, which stands for nothing.
fn value_or<T: Drop, F: Refusal>(value: Judged<T, F>, other: T, refused: &mut Option<F>) -> T
    ensures { unless_refused refused.new result ≡ read_behind F.both refused.old value }
{
    match value {
        Ok(value) => value,
        Err(answer) => {
            note_refusal(refused, answer);
            other
        }
    }
}

// The term of a lone word, if it is not refused.
#[inline(never)]
fn word_term<F: Refusal>(
    alloc: Global,
    new: bool,
    variables: &mut Names,
    refused: &mut Option<F>,
    name: &[u8],
    at: u32,
    symbol: Option<Symbol>,
) -> Result<Term, AllocError>
    ensures term { IfOk result (λ t. unless_refused refused.new (tree t)
        ≡ read_behind F.both refused.old
        (judged F.of F.both (lone new variables.old name.now at symbol))) }
    ensures variables { OnOk result (variables.new ≡ with_word new variables.old name.now symbol) }
{
    let term = check_word(alloc, new, variables, name, at, symbol)?;
    Ok(value_or(term, Term::Var(0), refused))
}

// The same over these symbols. Most words are constants, and those are made with no call.
#[inline(always)]
fn lone_term<F: Refusal>(
    alloc: Global,
    symbols: &SymbolTable<'_>,
    new: bool,
    variables: &mut Names,
    refused: &mut Option<F>,
    name: &[u8],
    at: u32,
) -> Result<Term, AllocError>
    ensures term { IfOk result (λ t. unless_refused refused.new (tree t)
        ≡ read_behind F.both refused.old (judged F.of F.both
        (lone new variables.old name.now at (symbol_named symbols.now name.now)))) }
    ensures variables { OnOk result (variables.new
        ≡ with_word new variables.old name.now (symbol_named symbols.now name.now)) }
{
    let found = symbols.find(name);
    if let Some(symbol) = found {
        if symbol.arity == 0 {
            return Ok(Term::App(symbol.number, Args::new(Vec::new(alloc))));
        }
    }
    word_term(alloc, new, variables, refused, name, at, found)
}

// The term of an item, if it is not refused.
#[cycle(check)]
fn item_term<F: Refusal>(
    alloc: Global,
    symbols: &SymbolTable<'_>,
    new: bool,
    variables: &mut Names,
    refused: &mut Option<F>,
    item: &Sexp,
) -> Result<Term, OutOfMemory>
    ensures term { IfOk result (λ t. unless_refused refused.new (tree t)
        ≡ read_behind F.both refused.old
        (judged F.of F.both (term new symbols.now variables.old (view item.now)))) }
    ensures variables { OnOk result (variables.new
        ≡ variables_after new symbols.now variables.old (view item.now)) }
{
    match item {
        Sexp::Word(at, name) => {
            Ok(lone_term(alloc, symbols, new, variables, refused, name, *at)?)
        }
        Sexp::List(at, members) => {
            let Some((head, args)) = members.split_first() else {
                note_refusal(refused, F::of(TermFault::EmptyList(*at)));
                return Ok(Term::Var(0));
            };
            match head {
                Sexp::List(head_at, _) => {
                    note_refusal(refused, F::of(TermFault::ListAsHead(*at, *head_at)));
                    Ok(Term::Var(0))
                }
                Sexp::Word(head_at, name) => {
                    let symbol = check_head(*at, *head_at, args, symbols.find(name));
                    let symbol = value_or(symbol, 0, refused);
                    let args = arguments(alloc, symbols, new, variables, refused, args)?;
                    Ok(Term::App(symbol, Args::new(args)))
                }
            }
        }
    }
}

// The terms of items, if none is refused.
#[cycle(check)]
fn arguments<F: Refusal>(
    alloc: Global,
    symbols: &SymbolTable<'_>,
    new: bool,
    variables: &mut Names,
    refused: &mut Option<F>,
    items: &[Sexp],
) -> Result<Vec<Term>, OutOfMemory>
    ensures terms { IfOk result (λ v. unless_refused refused.new (forest v.items)
        ≡ read_behind F.both refused.old
        (judged F.of F.both (terms new symbols.now variables.old (views items.now)))) }
    ensures variables { OnOk result (variables.new
        ≡ all_variables_after new symbols.now variables.old (views items.now)) }
{
    let mut terms = Vec::with_capacity(alloc, items.len())?;
    for item in items {
        let term = item_term(alloc, symbols, new, variables, refused, item)?;
        terms.push(term)?;
    }
    Ok(terms)
}

/// The term that an item writes over these symbols, behind these variables, or one answer for all faults; whether its
/// variables may be new ones. Those are added.
pub fn check_term<F: Refusal>(
    alloc: Global,
    symbols: &SymbolTable<'_>,
    new: bool,
    variables: &mut Names,
    item: &Sexp,
) -> Result<Judged<Term, F>, OutOfMemory>
    ensures term { IfOk result (λ r. viewed tree r
        ≡ judged F.of F.both (term new symbols.now variables.old (view item.now))) }
    ensures variables { OnOk result (variables.new
        ≡ variables_after new symbols.now variables.old (view item.now)) }
{
    let mut refused = None;
    let term = item_term(alloc, symbols, new, variables, &mut refused, item)?;
    Ok(match refused {
        None => Ok(term),
        Some(answer) => Err(answer),
    })
}
