ghost use Rattle.std.specs.Prelude.{◌≡◌, ◌≢◌, ◌+◌, ◌++◌, [], None, Some, Ok, OnOk, IfOk, IfErr, false};
ghost use Rattle.sexp_core.specs.Items.{view, views};
ghost use Rattle.ari_text.specs.Entries.{entry_of};
ghost use Rattle.ari_text.specs.EntryView.{entry_view, saying_view};
ghost use Rattle.ari_text.specs.Least.{noted};
ghost use Rattle.ari_text.specs.Unless.{unless_noted};
ghost use Rattle.ari_text.specs.Rules.{rules_of};
ghost use Rattle.ari_text.specs.Faults.{deep_faults, all_deep_faults, left_faults, side_faults, all_side_faults, count_faults, declaration_faults, twice_faults, arity_faults, with_symbol, symbols_after, room_after, whole_room, symbols_of, all_declaration_faults, faults_of};

use crate::counting::Room;
use crate::entry::{Entry, Saying, read_entry};
use crate::fault::{AriFault, note};
use crate::rules::read_rules;
use names_text::Symbols;
use numerals::digits_value;
use sexp_core::Sexp;
use std::alloc::{AllocError, Global};
use term_text::{Judged, Refusal};
use text_reading::place;
use trs_core::Rule;

// Whether anything may stand so many levels deeper: in a word only the word itself does.
#[tactic(auto, using(crate::proofs::Noting::word_is_shallow))]
fn may_be_deep(levels: u32, term: &Sexp) -> bool
    ensures { result ≡ false → deep_faults levels (view term.now) ≡ [] }
{
    match term {
        Sexp::Word(_, _) => levels == 0,
        Sexp::List(_, _) => true,
    }
}

// Each subterm that stands so many levels deeper.
#[cycle(deep)]
fn note_deep(least: &mut Option<AriFault>, levels: u32, term: &Sexp)
    ensures { least.new ≡ noted least.old (deep_faults levels (view term.now)) }
{
    let Some(below) = levels.checked_sub(1) else {
        note(least, AriFault::TooDeep(place(term)));
        return;
    };
    match term {
        Sexp::Word(_, _) => {}
        Sexp::List(_, members) => {
            let Some((_, args)) = members.split_first() else {
                return;
            };
            note_all_deep(least, below, args);
        }
    }
}

#[cycle(deep)]
fn note_all_deep(least: &mut Option<AriFault>, levels: u32, args: &[Sexp])
    ensures { least.new ≡ noted least.old (all_deep_faults levels (views args.now)) }
{
    for arg in args {
        if may_be_deep(levels, arg) {
            note_deep(least, levels, arg);
        }
    }
}

// A left side that is a variable.
fn note_left(least: &mut Option<AriFault>, symbols: &Symbols, left: &Sexp)
    ensures { least.new ≡ noted least.old (left_faults symbols.now (view left.now)) }
{
    match left {
        Sexp::List(_, _) => {}
        Sexp::Word(at, name) => {
            let None = symbols.find(name) else {
                return;
            };
            note(least, AriFault::LeftIsVariable(*at));
        }
    }
}

// What an item says: a left side that is a variable, and what stands at depth 257 in a side.
#[tactic(auto, using(crate::proofs::Leasts::noted_append, crate::proofs::Noting::side_faults_aside, std::proofs::lemmas::Grind::common_steps))]
fn note_sides(least: &mut Option<AriFault>, symbols: &Symbols, item: &Sexp)
    ensures { least.new ≡ noted least.old (side_faults symbols.now (entry_of (view item.now))) }
{
    if let Saying::Rewrites(left, right) = read_entry(item).saying {
        note_left(least, symbols, left);
        note_deep(least, 256, left);
        note_deep(least, 256, right);
    }
}

// What an item says wrongly, its terms aside, behind these symbols.
fn note_saying(least: &mut Option<AriFault>, symbols: &Symbols, at: u32, saying: &Saying<'_, '_>)
    ensures { least.new
        ≡ noted least.old (declaration_faults symbols.now at (saying_view saying.now)) }
{
    match saying {
        Saying::Rewrites(_, _) => {}
        Saying::Nothing => note(least, AriFault::BadItem(at)),
        Saying::Declares(name, name_at, arity, arity_at) => {
            if symbols.find(name).is_some() {
                note(least, AriFault::Twice(*name_at));
            }
            if digits_value(arity, 255).is_none() {
                note(least, AriFault::BadArity(*arity_at));
            }
        }
    }
}

#[tactic(auto, using(crate::proofs::Leasts::noted_append))]
fn note_entry(least: &mut Option<AriFault>, symbols: &Symbols, at: u32, entry: &Entry<'_, '_>)
    ensures { least.new
        ≡ noted least.old (declaration_faults symbols.now at (entry_view entry.now)) }
{
    note_saying(least, symbols, at, &entry.saying);
    if let Some(at) = entry.attribute {
        note(least, AriFault::Attribute(at));
    }
}

// The symbol that an item declares, if its name is new, its arity good, and nothing else is there.
fn declare(symbols: &mut Symbols, alloc: Global, entry: &Entry<'_, '_>) -> Result<(), AllocError>
    ensures { OnOk result (symbols.new ≡ symbols_after symbols.old (entry_view entry.now)) }
{
    let None = entry.attribute else {
        return Ok(());
    };
    let Saying::Declares(name, _, arity, _) = entry.saying else {
        return Ok(());
    };
    let None = symbols.find(name) else {
        return Ok(());
    };
    let Some(arity) = digits_value(arity, 255) else {
        return Ok(());
    };
    symbols.add(Vec::from_slice(alloc, name)?, arity as u8)
}

// An item that is too many.
#[tactic(auto, using(crate::proofs::Rooms::count_faults_by_test))]
fn note_count(least: &mut Option<AriFault>, room: &mut Room, at: u32, entry: &Entry<'_, '_>)
    ensures least { least.new ≡ noted least.old (count_faults room.old at (entry_view entry.now)) }
    ensures room { room.new ≡ room_after room.old (entry_view entry.now) }
{
    if room.count(entry) {
        note(least, AriFault::TooMany(at));
    }
}

/// The declared symbols, and the least of the faults so far.
#[derive(Drop)]
struct Declarations {
    symbols: Symbols,
    least: Option<AriFault>,
}

// What the items declare, and the least of the faults of that.
fn check_declarations(alloc: Global, items: &[Sexp]) -> Result<Declarations, AllocError>
    ensures symbols { IfOk result (λ d. d.symbols ≡ symbols_of [] (views items.now)) }
    ensures least { IfOk result (λ d. d.least
        ≡ noted None (all_declaration_faults [] whole_room (views items.now))) }
{
    let mut symbols = Symbols::new(alloc);
    let mut least = None;
    let mut room = Room::new();
    for item in items {
        let at = place(item);
        let entry = read_entry(item);
        note_count(&mut least, &mut room, at, &entry);
        note_entry(&mut least, &symbols, at, &entry);
        declare(&mut symbols, alloc, &entry)?;
    }
    Ok(Declarations { symbols, least })
}

fn note_all_sides(least: &mut Option<AriFault>, symbols: &Symbols, items: &[Sexp])
    ensures { least.new ≡ noted least.old (all_side_faults symbols.now (views items.now)) }
{
    for item in items {
        note_sides(least, symbols, item);
    }
}

// What was read, if there is no other fault, else the least of all faults.
fn unless<T: Drop>(read: Judged<T, AriFault>, least: Option<AriFault>) -> Result<T, AriFault>
    ensures { result ≡ unless_noted read least }
{
    match least {
        None => read,
        Some(known) => match read {
            Ok(_) => Err(known),
            Err(fault) => Err(known.both(fault)),
        },
    }
}

/// The symbols that the items behind the format declare, and their rules, or the least of all faults of these items.
pub fn check(alloc: Global, items: &[Sexp]) -> Result<(Symbols, Vec<Rule>), AriFault>
    ensures symbols { IfOk result (λ c. c.0 ≡ symbols_of [] (views items.now)) }
    ensures rules { IfOk result (λ c. rules_of (symbols_of [] (views items.now)) (views items.now)
        ≡ Ok c.1.items) }
    ensures faultless { OnOk result (noted None (faults_of (views items.now)) ≡ None) }
    ensures fault { IfErr result (λ e. e ≢ AriFault.OutOfMemory
        → noted None (faults_of (views items.now)) ≡ Some e) }
{
    let Declarations { symbols, mut least } = check_declarations(alloc, items)?;
    note_all_sides(&mut least, &symbols, items);
    let rules = unless(read_rules(alloc, &symbols, items)?, least)?;
    Ok((symbols, rules))
}
