ghost use Rattle.std.specs.Prelude.{◌≡◌, ◌≢◌, ◌≤◌, ◌^◌, length, None, Some, Ok, IfOk, IfErr, OnOk, IsOkUnless, MatchResult};
ghost use Rattle.sexp_core.specs.Items.{view, views};
ghost use Rattle.ari_text.specs.Least.{noted};
ghost use Rattle.ari_text.specs.Faults.{faults_of};
ghost use Rattle.names_text.specs.Named.{NamedSystem, IsNamed};
ghost use Rattle.ari_text.specs.Problem.{is_trs as is_trs_of, format_list_fault as list_fault, format_fault as fault_of_format, problem_fault, later_items, system_of, SaysSystem, IsProblemRefused};
ghost use Rattle.ari_text.specs.PartsView.{parts_view};

use crate::checking::check;
use crate::fault::AriFault;
use bumpalo::Bump;
use names_text::{NamedTrs, Names};
use sexp_core::{Sexp, read_all};
use std::alloc::Global;
use trs_core::{Rule, Trs, TrsFault};

/// The parts of a system whose symbols have names.
#[derive(Drop)]
struct Parts {
    names: Names,
    arities: Vec<u8>,
    rules: Vec<Rule>,
}

/// The system that a problem text says: the ARI format, format TRS, with at most 4,095 symbols and 4,095 rules, 65,536
/// nodes of all sides together, and sides at most 256 deep. It is refused for the fault of the text itself, else for that
/// of the format, else for the one of all others with the least place, and at one place with the least number.
pub fn read_problem(alloc: Global, text: &[u8]) -> Result<NamedTrs, AriFault>
    requires size { length text.now ≤ 2 ^ 31 }
    ensures found { IfOk result (λ s. SaysSystem text.now s) }
    ensures only { (s : NamedSystem) → SaysSystem text.now s
        → MatchResult result (λ r. r ≡ s) (λ e. e ≡ AriFault.OutOfMemory) }
    ensures refused { IfErr result (λ e. IsProblemRefused text.now e) }
{
    let arena = Bump::new(alloc);
    let items = read_all(&arena, alloc, text, 300)?;
    let parts = read_items(alloc, &items)?;
    named_system(parts)
}

// The parts of the system that the items of a text say.
fn read_items(alloc: Global, items: &[Sexp]) -> Result<Parts, AriFault>
    ensures parts { IfOk result (λ p. system_of (later_items (views items.now))
        ≡ Ok (parts_view p)) }
    ensures faultless { OnOk result (problem_fault (views items.now) ≡ None) }
    ensures fault { IfErr result (λ e. e ≢ AriFault.OutOfMemory
        → problem_fault (views items.now) ≡ Some e) }
{
    let Some((format, later)) = items.split_first() else {
        return Err(AriFault::NoFormat);
    };
    match format_fault(format) {
        None => read_later(alloc, later),
        Some(fault) => Err(fault),
    }
}

// The parts of the system that the items behind the format say.
fn read_later(alloc: Global, items: &[Sexp]) -> Result<Parts, AriFault>
    ensures parts { IfOk result (λ p. system_of (views items.now) ≡ Ok (parts_view p)) }
    ensures faultless { OnOk result (noted None (faults_of (views items.now)) ≡ None) }
    ensures fault { IfErr result (λ e. e ≢ AriFault.OutOfMemory
        → noted None (faults_of (views items.now)) ≡ Some e) }
{
    let (symbols, rules) = check(alloc, items)?;
    let (names, arities) = symbols.into_parts();
    Ok(Parts {
        names,
        arities,
        rules,
    })
}

fn named_system(parts: Parts) -> Result<NamedTrs, AriFault>
    requires { IsNamed (parts_view parts) }
    ensures system { IfOk result (λ s. s ≡ parts_view parts) }
    ensures memory { IsOkUnless result AriFault.OutOfMemory }
{
    match Trs::new(parts.arities, parts.rules) {
        Ok(trs) => Ok(NamedTrs::from_parts(parts.names, trs)),
        Err(TrsFault::OutOfMemory) => Err(AriFault::OutOfMemory),
        Err(_) => unreachable!(),
    }
}

// The fault of the first item, which is to be `(format TRS)`.
fn format_fault(item: &Sexp) -> Option<AriFault>
    ensures { result ≡ fault_of_format (view item.now) }
{
    match item {
        Sexp::Word(_, _) => Some(AriFault::NoFormat),
        Sexp::List(at, members) => format_list_fault(*at, members),
    }
}

fn format_list_fault(at: u32, members: &[Sexp]) -> Option<AriFault>
    ensures { result ≡ list_fault at (views members.now) }
{
    let Some((Sexp::Word(_, head), more)) = members.split_first() else {
        return Some(AriFault::NoFormat);
    };
    if head.as_slice() != b"format".as_slice() {
        return Some(AriFault::NoFormat);
    }
    if is_trs(more) {
        None
    } else {
        Some(AriFault::OtherFormat(at))
    }
}

// The members behind the word `format`.
fn is_trs(members: &[Sexp]) -> bool
    ensures { result ≡ is_trs_of (views members.now) }
{
    let Some((Sexp::Word(_, word), more)) = members.split_first() else {
        return false;
    };
    match more.split_first() {
        None => word.as_slice() == b"TRS".as_slice(),
        Some(_) => false,
    }
}
