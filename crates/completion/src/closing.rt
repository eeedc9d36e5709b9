ghost use Rattle.std.specs.Prelude.{◌≡◌, ◌≤◌, ◌⊎◌, IfOk, IfSome, OnOk, IsTrue, false, map, take};
ghost use Rattle.completion.specs.GreaterBy.{GreaterBy};
ghost use Rattle.completion.specs.CompletionRun.{Closes, Finds, sides};
ghost use Rattle.completion.specs.Answers.{plain_ending, HasArities};
ghost use Rattle.completion.specs.Treating.{IsOutcome, is_passed};
ghost use Rattle.crit_pairs.specs.Table.{HasFirstPeaks, AreAllPairs};
ghost use Rattle.completion.specs.MetTerms.{IsMet, KeepsBase};
ghost use Rattle.completion.specs.Taking.{ArePairsOver, Looks};

use crate::Completion;
use crate::growing::{GrowingTrs, growing_systems_are_valid};
use crate::met::Met;
use crate::treating::{Outcome, treat, treat_ids};
use crit_pairs::{
    Peak, PeakFault, PeakPair, PeakTable, first_peaks, is_large_result, shared_peaks,
};
use path_lpo::Lpo;
use rewrite_core::{BuiltTop, CheckFault};
use std::alloc::Global;
use trs_core::{OutOfMemory, Rule, Trs, systems_are_valid};

/// How many critical peaks are made at first: mostly one of them gives a rule.
const FEW: usize = 64;

/// The critical peaks of the rules, and after each new rule those of all rules anew.
pub(crate) fn close(
    alloc: Global,
    order: &Lpo,
    rules: GrowingTrs,
    terms: Met,
    units: u64,
) -> Result<Completion, OutOfMemory>
    requires { IsMet rules.rules terms }
    ensures closes { IfOk result (λ c. Closes rules.arities (GreaterBy order.now)
        rules.rules units (plain_ending c)) }
    ensures arities { IfOk result (HasArities rules.arities) }
{
    let mut system = rules;
    let mut met = terms;
    let mut table = PeakTable::new(alloc);
    let mut is_first = !has_large_result(system.rules());
    let mut left = units;
    loop {
        let looked = look(alloc, order, &system, &mut met, table, is_first, left)?;
        let Finding { found, known } = looked;
        match found {
            Outcome::Passed(_) => {
                let trs = system.into_trs()?;
                return Ok(Completion::Done(trs));
            }
            Outcome::Added(rule, units) => {
                met.add_rule(alloc, &rule)?;
                system = system.with_rule(alloc, rule)?;
                table = known;
                is_first = false;
                left = units;
            }
            Outcome::Ended(why) => return Ok(why),
        }
    }
}

/// Whether a right side is large and has no variable: to count its nodes at each peak takes longer
/// than to make all peaks at once, where it has its id already.
fn has_large_result(rules: &[Rule]) -> bool {
    for rule in rules {
        if is_large_result(&rule.right) {
            return true;
        }
    }
    false
}

/// What became of the peaks, and a table of those of the first rules.
#[derive(Drop)]
struct Finding {
    found: Outcome,
    known: PeakTable,
}

/// The first of the critical peaks that is not passed over. At the first look all of them are
/// counted, but only where a few are passed over are all of them made.
fn look(
    alloc: Global,
    order: &Lpo,
    system: &GrowingTrs,
    met: &mut Met,
    table: PeakTable,
    is_first: bool,
    units: u64,
) -> Result<Finding, OutOfMemory>
    requires met { IsMet system.now.rules met.old }
    requires table { HasFirstPeaks system.now.rules (take met.old.base met.old.pool) table }
    ensures looks { IfOk result (λ look. IsOutcome (Looks system.now.arities
        (GreaterBy order.now) system.now.rules units) look.found) }
    ensures table { IfOk result (λ look.
        HasFirstPeaks system.now.rules (take met.new.base met.new.pool) look.known) }
    ensures met { OnOk result (IsMet system.now.rules met.new) }
{
    if is_first {
        look_at_few(alloc, order, system, met, table, units)
    } else {
        look_on(alloc, order, system, met, table, units)
    }
}

/// The first look: a few peaks are made, and all of them only where these are passed over.
fn look_at_few(
    alloc: Global,
    order: &Lpo,
    system: &GrowingTrs,
    met: &mut Met,
    table: PeakTable,
    units: u64,
) -> Result<Finding, OutOfMemory>
    requires met { IsMet system.now.rules met.old }
    requires table { HasFirstPeaks system.now.rules (take met.old.base met.old.pool) table }
    ensures looks { IfOk result (λ look. IsOutcome (Looks system.now.arities
        (GreaterBy order.now) system.now.rules units) look.found) }
    ensures table { IfOk result (λ look.
        HasFirstPeaks system.now.rules (take met.new.base met.new.pool) look.known) }
    ensures met { OnOk result (IsMet system.now.rules met.new) }
{
    if let Some(found) = look_at_first(alloc, order, system, met, FEW, units)? {
        return Ok(Finding {
            found,
            known: table,
        });
    }
    look_on(alloc, order, system, met, table, units)
}

/// A later look: of the peaks only those are made in which new rules take part.
fn look_on(
    alloc: Global,
    order: &Lpo,
    system: &GrowingTrs,
    met: &mut Met,
    table: PeakTable,
    units: u64,
) -> Result<Finding, OutOfMemory>
    requires met { IsMet system.now.rules met.old }
    requires table { HasFirstPeaks system.now.rules (take met.old.base met.old.pool) table }
    ensures looks { IfOk result (λ look. IsOutcome (Looks system.now.arities
        (GreaterBy order.now) system.now.rules units) look.found) }
    ensures table { IfOk result (λ look.
        HasFirstPeaks system.now.rules (take met.new.base met.new.pool) look.known) }
    ensures met { OnOk result (IsMet system.now.rules met.new) }
{
    match met.grow_table(alloc, system, table)? {
        Some(known) => {
            let pairs = known.pairs(alloc)?;
            let found = find_pair(alloc, order, system, met, &pairs, units)?;
            Ok(Finding { found, known })
        }
        None => {
            let found = look_at_all(alloc, order, system, met, units)?;
            let known = PeakTable::new(alloc);
            Ok(Finding { found, known })
        }
    }
}

/// The same, where the table passes a limit: the peaks mostly do too, and are counted first.
fn look_at_all(
    alloc: Global,
    order: &Lpo,
    system: &GrowingTrs,
    met: &mut Met,
    units: u64,
) -> Result<Outcome, OutOfMemory>
    requires { IsMet system.now.rules met.old }
    ensures looks { IfOk result (IsOutcome (Looks system.now.arities (GreaterBy order.now)
        system.now.rules units)) }
    ensures met { OnOk result (IsMet system.now.rules met.new) }
{
    if let Some(found) = look_at_first(alloc, order, system, met, FEW, units)? {
        return Ok(found);
    }
    let trs = system.to_trs(alloc)?;
    look_at_each(alloc, order, system, &trs, met, units)
}

/// The same, where all peaks are made, with the system made.
fn look_at_each(
    alloc: Global,
    order: &Lpo,
    system: &GrowingTrs,
    trs: &Trs,
    met: &mut Met,
    units: u64,
) -> Result<Outcome, OutOfMemory>
    requires same { trs.now ≡ system.now }
    requires met { IsMet system.now.rules met.old }
    ensures looks { IfOk result (IsOutcome (Looks system.now.arities (GreaterBy order.now)
        system.now.rules units)) }
    ensures met { OnOk result (IsMet system.now.rules met.new) }
{
    systems_are_valid(trs);
    match shared_peaks(alloc, trs) {
        Ok(peaks) => {
            let found = find(alloc, order, system, met, &peaks, units)?;
            Ok(found)
        }
        Err(PeakFault::OutOfMemory) => Err(OutOfMemory),
        Err(PeakFault::TooLarge) => Ok(Outcome::Ended(Completion::Limit)),
        Err(PeakFault::TooMany) => Ok(Outcome::Ended(Completion::Limit)),
    }
}

/// The first of the critical peaks that is not passed over, where so many at most are made. `None`
/// where they do not decide.
fn look_at_first(
    alloc: Global,
    order: &Lpo,
    system: &GrowingTrs,
    met: &mut Met,
    most: usize,
    units: u64,
) -> Result<Option<Outcome>, OutOfMemory>
    requires { IsMet system.now.rules met.old }
    ensures looks { IfOk result (λ found. IfSome found (IsOutcome (
        Looks system.now.arities (GreaterBy order.now) system.now.rules units))) }
    ensures kept { OnOk result (KeepsBase met.old met.new) }
    ensures met { OnOk result (IsMet system.now.rules met.new) }
{
    if let Some(trs) = system.as_single() {
        return look_at_listed(alloc, order, system, trs, met, most, units);
    }
    let trs = system.to_trs(alloc)?;
    look_at_listed(alloc, order, system, &trs, met, most, units)
}

/// The same, with the system made.
fn look_at_listed(
    alloc: Global,
    order: &Lpo,
    system: &GrowingTrs,
    trs: &Trs,
    met: &mut Met,
    most: usize,
    units: u64,
) -> Result<Option<Outcome>, OutOfMemory>
    requires same { trs.now ≡ system.now }
    requires met { IsMet system.now.rules met.old }
    ensures looks { IfOk result (λ found. IfSome found (IsOutcome (
        Looks system.now.arities (GreaterBy order.now) system.now.rules units))) }
    ensures kept { OnOk result (KeepsBase met.old met.new) }
    ensures met { OnOk result (IsMet system.now.rules met.new) }
{
    systems_are_valid(trs);
    match first_peaks(alloc, trs, most) {
        Ok(few) => {
            let found = find(alloc, order, system, met, &few.peaks, units)?;
            if is_settled(&found, few.count, most) {
                return Ok(Some(found));
            }
            Ok(None)
        }
        Err(CheckFault::OutOfMemory) => Err(OutOfMemory),
        Err(CheckFault::Refused(_)) => Ok(Some(Outcome::Ended(Completion::Limit))),
    }
}

/// Whether the first of so many peaks decide: they are all, or one of them is not passed over.
fn is_settled(found: &Outcome, count: u64, most: usize) -> bool
    ensures { IsTrue result → (count ≤ most) ⊎ (is_passed found.now ≡ false) }
{
    match found {
        Outcome::Passed(_) => count <= most as u64,
        _ => true,
    }
}

/// The first peak that is not passed over.
fn find<T: BuiltTop>(
    alloc: Global,
    order: &Lpo,
    system: &GrowingTrs,
    met: &mut Met,
    peaks: &[Peak<T>],
    units: u64,
) -> Result<Outcome, OutOfMemory>
    requires pairs { ArePairsOver system.now.arities (map sides peaks.now) }
    requires met { IsMet system.now.rules met.old }
    ensures outcome { IfOk result (IsOutcome (Finds system.now.arities (GreaterBy order.now)
        system.now.rules units (map sides peaks.now))) }
    ensures kept { OnOk result (KeepsBase met.old met.new) }
    ensures met { OnOk result (IsMet system.now.rules met.new) }
{
    let mut left = units;
    for peak in peaks {
        match treat(
            alloc,
            order,
            system,
            met,
            T::term(&peak.left),
            T::term(&peak.right),
            left,
        )? {
            Outcome::Passed(more) => left = more,
            Outcome::Added(rule, more) => return Ok(Outcome::Added(rule, more)),
            Outcome::Ended(why) => return Ok(Outcome::Ended(why)),
        }
    }
    Ok(Outcome::Passed(left))
}

/// The first pair of ids that is not passed over.
fn find_pair(
    alloc: Global,
    order: &Lpo,
    system: &GrowingTrs,
    met: &mut Met,
    pairs: &[PeakPair],
    units: u64,
) -> Result<Outcome, OutOfMemory>
    requires pairs { AreAllPairs system.now.rules (take met.old.base met.old.pool) pairs.now }
    requires met { IsMet system.now.rules met.old }
    ensures looks { IfOk result (IsOutcome (Looks system.now.arities (GreaterBy order.now)
        system.now.rules units)) }
    ensures kept { OnOk result (KeepsBase met.old met.new) }
    ensures met { OnOk result (IsMet system.now.rules met.new) }
{
    growing_systems_are_valid(system);
    let mut left = units;
    for pair in pairs {
        met.make_room();
        match treat_ids(alloc, order, system, met, pair.left, pair.right, left)? {
            Outcome::Passed(more) => left = more,
            Outcome::Added(rule, more) => return Ok(Outcome::Added(rule, more)),
            Outcome::Ended(why) => return Ok(Outcome::Ended(why)),
        }
    }
    Ok(Outcome::Passed(left))
}
