//! Attempts to extend a closure.
ghost use Rattle.std.specs.Prelude.{◌≡◌, ◌<◌, ◌≤◌, ◌↔◌, ◌++◌, [], ◌∷◌, List, Some, All, IsTrue, map, length, slice_get, IfOk, OnOk};
ghost use Rattle.trs_defs.specs.Position.{subterm_at};
ghost use Rattle.trs_defs.specs.System.{RewriteRule};
ghost use Rattle.trs_core.specs.View.{tree};
ghost use Rattle.term_pool.specs.Redexes.{IsNarrow};
ghost use Rattle.crit_pairs.specs.PeakList.{symbol_places};
ghost use Rattle.assign_search.specs.Continues.{Continues};
ghost use Rattle.loop_find.specs.Closures.{Closure, rule_closures, attempts_at, attempts_of};
ghost use Rattle.loop_find.specs.Links.{closures_of, IsSound};
ghost use Rattle.loop_find.specs.Tries.{Ends};
ghost use Rattle.loop_find.specs.ApartRules.{AreCopies};
ghost use Rattle.loop_find.specs.Narrowed.{NarrowsTo};
ghost use Rattle.loop_find.specs.Trials.{IsTrial, IsPart, Extended, one_attempt};

use crate::apart_rules::narrow_with;
use crate::closures::Closures;
use crate::found::LoopFound;
use crate::narrowing::is_refused;
use crate::tokens::SideTokens;
use assign_search::Stop;
use rewrite_core::PathStep;
use std::alloc::Global;
use trs_core::{OutOfMemory, Position, Term, Trs, systems_are_valid};

/// How a part of the attempts ended: none of the closures that they gave loops, or one does, or the
/// budget was spent, or the stop came.
#[derive(Drop)]
pub(crate) enum Turn {
    Next,
    Found(LoopFound),
    Spent,
    Stopped,
}

impl Turn {
    fn is_next(&self) -> bool
        ensures { IsTrue result ↔ self.now ≡ Turn.Next }
    {
        match self {
            Turn::Next => true,
            _ => false,
        }
    }
}

/// The closure of this number, which is extended, and what it is extended with.
#[derive(Drop)]
pub(crate) struct Trial<'a> {
    pub trs: &'a Trs,
    pub number: usize,
    pub left: &'a Term,
    pub right: &'a Term,
    /// The number of nodes of the right side. It stands still at the last `u64`.
    pub right_size: u64,
    pub budget: u64,
}

/// Makes the attempts at the closure of this number. The first closures are the rules, which lend
/// their sides.
pub(crate) fn expand<P: Stop>(
    alloc: Global,
    trs: &Trs,
    budget: u64,
    number: usize,
    closures: &mut Closures,
    stop: &mut P,
) -> Result<Turn, OutOfMemory>
    requires rules { (made : List Closure)
        × (closures_of closures.old ≡ rule_closures 0 trs.now.rules ++ made) }
    requires sound { IsSound trs.now.arities closures.old }
    requires there { number < length closures.old.links.items }
    requires within { closures.old.attempts ≤ budget }
    requires copies { AreCopies trs.now.rules closures.old.copies.items }
    ensures turn { IfOk result (λ turn. (c : Closure)
        → slice_get (closures_of closures.old) number ≡ Some c
        → Ends trs.now.rules budget (attempts_of trs.now.rules c (symbol_places c.right))
        closures.old closures.new (P.stops stop.old < P.stops stop.new) turn) }
    ensures sound { OnOk result (IsSound trs.now.arities closures.new) }
    ensures within { OnOk result (closures.new.attempts ≤ budget) }
    ensures copies { OnOk result (AreCopies trs.now.rules closures.new.copies.items) }
    ensures continues { Continues P.Stop stop.old stop.new }
{
    systems_are_valid(trs);
    match trs.rules().get(number) {
        Some(rule) => {
            let trial = Trial {
                trs,
                number,
                left: &rule.left,
                right: &rule.right,
                right_size: rule.right.size(),
                budget,
            };
            try_closure(alloc, &trial, closures, stop)
        }
        None => {
            let sides = closures.sides(alloc, number)?;
            let trial = Trial {
                trs,
                number,
                left: &sides.left,
                right: &sides.right,
                right_size: sides.right.size(),
                budget,
            };
            try_closure(alloc, &trial, closures, stop)
        }
    }
}

/// Makes the attempts at the closure of a trial.
fn try_closure<P: Stop>(
    alloc: Global,
    trial: &Trial,
    closures: &mut Closures,
    stop: &mut P,
) -> Result<Turn, OutOfMemory>
    requires trial { IsTrial trial.now closures.old }
    ensures turn { IfOk result (λ turn. (c : Closure)
        → slice_get (closures_of closures.old) trial.now.number ≡ Some c
        → Ends trial.now.trs.now.rules trial.now.budget
        (attempts_of trial.now.trs.now.rules c (symbol_places c.right))
        closures.old closures.new (P.stops stop.old < P.stops stop.new) turn) }
    ensures trial { IfOk result (λ _. IsTrial trial.now closures.new) }
    ensures continues { Continues P.Stop stop.old stop.new }
{
    let mut place = Vec::new(alloc);
    let turn = try_below(alloc, trial, trial.right, &mut place, closures, stop)?;
    Ok(turn)
}

/// Makes the attempts at a place of the right side, where `part` stands, and below it.
pub(crate) fn try_below<P: Stop>(
    alloc: Global,
    trial: &Trial,
    part: &Term,
    place: &mut Vec<u8>,
    closures: &mut Closures,
    stop: &mut P,
) -> Result<Turn, OutOfMemory>
    requires trial { IsTrial trial.now closures.old }
    requires part { IsPart trial.now place.old.items (tree part.now) }
    ensures turn { IfOk result (λ turn. (c : Closure)
        → slice_get (closures_of closures.old) trial.now.number ≡ Some c
        → Ends trial.now.trs.now.rules trial.now.budget
        (attempts_of trial.now.trs.now.rules c
        (map (λ q. place.old.items ++ q) (symbol_places (tree part.now))))
        closures.old closures.new (P.stops stop.old < P.stops stop.new) turn) }
    ensures trial { IfOk result (λ _. IsTrial trial.now closures.new) }
    ensures place { IfOk result (λ turn. turn ≡ Turn.Next → place.new.items ≡ place.old.items) }
    ensures continues { Continues P.Stop stop.old stop.new }
{
    match part {
        Term::Var(_) => Ok(Turn::Next),
        Term::App(_, args) => {
            let turn = try_rules(alloc, trial, part, place, closures, stop)?;
            if !turn.is_next() {
                return Ok(turn);
            }
            for (i, arg) in args.items.iter().enumerate() {
                place.push(i as u8 + 1)?;
                let turn = try_below(alloc, trial, arg, place, closures, stop)?;
                if !turn.is_next() {
                    return Ok(turn);
                }
                place.pop();
            }
            Ok(Turn::Next)
        }
    }
}

/// Makes the attempts at one place, with each rule in order.
fn try_rules<P: Stop>(
    alloc: Global,
    trial: &Trial,
    part: &Term,
    place: &[u8],
    closures: &mut Closures,
    stop: &mut P,
) -> Result<Turn, OutOfMemory>
    requires trial { IsTrial trial.now closures.old }
    requires part { IsPart trial.now place.now (tree part.now) }
    ensures turn { IfOk result (λ turn. (c : Closure)
        → slice_get (closures_of closures.old) trial.now.number ≡ Some c
        → Ends trial.now.trs.now.rules trial.now.budget
        (attempts_at c place.now 0 trial.now.trs.now.rules)
        closures.old closures.new (P.stops stop.old < P.stops stop.new) turn) }
    ensures trial { IfOk result (λ _. IsTrial trial.now closures.new) }
    ensures continues { Continues P.Stop stop.old stop.new }
{
    for k in 0..trial.trs.rules().len() {
        let turn = try_rule(alloc, trial, part, place, k, closures, stop)?;
        if !turn.is_next() {
            return Ok(turn);
        }
    }
    Ok(Turn::Next)
}

/// Makes one attempt, with rule `k`, unless the budget is spent or the stop comes.
fn try_rule<P: Stop>(
    alloc: Global,
    trial: &Trial,
    part: &Term,
    place: &[u8],
    k: usize,
    closures: &mut Closures,
    stop: &mut P,
) -> Result<Turn, OutOfMemory>
    requires trial { IsTrial trial.now closures.old }
    requires part { IsPart trial.now place.now (tree part.now) }
    requires rule { k < length trial.now.trs.now.rules }
    ensures turn { IfOk result (λ turn. (c : Closure)
        → slice_get (closures_of closures.old) trial.now.number ≡ Some c
        → Ends trial.now.trs.now.rules trial.now.budget (one_attempt c place.now k)
        closures.old closures.new (P.stops stop.old < P.stops stop.new) turn) }
    ensures trial { IfOk result (λ _. IsTrial trial.now closures.new) }
    ensures continues { Continues P.Stop stop.old stop.new }
{
    if closures.attempts >= trial.budget {
        return Ok(Turn::Spent);
    }
    if stop.stopped() {
        return Ok(Turn::Stopped);
    }
    closures.attempts += 1;
    if is_refused(trial.right_size, part, &trial.trs.rules()[k]) {
        return Ok(Turn::Next);
    }
    match narrow_with(alloc, trial, part, place, k, &mut closures.copies)? {
        None => Ok(Turn::Next),
        Some(sides) => {
            let turn = extend(alloc, trial, place, k, &sides, closures)?;
            Ok(turn)
        }
    }
}

/// Adds the closure that an attempt gave.
fn extend(
    alloc: Global,
    trial: &Trial,
    place: &[u8],
    k: usize,
    sides: &SideTokens,
    closures: &mut Closures,
) -> Result<Turn, OutOfMemory>
    requires trial { IsTrial trial.now closures.old }
    requires positive { All (λ n. 0 < n) place.now }
    requires narrowed { (rule : RewriteRule) × (slice_get trial.now.trs.now.rules k ≡ Some rule)
        × NarrowsTo rule place.now (tree trial.now.left.now) (tree trial.now.right.now) sides.now }
    ensures turn { IfOk result (λ turn. (c : Closure)
        → slice_get (closures_of closures.old) trial.now.number ≡ Some c
        → Extended trial.now.trs.now.rules
        (record { closure = c; at = record { place = place.now; rule = k } })
        closures.old closures.new turn) }
    ensures trial { IfOk result (λ _. IsTrial trial.now closures.new) }
{
    let at = Position::of(alloc, place)?;
    let step = PathStep {
        place: at,
        rule: k as u32,
    };
    let number = closures.links.len();
    closures.add(sides, Some(trial.number), step)?;
    match closures.loop_of(alloc, trial.trs, number)? {
        None => Ok(Turn::Next),
        Some(found) => Ok(Turn::Found(found)),
    }
}
