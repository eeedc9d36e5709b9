ghost use Rattle.std.specs.Prelude.{◌≡◌, ◌<◌, length, IfOk, OnOk};
ghost use Rattle.trs_core.specs.View.{tree};
ghost use Rattle.term_pool.specs.Pooled.{Extends, tree_at};
ghost use Rattle.completion.specs.CompletionRun.{Treats, ending_of};
ghost use Rattle.completion.specs.Answers.{plain_ending};
ghost use Rattle.completion.specs.GreaterBy.{GreaterBy};
ghost use Rattle.completion.specs.MetTerms.{IsMet, KeepsBase};
ghost use Rattle.completion.specs.Taking.{IsTermOver, IsIdOver};
ghost use Rattle.completion.specs.Treating.{pair_of, IsOutcome, IsCompared, IsAdded};

use crate::growing::GrowingTrs;
use crate::met::Met;
use crate::normalizing::{Form, normal_form};
use crate::orienting::fits;
use crate::renumbering::renumber;
use crate::{Completion, Unfinished};
use path_lpo::{Lpo, is_strict};
use std::alloc::Global;
use term_pool::Pool;
use trs_core::{OutOfMemory, Rule, Term};

/// What becomes of a pair: it is passed over, or gives a rule, and so many units are left; or the
/// run ends.
#[derive(Drop)]
pub(crate) enum Outcome {
    Passed(u64),
    Added(Rule, u64),
    Ended(Completion),
}

/// A pair of terms, brought to normal form and oriented. Where there are no rules both are normal
/// forms.
pub(crate) fn treat(
    alloc: Global,
    order: &Lpo,
    system: &GrowingTrs,
    met: &mut Met,
    left: &Term,
    right: &Term,
    units: u64,
) -> Result<Outcome, OutOfMemory>
    requires left { IsTermOver system.now.arities (tree left.now) }
    requires right { IsTermOver system.now.arities (tree right.now) }
    requires met { IsMet system.now.rules met.old }
    ensures outcome { IfOk result (IsOutcome (Treats system.now.arities (GreaterBy order.now)
        system.now.rules units (pair_of (tree left.now) (tree right.now)))) }
    ensures kept { OnOk result (KeepsBase met.old met.new) }
    ensures met { OnOk result (IsMet system.now.rules met.new) }
{
    if system.rules().is_empty() {
        return compare(alloc, order, system, left, right, units);
    }
    met.make_room();
    let s = met.intern(alloc, left)?;
    let t = met.intern(alloc, right)?;
    treat_ids(alloc, order, system, met, s, t, units)
}

/// The same of a pair of ids.
pub(crate) fn treat_ids(
    alloc: Global,
    order: &Lpo,
    system: &GrowingTrs,
    met: &mut Met,
    left: u32,
    right: u32,
    units: u64,
) -> Result<Outcome, OutOfMemory>
    requires left { IsIdOver system.now.arities met.old.pool left }
    requires right { IsIdOver system.now.arities met.old.pool right }
    requires met { IsMet system.now.rules met.old }
    ensures outcome { IfOk result (IsOutcome (Treats system.now.arities (GreaterBy order.now)
        system.now.rules units
        (pair_of (tree_at met.old.pool left) (tree_at met.old.pool right)))) }
    ensures kept { OnOk result (Extends met.old.pool met.new.pool) }
    ensures base { OnOk result (met.new.base ≡ met.old.base) }
    ensures met { OnOk result (IsMet system.now.rules met.new) }
{
    match normal_form(alloc, system, met, left, units)? {
        Form::Stopped(why) => Ok(Outcome::Ended(end_run(why))),
        Form::Normal(s, more) => match normal_form(alloc, system, met, right, more)? {
            Form::Stopped(why) => Ok(Outcome::Ended(end_run(why))),
            Form::Normal(t, rest) => { compare_forms(alloc, order, system, &met.pool, s, t, rest) }
        },
    }
}

/// Two normal forms of a pool, by the rules of a system. They are read only where they differ.
fn compare_forms(
    alloc: Global,
    order: &Lpo,
    system: &GrowingTrs,
    pool: &Pool,
    s: u32,
    t: u32,
    units: u64,
) -> Result<Outcome, OutOfMemory>
    requires left { s < length pool.now }
    requires right { t < length pool.now }
    ensures { IfOk result (IsCompared (GreaterBy order.now) system.now units
        (tree_at pool.now s) (tree_at pool.now t)) }
{
    if s == t {
        return Ok(Outcome::Passed(units));
    }
    let left = pool.read(alloc, s)?;
    let right = pool.read(alloc, t)?;
    compare(alloc, order, system, &left, &right, units)
}

/// How a run ends at a term with no normal form.
fn end_run(why: Unfinished) -> Completion
    ensures { plain_ending result ≡ ending_of why }
{
    match why {
        Unfinished::NoUnit => Completion::Spent,
        Unfinished::TooLarge => Completion::Limit,
    }
}

/// Two normal forms, by the rules of a system.
fn compare(
    alloc: Global,
    order: &Lpo,
    system: &GrowingTrs,
    s: &Term,
    t: &Term,
    units: u64,
) -> Result<Outcome, OutOfMemory>
    ensures { IfOk result (IsCompared (GreaterBy order.now) system.now units
        (tree s.now) (tree t.now)) }
{
    if s.same(t) {
        return Ok(Outcome::Passed(units));
    }
    if is_strict(order, s, t) {
        return add(alloc, system, s, t, units);
    }
    if is_strict(order, t, s) {
        return add(alloc, system, t, s, units);
    }
    let pair = renumber(alloc, s, t)?;
    Ok(Outcome::Ended(Completion::Unorientable(pair.left, pair.right)))
}

/// A new last rule from the greater normal form to the other.
fn add(
    alloc: Global,
    system: &GrowingTrs,
    s: &Term,
    t: &Term,
    units: u64,
) -> Result<Outcome, OutOfMemory>
    ensures { IfOk result (IsAdded system.now units (tree s.now) (tree t.now)) }
{
    if units == 0 {
        return Ok(Outcome::Ended(Completion::Spent));
    }
    let rule = renumber(alloc, s, t)?;
    if !fits(system, &rule) {
        return Ok(Outcome::Ended(Completion::Limit));
    }
    Ok(Outcome::Added(rule, units - 1))
}
