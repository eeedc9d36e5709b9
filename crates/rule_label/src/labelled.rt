ghost use Rattle.std.specs.Prelude.{IfOk, length, map};
ghost use Rattle.trs_defs.specs.Claims.{IsConfluent};
ghost use Rattle.confluence_theory.specs.Peak.{Covers};
ghost use Rattle.rewrite_core.specs.Check.{Answers, has_length};
ghost use Rattle.closed_pairs.specs.crit_pairs.PlainPeak.{plain};
ghost use Rattle.rule_label.specs.Labelled.{joins_decreasing, are_decreasing, label_conditions_on};
ghost use Rattle.rule_label.specs.Labelled.{label_conditions, labels_must_fit};

use crate::covering::decreasing_list_concludes;
use crate::fitting::{rank_of, ranks_fit};
use closed_pairs::{first_peaks, linear_check, peak_is_joined};
use rewrite_core::{BuiltTop, CheckFault, Join, PathStep, Peak, StepRefused};
use std::alloc::Global;
use trs_core::Trs;

/// Sees that the system is linear, and that the paths join each critical peak, with ranks that fit.
pub fn labelled_check(
    alloc: Global,
    trs: &Trs,
    ranks: &[u64],
    joins: &[Join],
) -> Result<(), CheckFault>
    ensures answers { Answers (label_conditions trs.now ranks.now joins.now) result }
{
    linear_check(trs)?;
    let found = first_peaks(alloc, trs, joins.len())?;
    let items = joins.len() as u64;
    if items != found.count {
        ranks_are_counted(trs, ranks)?;
        return Err(CheckFault::Refused(StepRefused::Count(found.count, items)));
    }
    peaks_are_decreasing(alloc, trs, &found.peaks, ranks, joins)
}

/// Sees that the system is linear, that there is a rank for each rule and an item for each peak,
/// and that the paths of the item join the peak, with ranks that fit.
pub fn label_check(
    alloc: Global,
    trs: &Trs,
    peaks: &[Peak],
    ranks: &[u64],
    joins: &[Join],
) -> Result<(), CheckFault>
    ensures answers { Answers
        (label_conditions_on trs.now.rules peaks.now ranks.now joins.now) result }
    ensures confluent { Covers trs.now.rules (map plain peaks.now) →
        IfOk result (λ _. IsConfluent trs.now) }
{
    decreasing_list_concludes(trs);
    linear_check(trs)?;
    peaks_are_decreasing(alloc, trs, peaks, ranks, joins)
}

/// Sees that there is a rank for each rule and an item for each peak, and that the paths of the
/// item join the peak, with ranks that fit.
fn peaks_are_decreasing<T: BuiltTop>(
    alloc: Global,
    trs: &Trs,
    peaks: &[Peak<T>],
    ranks: &[u64],
    joins: &[Join],
) -> Result<(), CheckFault>
    ensures { Answers (are_decreasing trs.now.rules peaks.now ranks.now joins.now) result }
{
    ranks_are_counted(trs, ranks)?;
    if joins.len() != peaks.len() {
        return Err(CheckFault::Refused(StepRefused::Count(peaks.len() as u64, joins.len() as u64)));
    }
    for (n, peak) in peaks.iter().enumerate() {
        peak_is_decreasing(alloc, trs, ranks, n as u64, peak, &joins[n])?;
    }
    Ok(())
}

/// Sees that there is a rank for each rule.
fn ranks_are_counted(trs: &Trs, ranks: &[u64]) -> Result<(), CheckFault>
    ensures { Answers (has_length (length trs.now.rules) ranks.now) result }
{
    let rules = trs.rules();
    if ranks.len() != rules.len() {
        return Err(CheckFault::Refused(StepRefused::Count(rules.len() as u64, ranks.len() as u64)));
    }
    Ok(())
}

/// Sees that the paths of item number `n` join a peak, with ranks that fit.
fn peak_is_decreasing<T: BuiltTop>(
    alloc: Global,
    trs: &Trs,
    ranks: &[u64],
    n: u64,
    peak: &Peak<T>,
    join: &Join,
) -> Result<(), CheckFault>
    ensures { Answers (joins_decreasing trs.now.rules ranks.now n peak.now join.now) result }
{
    peak_is_joined(alloc, trs, n, peak, join)?;
    labels_fit(ranks, n, 0, peak.inner, peak.outer, &join.left)?;
    labels_fit(ranks, n, 1, peak.outer, peak.inner, &join.right)
}

/// Sees that the ranks along path number `number` of item number `n` fit those of two rules.
fn labels_fit(
    ranks: &[u64],
    n: u64,
    number: u64,
    first: u32,
    second: u32,
    path: &[PathStep],
) -> Result<(), CheckFault>
    ensures { Answers (labels_must_fit ranks.now n number first second path.now) result }
{
    if ranks_fit(ranks, rank_of(ranks, first), rank_of(ranks, second), path) {
        Ok(())
    } else {
        Err(CheckFault::Refused(StepRefused::Labels(n, number)))
    }
}
