ghost use Rattle.std.specs.Prelude.{◌≡◌, IfOk, map};
ghost use Rattle.trs_defs.specs.Claims.{IsConfluent};
ghost use Rattle.trs_core.specs.View.{tree};
ghost use Rattle.confluence_theory.specs.Peak.{Covers};
ghost use Rattle.rewrite_core.specs.Check.{Answers};
ghost use Rattle.crit_pairs.specs.PlainPeak.{plain};
ghost use Rattle.closed_pairs.specs.StronglyClosed.{half_joins, joins_strongly};
ghost use Rattle.closed_pairs.specs.StronglyClosed.{are_strongly_closed, strong_conditions_on};
ghost use Rattle.closed_pairs.specs.StronglyClosed.{strong_conditions};

use crate::counting::peaks_for;
use crate::covering::strong_list_concludes;
use crate::ends::{ItemPath, meet};
use crate::linear_check;
use rewrite_core::{BuiltTop, CheckFault, PathStep, Peak, StepRefused, copy_path};
use std::alloc::Global;
use std::marker::Model;
use trs_core::{OutOfMemory, Trs};

/// Paths from the left and the right side of a peak to a term u, and from its right and its left
/// side to a term v. The paths from the right to u and from the left to v have at most one step.
#[derive(Drop)]
pub struct Four {
    pub left_u: Vec<PathStep>,
    pub right_u: Vec<PathStep>,
    pub right_v: Vec<PathStep>,
    pub left_v: Vec<PathStep>,
}

impl Model for Four {
    ghost use Rattle.closed_pairs.specs.StronglyClosed.{FourPaths, four_code};

    ghost Value = { FourPaths };

    ghost coded = { four_code };

    ghost view = { λ a. record {
      left_u = a.left_u.items;
      right_u = a.right_u.items;
      right_v = a.right_v.items;
      left_v = a.left_v.items;
    } };
}

impl Four {
    pub fn copy(&self, alloc: Global) -> Result<Four, OutOfMemory>
        ensures { IfOk result (λ f. f ≡ self.now) }
    {
        Ok(Four {
            left_u: copy_path(alloc, &self.left_u)?,
            right_u: copy_path(alloc, &self.right_u)?,
            right_v: copy_path(alloc, &self.right_v)?,
            left_v: copy_path(alloc, &self.left_v)?,
        })
    }
}

/// Sees that the system is linear, and that the paths join each critical peak strongly.
pub fn strongly_closed_check(alloc: Global, trs: &Trs, fours: &[Four]) -> Result<(), CheckFault>
    ensures answers { Answers (strong_conditions trs.now fours.now) result }
{
    linear_check(trs)?;
    let peaks = peaks_for(alloc, trs, fours.len())?;
    peaks_are_joined_strongly(alloc, trs, &peaks, fours)
}

/// Sees that the system is linear, and that there is an item for each peak, which joins it
/// strongly.
pub fn strong_check(
    alloc: Global,
    trs: &Trs,
    peaks: &[Peak],
    fours: &[Four],
) -> Result<(), CheckFault>
    ensures answers { Answers (strong_conditions_on trs.now.rules peaks.now fours.now) result }
    ensures confluent { Covers trs.now.rules (map plain peaks.now) →
        IfOk result (λ _. IsConfluent trs.now) }
{
    strong_list_concludes(trs);
    linear_check(trs)?;
    peaks_are_joined_strongly(alloc, trs, peaks, fours)
}

/// Sees that there is an item for each peak, which joins it strongly.
fn peaks_are_joined_strongly<T: BuiltTop>(
    alloc: Global,
    trs: &Trs,
    peaks: &[Peak<T>],
    fours: &[Four],
) -> Result<(), CheckFault>
    ensures { Answers (are_strongly_closed trs.now.rules peaks.now fours.now) result }
{
    if fours.len() != peaks.len() {
        return Err(CheckFault::Refused(StepRefused::Count(peaks.len() as u64, fours.len() as u64)));
    }
    for (n, peak) in peaks.iter().enumerate() {
        peak_is_joined_strongly(alloc, trs, n as u64, peak, &fours[n])?;
    }
    Ok(())
}

/// Sees that item number `n` joins a peak strongly, from its left side and then from its right.
fn peak_is_joined_strongly<T: BuiltTop>(
    alloc: Global,
    trs: &Trs,
    n: u64,
    peak: &Peak<T>,
    four: &Four,
) -> Result<(), CheckFault>
    ensures { Answers (joins_strongly trs.now.rules n peak.now four.now) result }
{
    let left_u = ItemPath {
        start: T::term(&peak.left),
        steps: &four.left_u,
        number: 0,
    };
    let right_u = ItemPath {
        start: T::term(&peak.right),
        steps: &four.right_u,
        number: 1,
    };
    half(alloc, trs, n, &left_u, &right_u)?;
    let right_v = ItemPath {
        start: T::term(&peak.right),
        steps: &four.right_v,
        number: 2,
    };
    let left_v = ItemPath {
        start: T::term(&peak.left),
        steps: &four.left_v,
        number: 3,
    };
    half(alloc, trs, n, &right_v, &left_v)
}

/// Sees that two paths of item number `n` lead to one term, the second in at most one step.
fn half(
    alloc: Global,
    trs: &Trs,
    n: u64,
    path: &ItemPath,
    short: &ItemPath,
) -> Result<(), CheckFault>
    ensures { Answers (half_joins trs.now.rules n
        (tree path.now.start.now) path.now.steps.now path.now.number
        (tree short.now.start.now) short.now.steps.now short.now.number) result }
{
    if short.steps.len() > 1 {
        return Err(CheckFault::Refused(StepRefused::TooLong(n, short.number)));
    }
    meet(alloc, trs, n, path, short)
}
