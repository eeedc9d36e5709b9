ghost use Rattle.std.specs.Prelude.{◌≡◌, ◌↔◌, false, IfOk, IfSome, IfNone, IsTrue};
ghost use Rattle.trs_defs.specs.Tree.{Tree};
ghost use Rattle.trs_caps.specs.HoledTree.{Fits, hole};
ghost use Rattle.trs_caps.specs.Columns.{alike, AllAlike, child, column_of, LeavesHoles};
ghost use Rattle.trs_caps.specs.Parts.{FitsEach, HaveInstance};
ghost use Rattle.trs_caps.specs.PartLists.{caps_of};
ghost use Rattle.trs_caps.specs.View.{holed};

use crate::Cap;
use std::alloc::Global;
use trs_core::OutOfMemory;

/// Whether some term fits all caps: whether they unify, renamed apart. A place is looked at where
/// two of them have it, and once for all.
pub(crate) fn agree(alloc: Global, caps: &[&Cap]) -> Result<bool, OutOfMemory>
    ensures { IfOk result (λ yes. IsTrue yes ↔ HaveInstance (caps_of caps.now)) }
{
    if caps.len() < 2 {
        return Ok(true);
    }
    let first = caps[0];
    if !are_alike(first, caps) {
        return Ok(false);
    }
    match first {
        Cap::Open => agree(alloc, &caps[1..]),
        Cap::Own(_) => Ok(true),
        Cap::Symbol(_, parts) => {
            for i in 0..parts.items.len() {
                let there = column(alloc, caps, i)?;
                if !agree(alloc, &there)? {
                    return Ok(false);
                }
            }
            Ok(true)
        }
    }
}

/// Whether each cap is a hole or has the first one's root, if that is no hole.
fn are_alike(first: &Cap, caps: &[&Cap]) -> bool
    ensures alike { IsTrue result → AllAlike (holed first.now) (caps_of caps.now) }
    ensures differ { result ≡ false → (t : Tree) → Fits (holed first.now) t
        → FitsEach (caps_of caps.now) t → ⊥ }
{
    for cap in caps {
        if !first.is_like(cap) {
            return false;
        }
    }
    true
}

impl Cap {
    /// Whether one of the caps is a hole, or both have one root.
    fn is_like(&self, other: &Cap) -> bool
        ensures { result ≡ alike (holed self.now) (holed other.now) }
    {
        match (self, other) {
            (Cap::Open, _) => true,
            (_, Cap::Open) => true,
            (Cap::Own(v), Cap::Own(w)) => *v == *w,
            (Cap::Own(_), Cap::Symbol(_, _)) => false,
            (Cap::Symbol(_, _), Cap::Own(_)) => false,
            (Cap::Symbol(f, cs), Cap::Symbol(g, ds)) => {
                *f == *g && cs.items.len() == ds.items.len()
            }
        }
    }

    /// The part at an argument, counted from 0, if there is one and it is no hole.
    fn part(&self, i: usize) -> Option<&Cap>
        ensures none { IfNone result (child i (holed self.now) ≡ hole) }
        ensures some { IfSome result (λ part. holed part.now ≡ child i (holed self.now)) }
    {
        let Cap::Symbol(_, parts) = self else {
            return None;
        };
        match parts.items.get(i) {
            None => None,
            Some(Cap::Open) => None,
            Some(part) => Some(part),
        }
    }
}

/// The parts of all caps at one argument, but for holes.
fn column<'a>(alloc: Global, caps: &[&'a Cap], i: usize) -> Result<Vec<&'a Cap>, OutOfMemory>
    ensures { IfOk result (λ there.
        LeavesHoles (column_of i (caps_of caps.now)) (caps_of there.items)) }
{
    let mut there = Vec::new(alloc);
    for cap in caps {
        if let Some(part) = cap.part(i) {
            there.push(part)?;
        }
    }
    Ok(there)
}
