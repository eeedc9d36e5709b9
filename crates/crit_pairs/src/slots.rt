//! The slots of variables, at which tables have the places of variables in lists.
ghost use Rattle.std.specs.Prelude.{◌≡◌, ◌<◌, ◌^◌, OnOk, Some, slice_get};
ghost use Rattle.crit_pairs.specs.Slots.{slot_of, KeepsOthers};

use std::alloc::Global;
use trs_core::{MOST_VARIABLES, OutOfMemory};

/// The slot of a variable. Those of rules and those of rules that are renamed apart take turns, so that
/// a table for the first variables of both is short.
#[inline(always)]
#[tactic(auto, using(crate::proofs::SlotLaws::first_slot, crate::proofs::SlotLaws::apart_slot))]
pub(crate) fn slot(v: u32) -> usize
    ensures value { result ≡ slot_of v }
    ensures small { result < 2 ^ 34 }
{
    if v < MOST_VARIABLES {
        v as usize * 2
    } else {
        (v - MOST_VARIABLES) as usize * 2 + 1
    }
}

/// Notes the place of a variable at its slot.
#[inline(always)]
pub(crate) fn note_place(places: &mut Vec<usize>, v: u32, place: usize) -> Result<(), OutOfMemory>
    ensures noted { OnOk result (slice_get places.new.items (slot_of v) ≡ Some place) }
    ensures others { KeepsOthers (slot_of v) places.old.items places.new.items }
{
    let at = slot(v);
    if places.len() <= at {
        places.resize(at + 1, 0)?;
    }
    places[at] = place;
    Ok(())
}
