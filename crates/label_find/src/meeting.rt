//! The groups of two sides that have one end.
ghost use Rattle.std.specs.Prelude.{◌≤◌, ◌<◌, IfOk, OnOk};
ghost use Rattle.label_find.specs.Grouping.{count_of};
ghost use Rattle.label_find.specs.Meetings.{AreMeetings, AddsMeeting};

use crate::groups::Groups;
use std::alloc::Global;
use trs_core::OutOfMemory;

/// For each end that both sides have, the places of its two groups.
pub(crate) fn meetings_of(
    alloc: Global,
    lefts: &Groups,
    rights: &Groups,
) -> Result<Vec<(u8, u8)>, OutOfMemory>
    requires few_left { count_of lefts.now ≤ 256 }
    requires few_right { count_of rights.now ≤ 256 }
    ensures { IfOk result (λ meetings.
        AreMeetings lefts.now rights.now (count_of lefts.now) meetings.items) }
{
    let mut meetings = Vec::new(alloc);
    for place in 0..lefts.count() {
        add_meeting(lefts, rights, place, &mut meetings)?;
    }
    Ok(meetings)
}

/// Adds the places of the left group that begins at this place, if one does, and of the right one
/// with its end, if there is one.
fn add_meeting(
    lefts: &Groups,
    rights: &Groups,
    place: usize,
    meetings: &mut Vec<(u8, u8)>,
) -> Result<(), OutOfMemory>
    requires few_left { count_of lefts.now ≤ 256 }
    requires few_right { count_of rights.now ≤ 256 }
    requires place { place < count_of lefts.now }
    ensures { OnOk result
        (AddsMeeting lefts.now rights.now place meetings.old.items meetings.new.items) }
{
    if !lefts.begins(place) {
        return Ok(());
    }
    let end = lefts.end_at(place);
    let Some(other) = rights.place_of(end) else {
        return Ok(());
    };
    meetings.push((place as u8, other as u8))?;
    Ok(())
}
