//! The order in which a walk in depth finishes places.
ghost use Rattle.std.specs.Prelude.{ℕ, ◌≡◌, ◌≤◌, ◌<◌, ◌++◌, [], ◌∷◌, Some, true, IfOk, OnOk, length, slice_get, slice_set};
ghost use Rattle.dp_graph.specs.GraphConditions.{lists_of};
ghost use Rattle.dp_graph.specs.Rows.{StayWithin};
ghost use Rattle.dp_graph.specs.Finishing.{IsWalk, IsStart, IsWalkOf, Enters, IsFinishingOrder, effort_of};

use std::alloc::Global;
use trs_core::OutOfMemory;

/// A walk in depth along rows.
#[derive(Drop)]
struct Walk {
    /// Which places were entered.
    entered: Vec<bool>,
    /// For each place, how many places of its row were tried.
    next: Vec<usize>,
    /// The places that are entered and not finished, each behind the one from which it was entered.
    way: Vec<usize>,
    /// The places all of whose rows were tried, in the order in which that was done.
    finished: Vec<usize>,
}

/// All places in an order in which a walk in depth finishes them. It takes steps for each edge.
/// (Sharir, A strong-connectivity algorithm and its applications in data flow analysis, 1981.)
pub(crate) fn finishing_order(alloc: Global, rows: &[Vec<u32>]) -> Result<Vec<usize>, OutOfMemory>
    requires { StayWithin (lists_of rows.now) }
    ensures { IfOk result (λ order. IsFinishingOrder (lists_of rows.now) order.items) }
{
    let mut walk = Walk::new(alloc, rows.len())?;
    for start in 0..rows.len() {
        walk.run(rows, start)?;
    }
    Ok(walk.finished)
}

impl Walk {
    /// No place was entered.
    fn new(alloc: Global, places: usize) -> Result<Walk, OutOfMemory>
        ensures { IfOk result (IsStart places) }
    {
        let entered = vec![in alloc; false; places]?;
        let next = vec![in alloc; 0; places]?;
        Ok(Walk {
            entered,
            next,
            way: Vec::new(alloc),
            finished: Vec::new(alloc),
        })
    }

    /// Enters a place, and walks until all that was entered is finished.
    fn run(&mut self, rows: &[Vec<u32>], start: usize) -> Result<(), OutOfMemory>
        requires within { StayWithin (lists_of rows.now) }
        requires start { start < length rows.now }
        requires walk { IsWalkOf (lists_of rows.now) self.old }
        requires way { self.old.way.items ≡ [] }
        ensures walk { OnOk result (IsWalkOf (lists_of rows.now) self.new) }
        ensures way { OnOk result (self.new.way.items ≡ []) }
        ensures entered { OnOk result (slice_get self.new.entered.items start ≡ Some true) }
        ensures kept { OnOk result ((k : ℕ) → slice_get self.old.entered.items k ≡ Some true →
            slice_get self.new.entered.items k ≡ Some true) }
    {
        self.enter(start)?;
        while let Some(place) = self.way.pop() {
            self.step(rows, place)?;
        }
        Ok(())
    }

    /// Tries the next place of the row of the last place of the way, or finishes that place.
    fn step(&mut self, rows: &[Vec<u32>], place: usize) -> Result<(), OutOfMemory>
        requires within { StayWithin (lists_of rows.now) }
        requires walk { IsWalk (lists_of rows.now) self.old.entered.items self.old.next.items
            (self.old.way.items ++ place ∷ []) self.old.finished.items }
        ensures walk { OnOk result (IsWalkOf (lists_of rows.now) self.new) }
        ensures kept { OnOk result ((k : ℕ) → slice_get self.old.entered.items k ≡ Some true →
            slice_get self.new.entered.items k ≡ Some true) }
        ensures effort { OnOk result
            (effort_of (lists_of rows.now) self.new ≤ effort_of (lists_of rows.now) self.old) }
    {
        let row = &rows[place];
        let next = self.next[place];
        if next < row.len() {
            self.follow(place, next + 1, row[next] as usize)?;
            return Ok(());
        }
        self.finished.push(place)?;
        Ok(())
    }

    /// Puts a place back on the way, of whose row so many places were tried then, and enters one.
    fn follow(&mut self, place: usize, next: usize, to: usize) -> Result<(), OutOfMemory>
        requires { place < length self.old.next.items }
        ensures enters { OnOk result (Enters self.old.entered.items self.new.entered.items
            (self.old.way.items ++ place ∷ []) self.new.way.items to) }
        ensures next { OnOk result
            (self.new.next.items ≡ slice_set self.old.next.items place next) }
        ensures finished { OnOk result (self.new.finished.items ≡ self.old.finished.items) }
    {
        self.way.push(place)?;
        self.next[place] = next;
        self.enter(to)
    }

    /// Enters a place, if it is one, unless it was entered.
    fn enter(&mut self, place: usize) -> Result<(), OutOfMemory>
        ensures enters { OnOk result (Enters self.old.entered.items self.new.entered.items
            self.old.way.items self.new.way.items place) }
        ensures next { OnOk result (self.new.next.items ≡ self.old.next.items) }
        ensures finished { OnOk result (self.new.finished.items ≡ self.old.finished.items) }
    {
        if place < self.entered.len() && !self.entered[place] {
            self.way.push(place)?;
            self.entered[place] = true;
        }
        Ok(())
    }
}
