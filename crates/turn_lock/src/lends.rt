//! A `&mut` to the value. Its clause names the row of `Held`, which the file that declares `Held` cannot
//! import.
ghost use Rattle.std.specs.Prelude.{◌≡◌};
ghost use Rattle.std.specs.Borrow.{sem, follows};
ghost use Rattle.turn_lock.specs.contracts.lock.Held.{the_row};

use crate::chronicle::Chronicle;
use crate::lock::Held;

impl<T: Chronicle> Held<T> {
    /// The value, to be changed. When the borrow ends, it is what was written through it, and the seat is
    /// the same.
    pub fn value_mut(&mut self) -> &mut T
        ensures* writes_back { sem 𝓛 (follows (the_row T.row T.Entry.row ⟦<T as Chronicle>⟧) T.row
            self.entry.ghost_name result.ghost_name (λ w. record self.old { value = w })) }
        ensures value { result.now ≡ self.old.value }
    {
        &mut self.value
    }
}
