//! The lock, its seats, and a held value.
//!
//! The value lies in a slot of a table, which belongs to the seat that has the turn and is at home
//! else. The word beside it is twice the length of the history, and one more while a seat has the turn.
ghost use Rattle.std.specs.Prelude.{◌≡◌, ◌⊎◌, ℕ, ◌+◌, ◌^◌, ◌<◌, min, List, [], ◌∷◌, ◌++◌, length, IfOk, IfErr};
ghost use mathlib.Core.List.{IsPrefix};
ghost use Rattle.turn_lock.specs.Rules.{of, AddsOne};
ghost use Rattle.turn_lock.specs.Seats.{Has};

use crate::chronicle::Chronicle;
use crate::patience::Patience;
use crate::plays::{Free, Next, Weigh, Win};
use crate::rule::{About, Turns, View};
use atomic_table::{Refused, Table};
use std::alloc::{AllocFailed, Global};
use std::marker::Model;
use std::snapshot::Snapshot;
use std::sync::Wait;

/// One value that one seat at a time holds, made for the seat numbers from 0 up to a count. Contracts
/// see of it its name.
pub struct TurnLock<T: Chronicle> {
    table: Table<Option<T>, View<T::Entry>, About<T>, Turns<T>, Global>,
}

impl<T: Chronicle> Model for TurnLock<T> {
    ghost use Rattle.std.specs.Prelude.{◌≡◌};
    ghost use Rattle.atomic_table.specs.Seated.{TableId, table_id_coded};

    ghost Value = { TableId };

    ghost coded = { table_id_coded };

    ghost view = { λ l. l.table.shared.table_id };

    ghost invariant = { λ l. (l.table.shared.table_id.words ≡ 1) × (l.table.shared.table_id.slots ≡ 1) };
}

/// What a thread takes its turns with. It has a number of its own, and may have free numbers, which it
/// gives away when it is split, and past ones, of seats that were joined into it.
#[derive(Drop)]
pub struct Seat<T: Chronicle> {
    place: atomic_table::Seat<Option<T>, View<T::Entry>>,
    number: u32,
    free: u32,
    seats: u32,
}

impl<T: Chronicle> Model for Seat<T> {
    ghost use Rattle.turn_lock.specs.declared.sitting.Sitting.{Sitting};
    ghost use Rattle.turn_lock.specs.Seats.{sitting, IsIdle};

    ghost Value = { Sitting T.Entry };

    ghost view = { λ s. sitting s.place };

    ghost invariant = { λ s. IsIdle s.place s.number s.free s.seats };
}

/// A seat that has the turn.
pub struct Grip<T: Chronicle> {
    place: atomic_table::Seat<Option<T>, View<T::Entry>>,
    number: u32,
    free: u32,
    seats: u32,
}

impl<T: Chronicle> Model for Grip<T> {
    ghost use Rattle.turn_lock.specs.declared.sitting.Sitting.{Sitting};
    ghost use Rattle.turn_lock.specs.Seats.{sitting, HasTurn};

    ghost Value = { Sitting T.Entry };

    ghost view = { λ s. sitting s.place };

    ghost invariant = { λ s. HasTurn s.place s.number s.free s.seats };
}

/// A seat that has the turn, with the value. It has no ghost field, so that `value_mut` can lend the
/// value; and it is not `Drop`, so that a turn is not lost by mistake.
pub struct Held<T: Chronicle> {
    grip: Grip<T>,
    pub(crate) value: T,
}

impl<T: Chronicle> Seat<T> {
    /// The seat's own number.
    pub fn number(&self) -> u32
        ensures { result ≡ self.now.number }
    {
        self.number
    }
}

impl<T: Chronicle> Held<T> {
    /// The number of the seat that has the turn.
    pub fn number(&self) -> u32
        ensures { result ≡ self.now.grip.number }
    {
        self.grip.number
    }

    /// The value, to be read.
    pub fn value(&self) -> &T
        ensures { result.now ≡ self.now.value }
    {
        &self.value
    }
}

impl<T: Chronicle> TurnLock<T> {
    /// A lock for the seat numbers below `seats`, and the first seat, which has number 0 and all others
    /// free. No entry of the value has a seat number yet. `Err` is want of memory, and hands the value
    /// back.
    pub fn new(alloc: Global, value: T, seats: u32) -> Result<(TurnLock<T>, Seat<T>), T>
        requires some { 0 < seats }
        requires unsigned { (n : ℕ) → of n (T.history value) ≡ [] }
        requires short { length (T.history value) < 2 ^ 62 }
        ensures ok { IfOk result (λ t. t.1 ≡ record {
          number = 0;
          free = 1;
          seats = seats;
          past = [];
          seen = T.history value;
          mine = [];
          lock = t.0;
        }) }
        ensures err { IfErr result (λ x. x ≡ value) }
    {
        let about = About {
            seats,
            value: Snapshot::of(&value),
        };
        let word = 2 * value.length();
        let mut slots = Vec::new(alloc);
        if let Err(failed) = slots.push(Some(value)) {
            let AllocFailed { value } = failed;
            slots.destroy_empty();
            let Some(value) = value else { unreachable!() };
            return Err(value);
        }
        match Table::new(alloc, &[word], slots, &about) {
            Ok((table, place)) => Ok((
                TurnLock { table },
                Seat {
                    place,
                    number: 0,
                    free: 1,
                    seats,
                },
            )),
            Err(Refused { mut slots }) => {
                let slot = slots.pop();
                slots.destroy_empty();
                let Some(Some(value)) = slot else {
                    unreachable!()
                };
                Err(value)
            }
        }
    }

    /// Waits for the turn, and gives the value. Its history begins with what the seat has seen, and the
    /// entries of the seat's number are those that the seat knows. It may wait for ever.
    pub fn take<R: Wait>(&self, rt: &R, seat: Seat<T>) -> Held<T>
        requires { seat.lock ≡ self.now }
        ensures begins { IsPrefix seat.seen (T.history result.value) }
        ensures own { of seat.number (T.history result.value) ≡ seat.mine }
        ensures seat { result.grip ≡ record seat { seen = T.history result.value } }
    {
        let Seat {
            mut place,
            number,
            free,
            seats,
        } = seat;
        let patience = Patience::new();
        for _ in rt.forever() {
            let found = self.table.shared.fetch_or::<Win<T>>(&mut place, 0, 1);
            if found % 2 == 0 {
                let slot = self.table.shared.exchange(&mut place, 0, None);
                let Some(value) = slot else { unreachable!() };
                let grip = Grip {
                    place,
                    number,
                    free,
                    seats,
                };
                return Held { grip, value };
            }
            patience.wait(rt);
        }
        unreachable!()
    }

    /// Puts the value back, with at most one entry more, of the seat's number, and ends the turn. So an
    /// older value can't be put back, nor an entry under another's number.
    pub fn give(&self, held: Held<T>) -> Seat<T>
        requires lock { held.grip.lock ≡ self.now }
        requires adds { AddsOne held.grip.number held.grip.seen (T.history held.value) }
        requires short { length (T.history held.value) < 2 ^ 62 }
        ensures { result ≡ record held.grip {
          seen = T.history held.value;
          mine = of held.grip.number (T.history held.value);
        } }
    {
        let Held { grip, value } = held;
        let Grip {
            mut place,
            number,
            free,
            seats,
        } = grip;
        let word = 2 * value.length();
        let old = self.table.shared.exchange(&mut place, 0, Some(value));
        let None = old else { unreachable!() };
        self.table.shared.store::<Free<T>>(&mut place, 0, word);
        Seat {
            place,
            number,
            free,
            seats,
        }
    }

    /// Two seats of one. The second gets the least free number, which has no entries, and no free number;
    /// it has seen what the first has seen.
    pub fn split(&self, seat: Seat<T>) -> (Seat<T>, Seat<T>)
        requires lock { seat.lock ≡ self.now }
        requires free { seat.free < seat.seats }
        ensures old { result.0 ≡ record seat { free = seat.free + 1 } }
        ensures new { result.1 ≡ record seat {
          number = seat.free;
          free = seat.seats;
          past = [];
          mine = [];
        } }
    {
        let Seat {
            mut place,
            number,
            free,
            seats,
        } = seat;
        let new = self.table.shared.split_seat::<Next>(&mut place);
        (
            Seat {
                place,
                number,
                free: free + 1,
                seats,
            },
            Seat {
                place: new,
                number: free,
                free: seats,
                seats,
            },
        )
    }

    /// One seat of two. It keeps the number of the first and its entries, has the free and past numbers of
    /// both and the number of the second among its past ones, and has seen what either had seen.
    pub fn join(&self, one: Seat<T>, other: Seat<T>) -> Seat<T>
        requires one { one.lock ≡ self.now }
        requires other { other.lock ≡ self.now }
        ensures seat { result ≡ record one {
          free = min one.free other.free;
          past = one.past ++ other.number ∷ other.past;
          seen = result.seen;
        } }
        ensures longer { (result.seen ≡ one.seen) ⊎ (result.seen ≡ other.seen) }
        ensures first { IsPrefix one.seen result.seen }
        ensures second { IsPrefix other.seen result.seen }
    {
        let Seat {
            mut place,
            number,
            free,
            seats,
        } = one;
        let Seat {
            place: other,
            number: _,
            free: other_free,
            seats: _,
        } = other;
        self.table.shared.join_seat::<Next>(&mut place, other);
        self.table.shared.load::<Weigh<T>>(&mut place, 0);
        let free = if other_free < free { other_free } else { free };
        Seat {
            place,
            number,
            free,
            seats,
        }
    }

    /// Ends the lock: the seat has all numbers, as its own, free or past, so no other seat is out, and the
    /// value comes back.
    pub fn close(self, seat: Seat<T>) -> T
        requires lock { seat.lock ≡ self }
        requires all { (x : ℕ) → x < seat.seats → Has seat x }
        ensures begins { IsPrefix seat.seen (T.history result) }
        ensures own { of seat.number (T.history result) ≡ seat.mine }
    {
        let Seat {
            place,
            number: _,
            free: _,
            seats: _,
        } = seat;
        let TurnLock { table } = self;
        let mut closed = table.close_with(place);
        let slot = closed.take(0);
        closed.free();
        let Some(value) = slot else { unreachable!() };
        value
    }
}
