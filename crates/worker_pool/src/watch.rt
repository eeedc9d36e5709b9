//! What a search of a worker asks now and then.
ghost use Rattle.std.specs.Prelude.{◌≡◌, ◌<◌};
ghost use Rattle.tree_core.specs.tree_definitions.History.{Runs};
ghost use Rattle.turn_lock.specs.Seats.{After};
ghost use Rattle.worker_pool.specs.Shared.{tree_entries, HasEnded};

use crate::gate::Gate;
use crate::seated::poll;
use crate::shared::SharedTree;
use assign_search::Stop;
use std::marker::Model;
use std::snapshot::Snapshot;
use std::sync::Wait;
use tree_core::Polled;
use turn_lock::{Seat, TurnLock};

/// The most askings of a search that pass unpolled between two polls.
const MOST_UNPOLLED: u32 = 255;

/// It has the worker's seat while a search runs, and polls the tree under the seat's turn. A poll
/// costs more than a step of most searches, so one more asking passes unpolled after each poll, up to
/// a limit: a search with few long steps polls often, and one with many short steps seldom. Once the
/// ticket was cancelled, it stops the search each time.
pub(crate) struct Watch<'w, 'a, R: Wait, G: Gate> {
    rt: &'w R,
    gate: &'w G,
    lock: &'w TurnLock<SharedTree<'a>>,
    seat: Option<Seat<SharedTree<'a>>>,
    first: Snapshot<Seat<SharedTree<'a>>>,
    ticket: u64,
    stops: u64,
    // How many askings are to pass before the next poll, and how many after it.
    unpolled: u32,
    interval: u32,
}

impl<'w, 'a, R: Wait, G: Gate> Model for Watch<'w, 'a, R, G> {
    ghost use Rattle.std.specs.Coded.{codes};
    ghost use Rattle.trs_defs.specs.Tree.{tree_code};
    ghost use Rattle.worker_pool.specs.declared.watching.Watching.{Watching};
    ghost use Rattle.worker_pool.specs.Watched.{IsWatched};

    ghost Value = { Watching };

    ghost coded = { Prim.hlevel (codes, tree_code) };

    ghost view = { λ w. record { stops = w.stops; ticket = w.ticket; first = w.first.value; seat = w.seat } };

    ghost invariant = { λ w. IsWatched w.lock.now w.first.value w.ticket w.stops w.seat };
}

impl<'w, 'a, R: Wait, G: Gate> Stop for Watch<'w, 'a, R, G> {
    ghost use Rattle.std.specs.Prelude.{ℕ};
    ghost use Rattle.turn_lock.specs.declared.sitting.Sitting.{Sitting};
    ghost use Rattle.worker_pool.specs.declared.entry.Entry.{Entry};
    ghost use Rattle.worker_pool.specs.Watched.{kept_of};

    ghost Kept = { Sitting Entry × ℕ };

    ghost kept = { λ w. kept_of w };

    ghost stops = { λ w. w.stops };

    fn stopped(&mut self) -> bool {
        if self.unpolled > 0 {
            self.unpolled -= 1;
            return false;
        }
        if self.stops == u64::MAX {
            for _ in self.rt.forever() {}
            unreachable!();
        }
        if self.stops > 0 {
            self.stops += 1;
            return true;
        }
        self.gate.asked(self.ticket);
        let Some(seat) = self.seat.take() else {
            unreachable!()
        };
        let (seat, polled) = poll(self.rt, self.lock, seat, self.ticket);
        self.seat = Some(seat);
        match polled {
            Polled::Go => {
                self.interval = self.interval.saturating_add(1).min(MOST_UNPOLLED);
                self.unpolled = self.interval;
                false
            }
            Polled::Cancelled => {
                self.stops = 1;
                true
            }
        }
    }
}

impl<'w, 'a, R: Wait, G: Gate> Watch<'w, 'a, R, G> {
    /// Watches the search for a ticket of the seat.
    pub(crate) fn new(
        rt: &'w R,
        gate: &'w G,
        lock: &'w TurnLock<SharedTree<'a>>,
        seat: Seat<SharedTree<'a>>,
        ticket: u64,
    ) -> Watch<'w, 'a, R, G>
        requires lock { seat.lock ≡ lock.now }
        requires runs { Runs ticket (tree_entries seat.mine) }
        ensures first { result.first ≡ seat.entry }
        ensures ticket { result.ticket ≡ ticket }
        ensures stops { result.stops ≡ 0 }
    {
        Watch {
            rt,
            gate,
            lock,
            first: Snapshot::of(&seat),
            seat: Some(seat),
            ticket,
            stops: 0,
            unpolled: 0,
            interval: 0,
        }
    }

    /// The seat, and how often the search was told to stop.
    pub(crate) fn leave(self) -> (Seat<SharedTree<'a>>, u64)
        ensures after { After self.entry.first result.0 }
        ensures same { self.entry.stops ≡ 0 → result.0.mine ≡ self.entry.first.mine }
        ensures ended { 0 < self.entry.stops → HasEnded self.entry.ticket result.0.mine }
        ensures stops { result.1 ≡ self.entry.stops }
    {
        let Watch {
            rt: _,
            gate: _,
            lock: _,
            seat,
            first: _,
            ticket: _,
            stops,
            unpolled: _,
            interval: _,
        } = self;
        let Some(seat) = seat else { unreachable!() };
        (seat, stops)
    }
}
