//! What a seat knows, and the rule of the table.
use crate::chronicle::Chronicle;
use crate::signed::Signed;
use atomic_table::TableRule;
use std::collections::LinkedList;
use std::marker::PhantomData;
use std::snapshot::Snapshot;

/// What a seat knows in the table. No value of it is made.
pub struct View<E> {
    /// False of a seat that was joined into another.
    pub live: bool,
    /// Whether it has the turn.
    pub holds: bool,
    /// Its own number.
    pub number: u32,
    /// The numbers from this one up to `seats` are free in it.
    pub free: u32,
    pub seats: u32,
    /// The numbers of seats that were joined into it.
    pub past: LinkedList<u32>,
    /// The beginning of the history that it has seen.
    pub seen: LinkedList<Signed<E>>,
    /// What a seat that was joined into this one had seen.
    pub told: LinkedList<Signed<E>>,
    /// The entries of its own number.
    pub mine: LinkedList<Signed<E>>,
}

/// What the table is told when it is made.
#[derive(Drop)]
pub struct About<T> {
    pub seats: u32,
    pub value: Snapshot<T>,
}

/// The rule of the table (`Kept`).
pub struct Turns<T> {
    of: PhantomData<T>,
}

impl<T: Chronicle> TableRule<Option<T>, View<T::Entry>, About<T>> for Turns<T> {
    ghost use Rattle.turn_lock.specs.Rules.{Kept, first_view};

    ghost holds = { λ about. Kept T.history about.seats };

    ghost first = { λ about. first_view about.seats (T.history about.value.value) };
}
