//! What contracts see of a seat.
ghost use Rattle.atomic_table.specs.Seated.{TableId, table_id_coded};

use crate::signed::Signed;
use std::collections::LinkedList;
use std::marker::Model;

/// A seat, as contracts see it: the name of its lock, its number, the numbers from `free` up to
/// `seats` that it may give away, the numbers that were joined into it, what it has seen of the
/// history, and the entries of its own number. No value of it is made.
pub struct Sitting<E> {
    pub number: u32,
    pub free: u32,
    pub seats: u32,
    pub past: LinkedList<u32>,
    pub seen: LinkedList<Signed<E>>,
    pub mine: LinkedList<Signed<E>>,
    pub ghost lock: { TableId } by { table_id_coded },
}

impl<E> Model for Sitting<E> {
    ghost use base.Fml.{ftrue};

    ghost also_owns = { λ _. ftrue };
}
