//! What is remembered of arguments of pairs.
ghost use Rattle.std.specs.Prelude.{◌≡◌, IfOk, IfSome};
ghost use Rattle.order_find.specs.Remembered.{AreAlwaysTrue, IsKnown, Remembers, StaysTrue};

use order_search::Containment;
use std::alloc::Global;
use trs_core::OutOfMemory;

/// The fewest places, and the most. Both are powers of two.
const FEWEST_PLACES: usize = 1 << 6;

const MOST_PLACES: usize = 1 << 20;

/// An odd number with many ones and zeros, by which near numbers come far apart.
const SPREAD: u64 = 0x9E37_79B9_7F4A_7C15;

/// How the right side of a pair stands in the left one where these values project them.
#[derive(Clone, Copy)]
pub(crate) struct Known {
    pub(crate) pair: u32,
    pub(crate) left: u32,
    pub(crate) right: u32,
    pub(crate) containment: Option<Containment>,
}

/// Containments that were found out. Each has a place, where a later one may take over.
#[derive(Drop)]
pub(crate) struct Memo {
    pub(crate) known: Vec<Known>,
    kept: usize,
}

impl Memo {
    /// Nothing is known. It takes no memory.
    pub(crate) fn new(alloc: Global) -> Memo
        ensures { AreAlwaysTrue result.known.items }
    {
        Memo {
            known: Vec::new(alloc),
            kept: 0,
        }
    }

    /// How the sides of a pair stand where these values project them, if it is remembered.
    pub(crate) fn find(&self, pair: u32, left: u32, right: u32) -> Option<Containment>
        ensures { IfSome result (IsKnown self.now.known.items pair left right) }
    {
        let known = self.known.get(self.place(pair, left, right))?;
        if known.pair == pair && known.left == left && known.right == right {
            known.containment
        } else {
            None
        }
    }

    /// Remembers it, and may forget others.
    pub(crate) fn keep(&mut self, pair: u32, left: u32, right: u32, containment: Containment)
        ensures { Remembers
            self.old.known.items pair left right containment self.new.known.items }
    {
        self.make_room();
        self.put(pair, left, right, containment);
    }

    /// Where many were kept, takes more places and forgets all, unless there are the most, or memory
    /// is refused.
    fn make_room(&mut self)
        ensures { StaysTrue self.old.known.items self.new.known.items }
    {
        let places = self.known.len().saturating_mul(4).max(FEWEST_PLACES);
        if self.kept < self.known.len() || places > MOST_PLACES {
            return;
        }
        if let Ok(known) = nothing_known(*self.known.allocator(), places) {
            self.known = known;
            self.kept = 0;
        }
    }

    fn put(&mut self, pair: u32, left: u32, right: u32, containment: Containment)
        ensures { Remembers
            self.old.known.items pair left right containment self.new.known.items }
    {
        let place = self.place(pair, left, right);
        if place >= self.known.len() {
            return;
        }
        self.kept = self.kept.saturating_add(1);
        self.known[place] = Known {
            pair,
            left,
            right,
            containment: Some(containment),
        };
    }

    fn place(&self, pair: u32, left: u32, right: u32) -> usize {
        let mixed = u64::from(pair)
            .wrapping_mul(SPREAD)
            .wrapping_add(u64::from(left))
            .wrapping_mul(SPREAD)
            .wrapping_add(u64::from(right))
            .wrapping_mul(SPREAD);
        (mixed >> 32) as usize & self.known.len().saturating_sub(1)
    }
}

/// Places at which nothing is known.
fn nothing_known(alloc: Global, places: usize) -> Result<Vec<Known>, OutOfMemory>
    ensures { IfOk result (λ known. AreAlwaysTrue known.items) }
{
    let nothing = Known {
        pair: 0,
        left: 0,
        right: 0,
        containment: None,
    };
    Ok(vec![in alloc; nothing; places]?)
}
