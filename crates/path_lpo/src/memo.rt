ghost use Rattle.std.specs.Prelude.{IfOk, IfSome};
ghost use Rattle.path_lpo.specs.Memo.{AreAlwaysTrue, IsKnown, Remembers, StaysTrue};

use crate::comparison::Comparison;
use crate::nodes::hash_of_pair;
use std::alloc::Global;
use trs_core::OutOfMemory;

/// The fewest places, and the most. Both are powers of two.
const FEWEST_PLACES: usize = 1 << 10;

const MOST_PLACES: usize = 1 << 20;

/// How the terms of two numbers compare.
#[derive(Clone, Copy)]
pub(crate) struct Known {
    left: u32,
    right: u32,
    comparison: Comparison,
}

/// Comparisons of terms by their numbers. Each pair has a place, where a later pair may take over.
#[derive(Drop)]
pub(crate) struct Memo {
    pub(crate) known: Vec<Known>,
    kept: usize,
}

impl Memo {
    pub(crate) fn new(alloc: Global) -> Result<Memo, OutOfMemory>
        ensures { IfOk result (λ memo. AreAlwaysTrue memo.known.items) }
    {
        Ok(Memo {
            known: nothing_known(alloc, FEWEST_PLACES)?,
            kept: 0,
        })
    }

    /// How the terms of two numbers compare, if it is remembered.
    pub(crate) fn find(&self, s: u32, t: u32) -> Option<Comparison>
        ensures { IfSome result (λ comparison. IsKnown self.now.known.items s t comparison) }
    {
        let known = self.known.get(self.place(s, t))?;
        if known.left == s && known.right == t {
            Some(known.comparison)
        } else {
            None
        }
    }

    /// Remembers a comparison, and may forget others.
    pub(crate) fn keep(&mut self, s: u32, t: u32, comparison: Comparison)
        ensures { Remembers self.old.known.items s t comparison self.new.known.items }
    {
        self.make_room();
        self.put(s, t, comparison);
    }

    /// Where many were kept, takes more places and forgets all, unless there are the most, or memory
    /// is refused.
    fn make_room(&mut self)
        ensures { StaysTrue self.old.known.items self.new.known.items }
    {
        let places = self.known.len().saturating_mul(4);
        if self.kept < self.known.len() || places > MOST_PLACES {
            return;
        }
        if let Ok(known) = nothing_known(*self.known.allocator(), places) {
            self.known = known;
            self.kept = 0;
        }
    }

    fn put(&mut self, s: u32, t: u32, comparison: Comparison)
        ensures { Remembers self.old.known.items s t comparison self.new.known.items }
    {
        let place = self.place(s, t);
        if place >= self.known.len() {
            return;
        }
        self.kept = self.kept.saturating_add(1);
        self.known[place] = Known {
            left: s,
            right: t,
            comparison,
        };
    }

    /// The place of a pair: near those of near first numbers with the same second one, which are
    /// mostly sought one after another.
    fn place(&self, s: u32, t: u32) -> usize {
        let place = hash_of_pair(t, 0).wrapping_add(u64::from(s));
        place as usize & self.known.len().saturating_sub(1)
    }
}

/// Places at which no more is known than that term 0 is term 0.
fn nothing_known(alloc: Global, places: usize) -> Result<Vec<Known>, OutOfMemory>
    ensures { IfOk result (λ known. AreAlwaysTrue known.items) }
{
    let nothing = Known {
        left: 0,
        right: 0,
        comparison: Comparison::Same,
    };
    Ok(vec![in alloc; nothing; places]?)
}
