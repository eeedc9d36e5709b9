ghost use Rattle.std.specs.Prelude.{◌≡◌, ◌≢◌, ◌<◌, ◌≤◌, ◌+◌, Some, length, IfOk, IfSome};
ghost use Rattle.std.specs.Option.{option_map};
ghost use Rattle.trs_defs.specs.Position.{argument_at, subterm_at, replaced_at, with_argument};
ghost use Rattle.term_pool.specs.Pooled.{Extends, StandsFor, tree_at};
ghost use Rattle.term_pool.specs.Placing.{HasPut};

use crate::Pool;
use crate::nodes::Node;
use smallvec::SmallVec;
use std::alloc::Global;
use trs_core::OutOfMemory;

impl Pool {
    /// The id of the argument behind so many others.
    pub fn argument(&self, id: u32, count: usize) -> Option<u32>
        requires { id < length self.now }
        ensures is { option_map (tree_at self.now) result
            ≡ argument_at (tree_at self.now id) (count + 1) }
        ensures there { IfSome result (λ part. part < length self.now) }
    {
        match self.node(id) {
            Node::Var(_) => None,
            Node::App(_, args) => args.as_slice().get(count).copied(),
        }
    }

    /// The id of the argument at a place.
    fn argument_at(&self, id: u32, place: u8) -> Option<u32>
        requires { id < length self.now }
        ensures is { option_map (tree_at self.now) result
            ≡ argument_at (tree_at self.now id) place }
        ensures there { IfSome result (λ part. part < length self.now) }
    {
        if place == 0 {
            return None;
        }
        self.argument(id, usize::from(place - 1))
    }

    /// The id of the subterm at a position.
    pub fn at(&self, id: u32, places: &[u8]) -> Option<u32>
        requires { id < length self.now }
        ensures is { option_map (tree_at self.now) result
            ≡ subterm_at places.now (tree_at self.now id) }
        ensures there { IfSome result (λ part. part < length self.now) }
    {
        let mut current = id;
        for place in places {
            match self.argument_at(current, *place) {
                None => return None,
                Some(next) => current = next,
            }
        }
        Some(current)
    }

    /// The id of a term with another subterm at a position. Only the nodes on the way to it are
    /// made, and none where it is the subterm that stands there.
    pub fn put(
        &mut self,
        alloc: Global,
        id: u32,
        places: &[u8],
        by: u32,
    ) -> Result<u32, OutOfMemory>
        requires there { id < length self.old }
        requires by { by < length self.old }
        requires put { HasPut self.old places.now id by }
        ensures id { IfOk result (λ new.
            replaced_at places.now (tree_at self.old id) (tree_at self.old by)
            ≡ Some (tree_at self.new new)) }
        ensures there { IfOk result (λ new. new < length self.new) }
        ensures kept { Extends self.old self.new }
        ensures few { length self.new ≤ length self.old + length places.now }
    {
        match places {
            [] => Ok(by),
            [place, rest @ ..] => {
                let Some(part) = self.argument_at(id, *place) else {
                    unreachable!();
                };
                let changed = self.put(alloc, part, rest, by)?;
                if changed == part {
                    return Ok(id);
                }
                self.with_argument(alloc, id, *place, changed)
            }
        }
    }

    /// The id of a term with another argument at a place.
    fn with_argument(
        &mut self,
        alloc: Global,
        id: u32,
        place: u8,
        by: u32,
    ) -> Result<u32, OutOfMemory>
        requires there { id < length self.old }
        requires by { by < length self.old }
        ensures id { IfOk result (λ new. StandsFor self.new new
            (with_argument (tree_at self.old id) place (tree_at self.old by))) }
        ensures kept { Extends self.old self.new }
        ensures few { length self.new ≤ length self.old + 1 }
    {
        match self.node(id) {
            Node::Var(_) => Ok(id),
            Node::App(f, args) => {
                let f = *f;
                let mut ids = SmallVec::new(alloc);
                for (i, arg) in args.as_slice().iter().enumerate() {
                    ids.push(choose(i, place, by, *arg))?;
                }
                self.add(Node::App(f, ids))
            }
        }
    }
}

/// The new argument at the place, and the old one at each other.
fn choose(i: usize, place: u8, new: u32, old: u32) -> u32
    ensures here { place ≡ i + 1 → result ≡ new }
    ensures elsewhere { place ≢ i + 1 → result ≡ old }
{
    if place > 0 && usize::from(place - 1) == i {
        new
    } else {
        old
    }
}
