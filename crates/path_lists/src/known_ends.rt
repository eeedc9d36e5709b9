//! What is known of the ends of paths.
ghost use Rattle.std.specs.Prelude.{◌≡◌, ◌<◌, List, Some, length, slice_get, IfOk, IfSome, OnOk};
ghost use Rattle.trs_defs.specs.Tree.{Tree};
ghost use Rattle.trs_defs.specs.System.{RewriteRule};
ghost use Rattle.term_pool.specs.Pooled.{tree_at};
ghost use Rattle.term_pool.specs.Redexes.{IsNarrow, HasRedexes};
ghost use Rattle.path_lists.specs.KnownEnds.{AreKnownEnds, AreReductsAt};

use crate::reducts::Reducts;
use std::alloc::Global;
use term_pool::{Known, PathStep, Pool, RulesByRoot};
use trs_core::OutOfMemory;

/// What is known of the ends of paths in one pool. Many paths may lead to one term, and many terms
/// may share a part: what takes long to find out is found out once.
#[derive(Drop)]
pub struct KnownEnds {
    /// Ids with the reducts of their terms, where all are small.
    noted: Vec<(u32, Reducts)>,
    /// By ids, their places in that list. An id that is not there has the place of another.
    places: Vec<usize>,
    known: Known,
}

impl KnownEnds {
    /// Nothing is known. It takes no memory.
    pub fn new(alloc: Global) -> KnownEnds
        ensures { (rules : List RewriteRule) (pool : List Tree) → AreKnownEnds rules pool result }
    {
        KnownEnds {
            noted: Vec::new(alloc),
            places: Vec::new(alloc),
            known: Known::new(alloc),
        }
    }

    /// The reducts of the term of an id, if they are known.
    pub(crate) fn reducts(&self, id: u32) -> Option<&Reducts>
        ensures { (rules : List RewriteRule) (pool : List Tree) → AreKnownEnds rules pool self.now
            → IfSome result (λ found. AreReductsAt rules pool id found.now) }
    {
        let place = self.places.get(id as usize)?;
        let entry = self.noted.get(*place)?;
        if entry.0 != id {
            return None;
        }
        Some(&entry.1)
    }

    /// Notes the reducts of the term of an id.
    pub(crate) fn note(&mut self, id: u32, reducts: Reducts) -> Result<(), OutOfMemory>
        ensures { (rules : List RewriteRule) (pool : List Tree) → AreKnownEnds rules pool self.old
            → AreReductsAt rules pool id reducts → OnOk result (AreKnownEnds rules pool self.new) }
    {
        note_place(&mut self.places, id, self.noted.len())?;
        self.noted.push((id, reducts))?;
        Ok(())
    }

    /// The redexes of the term of an id.
    pub(crate) fn redexes(
        &mut self,
        alloc: Global,
        pool: &Pool,
        by_root: &RulesByRoot,
        id: u32,
    ) -> Result<Vec<PathStep>, OutOfMemory>
        requires there { id < length pool.now }
        requires narrow { IsNarrow (tree_at pool.now id) }
        requires known { AreKnownEnds by_root.now.rules pool.now self.old }
        ensures redexes { IfOk result (λ found.
            HasRedexes by_root.now.rules (tree_at pool.now id) found.items) }
        ensures known { OnOk result (AreKnownEnds by_root.now.rules pool.now self.new) }
    {
        pool.list_redexes(alloc, by_root, id, &mut self.known)
    }
}

/// Notes the place of an id.
fn note_place(places: &mut Vec<usize>, id: u32, place: usize) -> Result<(), OutOfMemory>
    ensures { OnOk result (slice_get places.new.items id ≡ Some place) }
{
    let at = id as usize;
    if places.len() <= at {
        places.resize(at + 1, 0)?;
    }
    places[at] = place;
    Ok(())
}
