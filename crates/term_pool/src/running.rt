ghost use Rattle.std.specs.Prelude.{◌≡◌, ◌<◌, ◌≤◌, ◌+◌, length, take, IfOk, IfErr, OnOk};
ghost use Rattle.trs_defs.specs.Tree.{Tree};
ghost use Rattle.trs_defs.specs.Size.{size_of};
ghost use Rattle.trs_defs.specs.Path.{Follows};
ghost use Rattle.term_pool.specs.Pooled.{Extends, tree_at};
ghost use Rattle.term_pool.specs.Answers.{GivesId};
ghost use Rattle.term_pool.specs.Paths.{IsPathFault};
ghost use Rattle.term_pool.specs.Outlines.{AreOutlines};

use crate::outlines::Outlines;
use crate::{PathFault, PathStep, Pool};
use std::alloc::Global;
use trs_core::{OutOfMemory, Trs};

/// The most ids that a path adds before all of them but those of the term at hand are given up.
pub const MOST_ADDED: u32 = 1_048_576;

/// A term of n nodes is carried over once more than `FEW_ADDED` and n times `ADDED_FOR_A_NODE` ids
/// have been added. For the largest terms that is `MOST_ADDED` without the next term's nodes.
const FEW_ADDED: u64 = 65_536;

const ADDED_FOR_A_NODE: u64 = 14;

impl Pool {
    /// The id of the end of a path. Each term after the start keeps the limits. A step costs what
    /// its rule and the way to its place have nodes, and less where it is that before and neither
    /// changes the term; of a rule that a long path uses often, parts with no variable cost nothing.
    /// Where the steps have added many ids, and at the latest at `MOST_ADDED`, the term at hand is
    /// read, the ids that were added are released, and it is interned again, so that a long path
    /// takes no more memory than that.
    pub fn run_path(
        &mut self,
        alloc: Global,
        trs: &Trs,
        id: u32,
        path: &[PathStep],
    ) -> Result<u32, PathFault>
        requires { id < length self.old }
        ensures end { IfOk result (λ end.
            Follows trs.now.rules path.now (tree_at self.old id) (tree_at self.new end)) }
        ensures there { IfOk result (λ end. end < length self.new) }
        ensures fault { IfErr result (IsPathFault trs.now.rules path.now (tree_at self.old id)) }

        // A path that can be followed is followed, unless memory runs out.
        ensures only { (u : Tree) → Follows trs.now.rules path.now (tree_at self.old id) u
            → GivesId PathFault.OutOfMemory self.new result u }

        // The ids that were there keep their terms. Where the path is not followed, none is added.
        ensures kept { Extends self.old self.new }
        ensures few { length self.new ≤ length self.old + MOST_ADDED + 65536 }
        ensures unchanged { IfErr result (λ _. self.new ≡ self.old) }
    {
        let mark = self.mark();
        match self.run(alloc, trs, id, path) {
            Ok(end) => Ok(end),
            Err(fault) => {
                self.release(mark);
                Err(fault)
            }
        }
    }

    /// The same end. Where the path is not followed, what was made stays.
    fn run(
        &mut self,
        alloc: Global,
        trs: &Trs,
        id: u32,
        path: &[PathStep],
    ) -> Result<u32, PathFault>
        requires { id < length self.old }
        ensures end { IfOk result (λ end.
            Follows trs.now.rules path.now (tree_at self.old id) (tree_at self.new end)) }
        ensures there { IfOk result (λ end. end < length self.new) }
        ensures fault { IfErr result (IsPathFault trs.now.rules path.now (tree_at self.old id)) }
        ensures only { (u : Tree) → Follows trs.now.rules path.now (tree_at self.old id) u
            → GivesId PathFault.OutOfMemory self.new result u }
        ensures kept { Extends self.old self.new }
        ensures few { OnOk result (length self.new ≤ length self.old + MOST_ADDED + 65536) }
    {
        let outlines = self.outlines_of(alloc, trs, path)?;
        self.follow(alloc, trs, &outlines, id, path)
    }

    /// The same end, by the outlines of rules.
    fn follow(
        &mut self,
        alloc: Global,
        trs: &Trs,
        outlines: &Outlines,
        id: u32,
        path: &[PathStep],
    ) -> Result<u32, PathFault>
        requires there { id < length self.old }
        requires outlines { AreOutlines trs.now.rules self.old outlines.now }
        ensures end { IfOk result (λ end.
            Follows trs.now.rules path.now (tree_at self.old id) (tree_at self.new end)) }
        ensures there { IfOk result (λ end. end < length self.new) }
        ensures fault { IfErr result (IsPathFault trs.now.rules path.now (tree_at self.old id)) }
        ensures only { (u : Tree) → Follows trs.now.rules path.now (tree_at self.old id) u
            → GivesId PathFault.OutOfMemory self.new result u }
        ensures kept { Extends self.old self.new }
        ensures few { OnOk result (length self.new ≤ length self.old + MOST_ADDED) }
    {
        let mark = self.mark();
        let mut current = id;
        // The step before, where it left the term as it was: made again it does so again.
        let mut idle: Option<&PathStep> = None;
        for (k, step) in path.iter().enumerate() {
            if let Some(before) = idle {
                if before.is_same(step) {
                    continue;
                }
            }
            let same = self.carry_over(alloc, mark, current)?;
            match self.step_by(alloc, trs, outlines, same, &step.place, step.rule) {
                Ok(next) => {
                    idle = if next == same { Some(step) } else { None };
                    current = next;
                }
                Err(fault) => return Err(PathFault::at_step(k as u64, fault)),
            }
        }
        Ok(current)
    }

    /// The id of the same term, where many ids have been added for its size: of those from the mark
    /// on only its own are kept. So a long path from a small term takes little memory.
    fn carry_over(&mut self, alloc: Global, mark: u32, id: u32) -> Result<u32, OutOfMemory>
        requires there { id < length self.old }
        requires marked { mark ≤ length self.old }
        requires small { mark < length self.old → size_of (tree_at self.old id) ≤ 65536 }
        ensures same { IfOk result (λ new. tree_at self.new new ≡ tree_at self.old id) }
        ensures there { IfOk result (λ new. new < length self.new) }
        ensures room { OnOk result (length self.new + 65536 ≤ mark + MOST_ADDED) }
        ensures kept { Extends (take mark self.old) self.new }
    {
        let many = FEW_ADDED + ADDED_FOR_A_NODE * u64::from(self.measure(id).size);
        if u64::from(self.len() - mark) <= many {
            return Ok(id);
        }
        let term = self.read(alloc, id)?;
        self.release(mark);
        self.intern(alloc, &term)
    }
}
