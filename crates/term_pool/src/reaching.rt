ghost use Rattle.std.specs.Prelude.{◌≡◌, ◌<◌, ◌≤◌, ◌+◌, ◌*◌, [], ◌∷◌, All, length, IfOk, IfErr, IfSome, IfNone, OnOk};
ghost use Rattle.trs_defs.specs.Member.{In};
ghost use Rattle.trs_defs.specs.Path.{Follows};
ghost use Rattle.term_pool.specs.Pooled.{Extends, tree_at};
ghost use Rattle.term_pool.specs.Redexes.{IsNarrow, IsRedexAt};
ghost use Rattle.term_pool.specs.Listed.{Listed};
ghost use Rattle.term_pool.specs.Reach.{IsReachList, AreReducts, AreCandidates};
ghost use Rattle.term_pool.specs.ListedIds.{listed, listed_at};
ghost use Rattle.term_pool.specs.Reached.{AreBelow, IsReached};
ghost use Rattle.term_pool.specs.Known.{IsKnown};
ghost use Rattle.term_pool.specs.Steps.{IsTooLarge};
ghost use Rattle.term_pool.specs.Reaching.{Adds, IsReduct, IsNewReduct, IsPassedOver};

use crate::known::Known;
use crate::narrow::paths_keep_narrow;
use crate::paths::one_longer;
use crate::reached::Reached;
use crate::{PathStep, Pool, RulesByRoot};
use std::alloc::Global;
use std::collections::BTreeSet;
use trs_core::{OutOfMemory, Trs};

/// How far a search goes: terms fewer than `depth` steps away are looked at, `limit` terms are
/// listed, and a term has at most `size` nodes.
#[derive(Clone, Copy)]
pub(crate) struct Bounds {
    depth: u32,
    limit: usize,
    size: u64,
}

impl Pool {
    /// The terms that steps lead to from the id's term, each once with the first path that leads
    /// to it. The list begins with the term itself. For each of its terms in order that is fewer
    /// than `depth` steps away, the reducts follow in the order of the redexes, if they have at
    /// most `size` nodes and keep the limits. It ends at `count` terms (at one, where `count` is
    /// 0). What is made of a reduct that is not listed is released, and so is all that was made where
    /// memory or the ids run out.
    pub fn reach(
        &mut self,
        alloc: Global,
        trs: &Trs,
        id: u32,
        depth: u32,
        count: u32,
        size: u64,
    ) -> Result<Vec<(u32, Vec<PathStep>)>, OutOfMemory>
        requires there { id < length self.old }
        requires narrow { IsNarrow (tree_at self.old id) }
        ensures list { IfOk result (λ found. IsReachList trs.now.rules (tree_at self.old id)
            depth count size (listed_at self.new found.items)) }
        ensures there { IfOk result (λ found. All (λ e. e.0 < length self.new) found.items) }
        ensures follow { IfOk result (λ found. (e : Listed) → In e (listed_at self.new found.items)
            → Follows trs.now.rules e.path (tree_at self.old id) e.term) }

        // The ids that were there keep their terms.
        ensures kept { Extends self.old self.new }
        ensures few { length self.new ≤ length self.old + count * size }
        ensures unchanged { IfErr result (λ _. self.new ≡ self.old) }
    {
        let by_root = RulesByRoot::new(alloc, trs)?;
        self.reach_by_root(alloc, &by_root, id, depth, count, size)
    }

    /// The same list, where the table of rules is made once for many terms.
    pub fn reach_by_root(
        &mut self,
        alloc: Global,
        by_root: &RulesByRoot,
        id: u32,
        depth: u32,
        count: u32,
        size: u64,
    ) -> Result<Vec<(u32, Vec<PathStep>)>, OutOfMemory>
        requires there { id < length self.old }
        requires narrow { IsNarrow (tree_at self.old id) }
        ensures list { IfOk result (λ found. IsReachList by_root.now.rules (tree_at self.old id)
            depth count size (listed_at self.new found.items)) }
        ensures there { IfOk result (λ found. All (λ e. e.0 < length self.new) found.items) }
        ensures follow { IfOk result (λ found. (e : Listed) → In e (listed_at self.new found.items)
            → Follows by_root.now.rules e.path (tree_at self.old id) e.term) }
        ensures kept { Extends self.old self.new }
        ensures few { length self.new ≤ length self.old + count * size }
        ensures unchanged { IfErr result (λ _. self.new ≡ self.old) }
    {
        let mut known = Known::new(alloc);
        self.reach_knowing(alloc, by_root, id, depth, count, size, &mut known)
    }

    /// The same list, and what is found out on the way is added to what is known. Where memory or
    /// the ids run out, what is known may be of ids that are released.
    pub fn reach_knowing(
        &mut self,
        alloc: Global,
        by_root: &RulesByRoot,
        id: u32,
        depth: u32,
        count: u32,
        size: u64,
        known: &mut Known,
    ) -> Result<Vec<(u32, Vec<PathStep>)>, OutOfMemory>
        requires there { id < length self.old }
        requires narrow { IsNarrow (tree_at self.old id) }
        requires known { IsKnown by_root.now.rules self.old known.old }
        ensures list { IfOk result (λ found. IsReachList by_root.now.rules (tree_at self.old id)
            depth count size (listed_at self.new found.items)) }
        ensures there { IfOk result (λ found. All (λ e. e.0 < length self.new) found.items) }
        ensures follow { IfOk result (λ found. (e : Listed) → In e (listed_at self.new found.items)
            → Follows by_root.now.rules e.path (tree_at self.old id) e.term) }
        ensures known { OnOk result (IsKnown by_root.now.rules self.new known.new) }
        ensures kept { Extends self.old self.new }
        ensures few { length self.new ≤ length self.old + count * size }
        ensures unchanged { IfErr result (λ _. self.new ≡ self.old) }
    {
        let mark = self.mark();
        match self.search(alloc, by_root, id, depth, count, size, known) {
            Ok(found) => Ok(found),
            Err(e) => {
                self.release(mark);
                Err(e)
            }
        }
    }

    /// The same list. What was made stays, where memory runs out.
    fn search(
        &mut self,
        alloc: Global,
        by_root: &RulesByRoot,
        id: u32,
        depth: u32,
        count: u32,
        size: u64,
        known: &mut Known,
    ) -> Result<Vec<(u32, Vec<PathStep>)>, OutOfMemory>
        requires there { id < length self.old }
        requires narrow { IsNarrow (tree_at self.old id) }
        requires known { IsKnown by_root.now.rules self.old known.old }
        ensures list { IfOk result (λ found. IsReachList by_root.now.rules (tree_at self.old id)
            depth count size (listed_at self.new found.items)) }
        ensures there { IfOk result (λ found. All (λ e. e.0 < length self.new) found.items) }
        ensures follow { IfOk result (λ found. (e : Listed) → In e (listed_at self.new found.items)
            → Follows by_root.now.rules e.path (tree_at self.old id) e.term) }
        ensures known { OnOk result (IsKnown by_root.now.rules self.new known.new) }
        ensures kept { Extends self.old self.new }
        ensures few { IfOk result (λ _. length self.new ≤ length self.old + count * size) }
    {
        paths_keep_narrow(by_root.trs());
        let bounds = Bounds {
            depth,
            limit: count.max(1) as usize,
            size,
        };
        let mut reached = Reached::new(alloc, id)?;
        let mut next = 0;
        while next < reached.list.len() && reached.list.len() < bounds.limit {
            let entry = reached.entry(alloc, next)?;
            self.look_at(alloc, by_root, bounds, &entry, known, &mut reached)?;
            next += 1;
        }
        Ok(reached.list)
    }

    /// Lists the reducts of an entry, if it is not too deep.
    fn look_at(
        &mut self,
        alloc: Global,
        by_root: &RulesByRoot,
        bounds: Bounds,
        entry: &(u32, Vec<PathStep>),
        known: &mut Known,
        reached: &mut Reached,
    ) -> Result<(), OutOfMemory>
        requires there { entry.now.0 < length self.old }
        requires narrow { IsNarrow (tree_at self.old entry.now.0) }
        requires known { IsKnown by_root.now.rules self.old known.old }
        requires reached { IsReached self.old reached.old }
        ensures adds { OnOk result (Adds bounds.limit bounds.size (AreCandidates by_root.now.rules
            bounds.depth bounds.size (listed self.old entry.now ∷ []))
            self.old self.new reached.old reached.new) }
        ensures known { OnOk result (IsKnown by_root.now.rules self.new known.new) }
        ensures kept { Extends self.old self.new }
    {
        if entry.1.len() >= bounds.depth as usize {
            return Ok(());
        }
        let steps = self.list_redexes(alloc, by_root, entry.0, known)?;
        for step in &steps {
            if reached.list.len() >= bounds.limit {
                return Ok(());
            }
            self.add_reduct(alloc, by_root.trs(), bounds, entry, step, known, reached)?;
        }
        Ok(())
    }

    /// Lists the reduct of an entry by one step, if it is small and new.
    fn add_reduct(
        &mut self,
        alloc: Global,
        trs: &Trs,
        bounds: Bounds,
        entry: &(u32, Vec<PathStep>),
        step: &PathStep,
        known: &mut Known,
        reached: &mut Reached,
    ) -> Result<(), OutOfMemory>
        requires there { entry.now.0 < length self.old }
        requires redex { IsRedexAt trs.now.rules (tree_at self.old entry.now.0) step.now }
        requires known { IsKnown trs.now.rules self.old known.old }
        requires reached { IsReached self.old reached.old }
        requires space { length reached.old.list.items < bounds.limit }
        ensures adds { OnOk result (Adds bounds.limit bounds.size (AreReducts trs.now.rules
            bounds.size (listed self.old entry.now) (step.now ∷ []))
            self.old self.new reached.old reached.new) }
        ensures known { OnOk result (IsKnown trs.now.rules self.new known.new) }
        ensures kept { Extends self.old self.new }
    {
        match self.new_reduct(alloc, trs, entry.0, step, bounds.size, known, &reached.ids)? {
            None => Ok(()),
            Some(reduct) => reached.push(reduct, one_longer(alloc, &entry.1, step)?),
        }
    }

    /// The id of the reduct by one step, or `None` where it is too large or its id is in the set.
    /// Then nothing is kept of it; and where the right side alone is too large, nothing is made.
    fn new_reduct(
        &mut self,
        alloc: Global,
        trs: &Trs,
        id: u32,
        step: &PathStep,
        size: u64,
        known: &mut Known,
        ids: &BTreeSet<u32>,
    ) -> Result<Option<u32>, OutOfMemory>
        requires there { id < length self.old }
        requires redex { IsRedexAt trs.now.rules (tree_at self.old id) step.now }
        requires known { IsKnown trs.now.rules self.old known.old }
        requires below { AreBelow (length self.old) ids.now }
        ensures new { IfOk result (λ found. IfSome found (IsNewReduct trs.now.rules size
            step.now (tree_at self.old id) ids.now self.old self.new)) }
        ensures none { IfOk result (λ found. IfNone found (IsPassedOver trs.now.rules size
            step.now (tree_at self.old id) ids.now self.old)) }
        ensures unchanged { IfOk result (λ found. IfNone found (self.new ≡ self.old)) }
        ensures known { OnOk result (IsKnown trs.now.rules self.new known.new) }
        ensures kept { Extends self.old self.new }
    {
        let rule = &trs.rules()[step.rule as usize];
        if rule.right.size() > size {
            return Ok(None);
        }
        let mark = self.mark();
        let Some(reduct) = self.reduct(alloc, trs, id, step, known)? else {
            return Ok(None);
        };
        if u64::from(self.measure(reduct).size) > size {
            self.release(mark);
            return Ok(None);
        }
        if ids.contains(&reduct) {
            self.release(mark);
            self.note_contractum(trs, id, step, reduct, known)?;
            return Ok(None);
        }
        self.note_contractum(trs, id, step, reduct, known)?;
        Ok(Some(reduct))
    }

    /// The id of the reduct by a step at a redex, or `None` where it passes the limits. A
    /// contractum that is known is not made again.
    fn reduct(
        &mut self,
        alloc: Global,
        trs: &Trs,
        id: u32,
        step: &PathStep,
        known: &Known,
    ) -> Result<Option<u32>, OutOfMemory>
        requires there { id < length self.old }
        requires redex { IsRedexAt trs.now.rules (tree_at self.old id) step.now }
        requires known { IsKnown trs.now.rules self.old known.now }
        ensures reduct { IfOk result (λ found. IfSome found (IsReduct trs.now.rules
            step.now (tree_at self.old id) self.old self.new)) }
        ensures none { IfOk result (λ found. IfNone found (IsTooLarge trs.now.rules
            step.now.place step.now.rule (tree_at self.old id))) }
        ensures unchanged { IfOk result (λ found. IfNone found (self.new ≡ self.old)) }
        ensures kept { Extends self.old self.new }
    {
        match self.known_contractum(id, step, known) {
            Some(by) => self.put_within(alloc, id, step.place.places(), by),
            None => match self.step_at(alloc, trs, id, &step.place, step.rule) {
                Ok(reduct) => Ok(Some(reduct)),
                Err(fault) => {
                    fault.unless_no_memory()?;
                    Ok(None)
                }
            },
        }
    }
}
