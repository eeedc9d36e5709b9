ghost use Rattle.std.specs.Prelude.{◌≡◌, ◌<◌, Some, All, length, slice_get, IfOk, OnOk};
ghost use Rattle.term_pool.specs.Pooled.{tree_at};
ghost use Rattle.term_pool.specs.Redexes.{IsNarrow, HasRedexes, AreRedexes, AreRootRedexes, Grows};
ghost use Rattle.term_pool.specs.Tried.{IsTried};
ghost use Rattle.term_pool.specs.Known.{IsKnown};

use crate::known::Known;
use crate::nodes::Node;
use crate::{PathStep, Pool, RulesByRoot};
use std::alloc::Global;
use trs_core::{OutOfMemory, Position, Rule};

impl Pool {
    /// The places at which a step can be made, with the numbers of their rules: the places in
    /// preorder, and at one place the rules in order. A place is matched only with the rules that
    /// have its root. (Baader and Nipkow, definition 4.2.2.)
    pub fn redexes_at(
        &self,
        alloc: Global,
        by_root: &RulesByRoot,
        id: u32,
    ) -> Result<Vec<PathStep>, OutOfMemory>
        requires there { id < length self.now }
        requires narrow { IsNarrow (tree_at self.now id) }
        ensures { IfOk result (λ found.
            HasRedexes by_root.now.rules (tree_at self.now id) found.items) }
    {
        let mut known = Known::new(alloc);
        self.list_redexes(alloc, by_root, id, &mut known)
    }

    /// The same list. What is found out is added to what is known, for later calls.
    pub fn list_redexes(
        &self,
        alloc: Global,
        by_root: &RulesByRoot,
        id: u32,
        known: &mut Known,
    ) -> Result<Vec<PathStep>, OutOfMemory>
        requires there { id < length self.now }
        requires narrow { IsNarrow (tree_at self.now id) }
        requires known { IsKnown by_root.now.rules self.now known.old }
        ensures redexes { IfOk result (λ found.
            HasRedexes by_root.now.rules (tree_at self.now id) found.items) }
        ensures known { OnOk result (IsKnown by_root.now.rules self.now known.new) }
    {
        let mut found = Vec::new(alloc);
        let mut place = Vec::new(alloc);
        self.add_redexes(alloc, by_root, id, known, &mut place, &mut found)?;
        Ok(found)
    }

    /// Adds the redexes of a subterm, which stands at the place.
    fn add_redexes(
        &self,
        alloc: Global,
        by_root: &RulesByRoot,
        id: u32,
        known: &mut Known,
        place: &mut Vec<u8>,
        found: &mut Vec<PathStep>,
    ) -> Result<(), OutOfMemory>
        requires there { id < length self.now }
        requires narrow { IsNarrow (tree_at self.now id) }
        requires known { IsKnown by_root.now.rules self.now known.old }
        requires positive { All (λ n. 0 < n) place.old.items }
        ensures found { OnOk result (Grows place.old.items
            (AreRedexes by_root.now.rules (tree_at self.now id)) found.old.items found.new.items) }
        ensures place { OnOk result (place.new.items ≡ place.old.items) }
        ensures known { OnOk result (IsKnown by_root.now.rules self.now known.new) }
    {
        if self.is_passed(by_root, id, known) {
            return Ok(());
        }
        let before = found.len();
        self.add_root_redexes(alloc, by_root, id, known, place, found)?;
        match self.node(id) {
            Node::Var(_) => {}
            Node::App(_, args) => {
                for (i, arg) in args.as_slice().iter().enumerate() {
                    place.push(i as u8 + 1)?;
                    self.add_redexes(alloc, by_root, *arg, known, place, found)?;
                    place.pop();
                }
            }
        }
        if found.len() == before {
            self.pass(by_root, id, known)?;
        }
        Ok(())
    }

    /// Adds the rules of whose left sides the subterm at the place is an instance.
    fn add_root_redexes(
        &self,
        alloc: Global,
        by_root: &RulesByRoot,
        id: u32,
        known: &mut Known,
        place: &[u8],
        found: &mut Vec<PathStep>,
    ) -> Result<(), OutOfMemory>
        requires there { id < length self.now }
        requires positive { All (λ n. 0 < n) place.now }
        requires known { IsKnown by_root.now.rules self.now known.old }
        ensures found { OnOk result (Grows place.now
            (AreRootRedexes by_root.now.rules 0 (tree_at self.now id))
            found.old.items found.new.items) }
        ensures known { OnOk result (IsKnown by_root.now.rules self.now known.new) }
    {
        let rules = by_root.rules();
        let Node::App(f, _) = self.node(id) else {
            return Ok(());
        };
        for k in by_root.with_root(*f) {
            let rule = &rules[*k as usize];
            self.try_rule(alloc, by_root, rule, *k, id, known, place, found)?;
        }
        Ok(())
    }

    /// Adds rule `k`, if the subterm at the place is an instance of its left side.
    fn try_rule(
        &self,
        alloc: Global,
        by_root: &RulesByRoot,
        rule: &Rule,
        k: u32,
        id: u32,
        known: &mut Known,
        place: &[u8],
        found: &mut Vec<PathStep>,
    ) -> Result<(), OutOfMemory>
        requires there { id < length self.now }
        requires positive { All (λ n. 0 < n) place.now }
        requires rule { slice_get by_root.now.rules k ≡ Some rule.now }
        requires known { IsKnown by_root.now.rules self.now known.old }
        ensures tried { OnOk result (IsTried rule.now.left (tree_at self.now id)
            (record { place = place.now; rule = k }) found.old.items found.new.items) }
        ensures known { OnOk result (IsKnown by_root.now.rules self.now known.new) }
    {
        if self.is_redex_by(alloc, by_root, rule, k, id, known)? {
            let place = Position::of(alloc, place)?;
            found.push(PathStep { place, rule: k })?;
        }
        Ok(())
    }
}
