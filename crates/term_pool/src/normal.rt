ghost use Rattle.std.specs.Prelude.{◌≡◌, ◌<◌, ◌↔◌, false, length, IsTrue, IfOk, OnOk};
ghost use Rattle.trs_defs.specs.Tree.{Tree};
ghost use Rattle.trs_defs.specs.Step.{Step};
ghost use Rattle.trs_defs.specs.NormalForm.{IsNormalForm};
ghost use Rattle.term_pool.specs.Pooled.{Extends, tree_at};
ghost use Rattle.term_pool.specs.Redex.{IsRedex, HasRedex};
ghost use Rattle.term_pool.specs.Known.{IsKnown};
ghost use Rattle.term_pool.specs.LeftSides.{AreLeftSides};

use crate::known::Known;
use crate::left_sides::LeftSides;
use crate::nodes::Node;
use crate::{Pool, RulesByRoot};
use std::alloc::Global;
use trs_core::OutOfMemory;

impl Pool {
    /// Whether no step leaves the id's term. Each large subterm is looked at once, however often
    /// it stands in the term. (Baader and Nipkow, definition 2.1.1.)
    pub fn is_normal(
        &self,
        alloc: Global,
        by_root: &RulesByRoot,
        id: u32,
    ) -> Result<bool, OutOfMemory>
        requires { id < length self.now }
        ensures normal { IfOk result (λ yes.
            IsTrue yes → IsNormalForm (Step by_root.now.rules) (tree_at self.now id)) }
        ensures reducible { IfOk result (λ yes.
            yes ≡ false → (u : Tree) × Step by_root.now.rules (tree_at self.now id) u) }
    {
        let sides = LeftSides::new(alloc);
        let mut known = Known::new(alloc);
        Ok(!self.has_redex(alloc, by_root, &sides, id, &mut known)?)
    }

    /// The same with the left sides in the pool, which pays where many rules are tried at many
    /// nodes: what has no variable in them costs one comparison of ids.
    pub fn is_normal_by_ids(
        &mut self,
        alloc: Global,
        by_root: &RulesByRoot,
        id: u32,
    ) -> Result<bool, OutOfMemory>
        requires { id < length self.old }
        ensures normal { IfOk result (λ yes.
            IsTrue yes → IsNormalForm (Step by_root.now.rules) (tree_at self.old id)) }
        ensures reducible { IfOk result (λ yes.
            yes ≡ false → (u : Tree) × Step by_root.now.rules (tree_at self.old id) u) }
        ensures kept { Extends self.old self.new }
    {
        let sides = self.add_left_sides(alloc, by_root)?;
        let mut known = Known::new(alloc);
        Ok(!self.has_redex(alloc, by_root, &sides, id, &mut known)?)
    }

    /// Whether some subterm is a redex.
    fn has_redex(
        &self,
        alloc: Global,
        by_root: &RulesByRoot,
        sides: &LeftSides,
        id: u32,
        known: &mut Known,
    ) -> Result<bool, OutOfMemory>
        requires there { id < length self.now }
        requires sides { AreLeftSides by_root.now.rules self.now sides.now }
        requires known { IsKnown by_root.now.rules self.now known.old }
        ensures redex { IfOk result (λ yes.
            IsTrue yes ↔ HasRedex by_root.now.rules (tree_at self.now id)) }
        ensures known { OnOk result (IsKnown by_root.now.rules self.now known.new) }
    {
        if self.is_passed(by_root, id, known) {
            return Ok(false);
        }
        if self.is_redex(alloc, by_root, sides, id, known)? {
            return Ok(true);
        }
        if let Node::App(_, args) = self.node(id) {
            for arg in args.as_slice() {
                if self.has_redex(alloc, by_root, sides, *arg, known)? {
                    return Ok(true);
                }
            }
        }
        self.pass(by_root, id, known)?;
        Ok(false)
    }

    /// Whether the id's term is an instance of the left side of a rule. Of equal left sides next to
    /// each other one is tried.
    fn is_redex(
        &self,
        alloc: Global,
        by_root: &RulesByRoot,
        sides: &LeftSides,
        id: u32,
        known: &mut Known,
    ) -> Result<bool, OutOfMemory>
        requires there { id < length self.now }
        requires sides { AreLeftSides by_root.now.rules self.now sides.now }
        requires known { IsKnown by_root.now.rules self.now known.old }
        ensures redex { IfOk result (λ yes.
            IsTrue yes ↔ IsRedex by_root.now.rules (tree_at self.now id)) }
        ensures known { OnOk result (IsKnown by_root.now.rules self.now known.new) }
    {
        let rules = by_root.rules();
        let Node::App(f, _) = self.node(id) else {
            return Ok(false);
        };
        let mut last = None;
        for k in by_root.with_root(*f) {
            let rule = &rules[*k as usize];
            if self.is_redex_over(alloc, by_root, sides, last, rule, *k, id, known)? {
                return Ok(true);
            }
            last = sides.id(*k);
        }
        Ok(false)
    }
}
