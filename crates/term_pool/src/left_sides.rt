ghost use Rattle.std.specs.Prelude.{◌≡◌, ◌<◌, ◌↔◌, true, false, List, Some, length, slice_get, IsTrue, IfOk, IfSome, OnOk};
ghost use Rattle.trs_defs.specs.Tree.{Tree};
ghost use Rattle.trs_defs.specs.System.{RewriteRule};
ghost use Rattle.trs_defs.specs.Substitution.{IsInstance};
ghost use Rattle.term_pool.specs.Pooled.{Extends, tree_at};
ghost use Rattle.term_pool.specs.Known.{IsKnown};
ghost use Rattle.term_pool.specs.LeftSides.{AreGround, AreLeftSides, IsGround};

use crate::known::Known;
use crate::nodes::Node;
use crate::{Pool, RulesByRoot};
use std::alloc::Global;
use trs_core::{OutOfMemory, Rule};

/// The left sides of rules as terms of a pool. A part of them with no variable is told apart from
/// a term by its id, and a part that is larger than a term by its size.
#[derive(Drop)]
pub(crate) struct LeftSides {
    /// The ids of the left sides, by the numbers of their rules. The last rules may have none.
    pub(crate) ids: Vec<u32>,
    /// The marks of ids whose terms have no variable. The last ids may have none.
    pub(crate) ground: Vec<bool>,
}

impl LeftSides {
    /// No rule has an id. It takes no memory.
    pub(crate) fn new(alloc: Global) -> LeftSides
        ensures { (rules : List RewriteRule) (pool : List Tree) → AreLeftSides rules pool result }
    {
        LeftSides {
            ids: Vec::new(alloc),
            ground: Vec::new(alloc),
        }
    }

    /// The id of the left side of rule `k`.
    pub(crate) fn id(&self, k: u32) -> Option<u32>
        ensures { result ≡ slice_get self.now.ids.items k }
    {
        self.ids.get(k as usize).copied()
    }
}

impl Pool {
    /// Adds the left sides of all rules.
    pub(crate) fn add_left_sides(
        &mut self,
        alloc: Global,
        by_root: &RulesByRoot,
    ) -> Result<LeftSides, OutOfMemory>
        ensures sides { IfOk result (AreLeftSides by_root.now.rules self.new) }
        ensures kept { Extends self.old self.new }
    {
        let rules = by_root.rules();
        let mut ids = Vec::with_capacity(alloc, rules.len())?;
        for rule in rules {
            ids.push(self.intern(alloc, &rule.left)?)?;
        }
        let ground = self.ground_marks(alloc)?;
        Ok(LeftSides { ids, ground })
    }

    /// Of each id, whether its term has no variable.
    pub fn ground_marks(&self, alloc: Global) -> Result<Vec<bool>, OutOfMemory>
        ensures { IfOk result (λ marks. AreGround self.now marks.items) }
    {
        let mut marks = Vec::with_capacity(alloc, self.len() as usize)?;
        for id in 0..self.len() {
            let mark = self.is_over_marked(&marks, id);
            marks.push(mark)?;
        }
        Ok(marks)
    }

    /// Whether the id's term is a symbol over marked ids.
    fn is_over_marked(&self, marks: &[bool], id: u32) -> bool
        requires there { id < length self.now }
        requires marks { AreGround self.now marks.now }
        ensures { IsTrue result → IsGround (tree_at self.now id) }
    {
        let Node::App(_, args) = self.node(id) else {
            return false;
        };
        for arg in args.as_slice() {
            if !is_marked(marks, *arg) {
                return false;
            }
        }
        true
    }

    /// Whether the id's term is an instance of the left side of rule `k`, where it is none of the
    /// left side that was tried last. Where the left side is in the pool, most terms are told apart
    /// from it by ids and sizes.
    pub(crate) fn is_redex_over(
        &self,
        alloc: Global,
        by_root: &RulesByRoot,
        sides: &LeftSides,
        last: Option<u32>,
        rule: &Rule,
        k: u32,
        id: u32,
        known: &mut Known,
    ) -> Result<bool, OutOfMemory>
        requires there { id < length self.now }
        requires sides { AreLeftSides by_root.now.rules self.now sides.now }
        requires last { IfSome last (λ side.
            IsInstance (tree_at self.now side) (tree_at self.now id) → ⊥) }
        requires rule { slice_get by_root.now.rules k ≡ Some rule.now }
        requires known { IsKnown by_root.now.rules self.now known.old }
        ensures redex { IfOk result (λ yes.
            IsTrue yes ↔ IsInstance rule.now.left (tree_at self.now id)) }
        ensures known { OnOk result (IsKnown by_root.now.rules self.now known.new) }
    {
        let Some(side) = sides.id(k) else {
            return self.is_redex_by(alloc, by_root, rule, k, id, known);
        };
        if is_same(last, side) {
            return Ok(false);
        }
        if !self.may_be_instance(&sides.ground, side, id) {
            return Ok(false);
        }
        self.is_instance_of(alloc, &rule.left, id)
    }

    /// Whether the id's term may be an instance of the pattern's. It is none where the pattern has
    /// a symbol or a part with no variable that the term lacks there, or a part that is too large.
    fn may_be_instance(&self, ground: &[bool], pattern: u32, id: u32) -> bool
        requires pattern { pattern < length self.now }
        requires there { id < length self.now }
        requires ground { AreGround self.now ground.now }
        ensures { result ≡ false
            → IsInstance (tree_at self.now pattern) (tree_at self.now id) → ⊥ }
    {
        if pattern == id {
            return true;
        }
        let size = self.measure(pattern).size;
        if is_marked(ground, pattern) {
            return false;
        }
        if size > self.measure(id).size {
            return false;
        }
        match (self.node(pattern), self.node(id)) {
            (Node::Var(_), _) => true,
            (Node::App(_, _), Node::Var(_)) => false,
            (Node::App(f, ps), Node::App(g, ts)) => {
                let patterns = ps.as_slice();
                let ids = ts.as_slice();
                if *f != *g || patterns.len() != ids.len() {
                    return false;
                }
                for (i, p) in patterns.iter().enumerate() {
                    if !self.may_be_instance(ground, *p, ids[i]) {
                        return false;
                    }
                }
                true
            }
        }
    }
}

/// Whether there is a last id, which is this one.
fn is_same(last: Option<u32>, id: u32) -> bool
    ensures { IsTrue result → last ≡ Some id }
{
    match last {
        Some(other) => other == id,
        None => false,
    }
}

/// Whether the id is marked.
pub(crate) fn is_marked(marks: &[bool], id: u32) -> bool
    ensures { IsTrue result → slice_get marks.now id ≡ Some true }
{
    match marks.get(id as usize) {
        Some(mark) => *mark,
        None => false,
    }
}
