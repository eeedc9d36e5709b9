ghost use Rattle.std.specs.Prelude.{◌≡◌, ◌<◌, ◌↔◌, false, length, IsTrue, IfOk, IfSome, IfNone, OnOk};
ghost use Rattle.trs_defs.specs.Tree.{var};
ghost use Rattle.trs_defs.specs.Substitution.{IsInstance};
ghost use Rattle.trs_core.specs.View.{tree};
ghost use Rattle.term_pool.specs.Pooled.{AreDistinct, tree_at};
ghost use Rattle.term_pool.specs.Bindings.{HasIds, NamesParts, bound_terms, instance_of};
ghost use Rattle.term_pool.specs.Matching.{Matches};
ghost use Rattle.term_pool.specs.Outlines.{HasNoMatchOver};

use crate::Pool;
use crate::bindings::Bindings;
use crate::nodes::Node;
use std::alloc::Global;
use trs_core::{OutOfMemory, Rule, Term};

impl Pool {
    /// Ids for the variables of a pattern that take it to the term of an id. `None` exactly where
    /// there are none. A variable that occurs twice costs one comparison of ids.
    pub(crate) fn match_at(
        &self,
        alloc: Global,
        pattern: &Term,
        id: u32,
    ) -> Result<Option<Bindings>, OutOfMemory>
        requires { id < length self.now }
        ensures ids { IfOk result (λ found. IfSome found (HasIds self.now)) }
        ensures found { IfOk result (λ found. IfSome found (λ m.
            instance_of self.now m (tree pattern.now) ≡ tree_at self.now id)) }
        ensures none { IfOk result (λ found. IfNone found
            (IsInstance (tree pattern.now) (tree_at self.now id) → ⊥)) }
    {
        let mut found = Bindings::new(alloc);
        if self.match_more(pattern, id, &mut found)? {
            Ok(Some(found))
        } else {
            Ok(None)
        }
    }

    /// The same for a pattern in which variables that no rule has stand for the ids.
    pub(crate) fn match_over(
        &self,
        alloc: Global,
        pattern: &Term,
        id: u32,
    ) -> Result<Option<Bindings>, OutOfMemory>
        requires { id < length self.now }
        ensures ids { IfOk result (λ found. IfSome found (HasIds self.now)) }
        ensures parts { IfOk result (λ found. IfSome found (λ m.
            NamesParts self.now (bound_terms self.now m))) }
        ensures found { IfOk result (λ found. IfSome found (λ m.
            instance_of self.now m (tree pattern.now) ≡ tree_at self.now id)) }
        ensures none { IfOk result (λ found. IfNone found
            (HasNoMatchOver self.now (tree pattern.now) (tree_at self.now id))) }
    {
        let mut found = Bindings::with_parts(alloc, self.len());
        if self.match_more(pattern, id, &mut found)? {
            Ok(Some(found))
        } else {
            Ok(None)
        }
    }

    /// Whether the id's term is an instance of the pattern.
    pub fn is_instance_of(
        &self,
        alloc: Global,
        pattern: &Term,
        id: u32,
    ) -> Result<bool, OutOfMemory>
        requires { id < length self.now }
        ensures { IfOk result (λ yes.
            IsTrue yes ↔ IsInstance (tree pattern.now) (tree_at self.now id)) }
    {
        Ok(self.match_at(alloc, pattern, id)?.is_some())
    }

    /// Whether the id's term is an instance of the rule's left side.
    pub fn is_instance(&self, alloc: Global, rule: &Rule, id: u32) -> Result<bool, OutOfMemory>
        requires { id < length self.now }
        ensures { IfOk result (λ yes.
            IsTrue yes ↔ IsInstance rule.now.left (tree_at self.now id)) }
    {
        if !self.may_match(&rule.left, id) {
            return Ok(false);
        }
        Ok(self.match_at(alloc, &rule.left, id)?.is_some())
    }

    /// Whether the id's term has the pattern's symbols, where the pattern has symbols. It takes no
    /// memory, and refutes most patterns at once.
    fn may_match(&self, pattern: &Term, id: u32) -> bool
        requires { id < length self.now }
        ensures { result ≡ false → IsInstance (tree pattern.now) (tree_at self.now id) → ⊥ }
    {
        match (pattern, self.node(id)) {
            (Term::Var(_), _) => true,
            (Term::App(_, _), Node::Var(_)) => false,
            (Term::App(f, ps), Node::App(g, args)) => {
                let ids = args.as_slice();
                if *f != *g || ps.items.len() != ids.len() {
                    return false;
                }
                for (i, p) in ps.items.iter().enumerate() {
                    if !self.may_match(p, ids[i]) {
                        return false;
                    }
                }
                true
            }
        }
    }

    /// Adds the bindings that take the pattern to the term of the id.
    fn match_more(&self, pattern: &Term, id: u32, found: &mut Bindings) -> Result<bool, OutOfMemory>
        requires there { id < length self.now }
        requires ids { HasIds self.now found.old }
        ensures matches { IfOk result (
            Matches self.now (tree pattern.now) (tree_at self.now id) found.old found.new) }
        ensures ids { OnOk result (HasIds self.now found.new) }
    {
        match (pattern, self.node(id)) {
            (Term::Var(v), _) => self.bind(*v, id, found),
            (Term::App(_, _), Node::Var(_)) => Ok(false),
            (Term::App(f, ps), Node::App(g, args)) => {
                let ids = args.as_slice();
                if *f != *g || ps.items.len() != ids.len() {
                    return Ok(false);
                }
                for (i, p) in ps.items.iter().enumerate() {
                    if !self.match_more(p, ids[i], found)? {
                        return Ok(false);
                    }
                }
                Ok(true)
            }
        }
    }

    /// Binds a variable to an id, or sees whether it is bound to it.
    fn bind(&self, v: u32, id: u32, found: &mut Bindings) -> Result<bool, OutOfMemory>
        requires there { id < length self.now }
        requires ids { HasIds self.now found.old }
        requires distinct { AreDistinct self.now }
        ensures matches { IfOk result (
            Matches self.now (var v) (tree_at self.now id) found.old found.new) }
        ensures ids { OnOk result (HasIds self.now found.new) }
    {
        if let Some(earlier) = found.get(v) {
            return Ok(earlier == id);
        }
        found.bind(v, id)?;
        Ok(true)
    }
}
