ghost use Rattle.std.specs.Prelude.{◌≡◌, ◌<◌, ◌≤◌, ◌+◌, ℕ, All, length, map, IfOk, IfErr, IfSome, IfNone};
ghost use Rattle.trs_defs.specs.Tree.{Trees, app, items, trees, var};
ghost use Rattle.trs_defs.specs.Size.{size_of};
ghost use Rattle.trs_defs.specs.Variable.{IsVariable};
ghost use Rattle.trs_core.specs.View.{tree};
ghost use Rattle.term_pool.specs.Pooled.{Extends, StandsFor, tree_at};

use crate::Pool;
use crate::nodes::Node;
use smallvec::SmallVec;
use std::alloc::Global;
use trs_core::{Args, OutOfMemory, Term};

impl Pool {
    /// The id of a term, whatever its size. It adds at most as many ids as the term has nodes, one
    /// for each subterm that the pool lacks. Where memory or the ids run out, what was added is
    /// released.
    pub fn intern(&mut self, alloc: Global, t: &Term) -> Result<u32, OutOfMemory>
        ensures id { IfOk result (λ id. StandsFor self.new id (tree t.now)) }
        ensures kept { Extends self.old self.new }
        ensures few { length self.new ≤ length self.old + size_of (tree t.now) }
        ensures unchanged { IfErr result (λ _. self.new ≡ self.old) }
    {
        let mark = self.mark();
        match self.insert(alloc, t) {
            Ok(id) => Ok(id),
            Err(e) => {
                self.release(mark);
                Err(e)
            }
        }
    }

    fn insert(&mut self, alloc: Global, t: &Term) -> Result<u32, OutOfMemory>
        ensures id { IfOk result (λ id. StandsFor self.new id (tree t.now)) }
        ensures kept { Extends self.old self.new }
        ensures few { length self.new ≤ length self.old + size_of (tree t.now) }
    {
        match t {
            Term::Var(v) => self.add(Node::Var(*v)),
            Term::App(f, args) => {
                let mut ids = SmallVec::new(alloc);
                for arg in &args.items {
                    ids.push(self.insert(alloc, arg)?)?;
                }
                self.add(Node::App(*f, ids))
            }
        }
    }

    /// The term of an id, made anew. Its cost is the term's number of nodes, shared or not.
    pub fn read(&self, alloc: Global, id: u32) -> Result<Term, OutOfMemory>
        requires { id < length self.now }
        ensures { IfOk result (λ t. StandsFor self.now id (tree t)) }
    {
        match self.node(id) {
            Node::Var(v) => Ok(Term::Var(*v)),
            Node::App(f, args) => {
                let mut built = Vec::with_capacity(alloc, args.len())?;
                for arg in args.as_slice() {
                    built.push(self.read(alloc, *arg)?)?;
                }
                Ok(Term::App(*f, Args { items: built }))
            }
        }
    }

    /// The root of an id's term. `None` where the term is a variable.
    pub fn root(&self, id: u32) -> Option<u32>
        requires { id < length self.now }
        ensures some { IfSome result (λ f.
            (ts : Trees) × (tree_at self.now id ≡ app f ts)) }
        ensures none { IfNone result (IsVariable (tree_at self.now id)) }
    {
        match self.node(id) {
            Node::Var(_) => None,
            Node::App(f, _) => Some(*f),
        }
    }

    /// How many arguments the root of an id's term has.
    pub fn arity(&self, id: u32) -> usize
        requires { id < length self.now }
        ensures { (f : ℕ) (ts : Trees) → tree_at self.now id ≡ app f ts
            → result ≡ length (items ts) }
    {
        match self.node(id) {
            Node::Var(_) => 0,
            Node::App(_, args) => args.as_slice().len(),
        }
    }

    /// The id of a variable.
    pub fn variable(&mut self, v: u32) -> Result<u32, OutOfMemory>
        ensures id { IfOk result (λ id. StandsFor self.new id (var v)) }
        ensures kept { Extends self.old self.new }
    {
        self.add(Node::Var(v))
    }

    /// The id of the term of a symbol over the terms of these ids.
    pub fn apply(&mut self, alloc: Global, f: u32, args: &[u32]) -> Result<u32, OutOfMemory>
        requires { All (λ i. i < length self.old) args.now }
        ensures id { IfOk result (λ id. StandsFor self.new id
            (app f (trees (map (tree_at self.old) args.now)))) }
        ensures kept { Extends self.old self.new }
    {
        self.add(Node::App(f, SmallVec::from_slice(alloc, args)?))
    }
}
