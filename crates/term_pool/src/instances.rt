ghost use Rattle.std.specs.Prelude.{◌≡◌, ◌≤◌, ◌+◌, min, length, IfOk};
ghost use Rattle.trs_defs.specs.Size.{size_of, depth_of};
ghost use Rattle.trs_core.specs.View.{tree};
ghost use Rattle.term_pool.specs.Pooled.{Extends, StandsFor};
ghost use Rattle.term_pool.specs.Bindings.{HasIds, instance_of};

use crate::Pool;
use crate::bindings::Bindings;
use crate::nodes::{Measure, Node};
use smallvec::SmallVec;
use std::alloc::Global;
use trs_core::{OutOfMemory, Term};

impl Pool {
    /// The size and the depth of an instance. Each stands still at the last `u32`, and nothing is
    /// made.
    pub(crate) fn instance_measure(&self, found: &Bindings, t: &Term) -> Measure
        requires { HasIds self.now found.now }
        ensures size { result.size
            ≡ min (size_of (instance_of self.now found.now (tree t.now))) u32.MAX }
        ensures depth { result.depth
            ≡ min (depth_of (instance_of self.now found.now (tree t.now))) u32.MAX }
    {
        match t {
            Term::Var(v) => match found.get(*v) {
                None => Measure { size: 1, depth: 1 },
                Some(id) => self.measure(id),
            },
            Term::App(_, args) => {
                let mut size: u32 = 1;
                let mut deepest: u32 = 0;
                for arg in &args.items {
                    let part = self.instance_measure(found, arg);
                    size = size.saturating_add(part.size);
                    deepest = deepest.max(part.depth);
                }
                Measure {
                    size,
                    depth: deepest.saturating_add(1),
                }
            }
        }
    }

    /// The id of an instance.
    pub(crate) fn instance(
        &mut self,
        alloc: Global,
        found: &Bindings,
        t: &Term,
    ) -> Result<u32, OutOfMemory>
        requires { HasIds self.old found.now }
        ensures id { IfOk result (λ id.
            StandsFor self.new id (instance_of self.old found.now (tree t.now))) }
        ensures kept { Extends self.old self.new }
        ensures few { length self.new
            ≤ length self.old + size_of (instance_of self.old found.now (tree t.now)) }
    {
        match t {
            Term::Var(v) => match found.get(*v) {
                None => self.add(Node::Var(*v)),
                Some(id) => Ok(id),
            },
            Term::App(f, args) => {
                let mut ids = SmallVec::new(alloc);
                for arg in &args.items {
                    ids.push(self.instance(alloc, found, arg)?)?;
                }
                self.add(Node::App(*f, ids))
            }
        }
    }
}
