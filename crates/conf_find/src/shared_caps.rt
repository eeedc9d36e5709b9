//! Caps that share their parts.
ghost use Rattle.std.specs.Prelude.{◌≡◌, ◌<◌, [], length, IfOk};
ghost use Rattle.trs_caps.specs.Clash.{clash};
ghost use Rattle.trs_caps.specs.View.{holed};
ghost use Rattle.conf_find.specs.SharedCaps.{IsOver, node_cap, cap_at, KeepsCaps};

use crate::cap_node::CapNode;
use std::alloc::Global;
use std::marker::Model;
use trs_caps::{Cap, Parts};
use trs_core::OutOfMemory;

/// Caps by their numbers, which go from 0. A cap that stands in several others is kept once.
/// Contracts see them as the list of the caps.
#[derive(Drop)]
pub(crate) struct SharedCaps {
    nodes: Vec<CapNode>,
}

impl Model for SharedCaps {
    ghost use Rattle.std.specs.Prelude.{List, []};
    ghost use Rattle.std.specs.Coded.{coded_list};
    ghost use Rattle.trs_caps.specs.HoledTree.{HoledTree, holed_code};
    ghost use Rattle.conf_find.specs.SharedCaps.{caps_over, AreOrdered};

    ghost Value = { List HoledTree };

    ghost coded = { coded_list holed_code };

    ghost view = { λ a. caps_over [] a.nodes.items };

    ghost invariant = { λ a. AreOrdered a.nodes.items };
}

impl SharedCaps {
    /// No caps. It takes no memory.
    pub(crate) fn new(alloc: Global) -> SharedCaps
        ensures { result ≡ [] }
    {
        SharedCaps {
            nodes: Vec::new(alloc),
        }
    }

    /// How many caps there are.
    pub(crate) fn len(&self) -> usize {
        self.nodes.len()
    }

    /// The node of a number.
    pub(crate) fn node(&self, k: u32) -> &CapNode
        requires { k < length self.now }
        ensures is { cap_at self.now k ≡ node_cap self.now result.now }
        ensures over { IsOver k result.now }
    {
        &self.nodes[k as usize]
    }

    /// Adds a cap over those that are there. Its number is the next one.
    pub(crate) fn add(&mut self, node: CapNode) -> Result<u32, OutOfMemory>
        requires { IsOver (length self.old) node }
        ensures there { IfOk result (λ k. k < length self.new) }
        ensures cap { IfOk result (λ k. cap_at self.new k ≡ node_cap self.old node) }
        ensures kept { KeepsCaps self.old self.new }
    {
        let number = self.nodes.len();
        if number >= u32::MAX as usize {
            return Err(OutOfMemory);
        }
        self.nodes.push(node)?;
        Ok(number as u32)
    }

    /// Whether two caps differ at a place where neither has a hole. Shared parts do not.
    pub(crate) fn clashes(&self, left: u32, right: u32) -> bool
        requires left { left < length self.now }
        requires right { right < length self.now }
        ensures { result ≡ clash (cap_at self.now left) (cap_at self.now right) }
    {
        if left == right {
            return false;
        }
        match (self.node(left), self.node(right)) {
            (CapNode::Open, _) => false,
            (_, CapNode::Open) => false,
            (CapNode::Own(v), CapNode::Own(w)) => *v != *w,
            (CapNode::Own(_), CapNode::Symbol(_, _)) => true,
            (CapNode::Symbol(_, _), CapNode::Own(_)) => true,
            (CapNode::Symbol(f, cs), CapNode::Symbol(g, ds)) => {
                let lefts = cs.as_slice();
                let rights = ds.as_slice();
                if *f != *g || lefts.len() != rights.len() {
                    return true;
                }
                for (i, c) in lefts.iter().enumerate() {
                    if self.clashes(*c, rights[i]) {
                        return true;
                    }
                }
                false
            }
        }
    }

    /// The cap of a number, made anew.
    pub(crate) fn cap(&self, alloc: Global, k: u32) -> Result<Cap, OutOfMemory>
        requires { k < length self.now }
        ensures { IfOk result (λ c. holed c ≡ cap_at self.now k) }
    {
        match self.node(k) {
            CapNode::Open => Ok(Cap::Open),
            CapNode::Own(v) => Ok(Cap::Own(*v)),
            CapNode::Symbol(f, parts) => {
                let mut items = Vec::with_capacity(alloc, parts.len())?;
                for part in parts.as_slice() {
                    items.push(self.cap(alloc, *part)?)?;
                }
                Ok(Cap::Symbol(*f, Parts { items }))
            }
        }
    }
}
