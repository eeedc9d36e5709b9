//! Terms apart by their caps.
ghost use Rattle.std.specs.Prelude.{◌≡◌, ◌<◌, ℕ, nat_eq, All, Some, length, map, IfOk, OnOk};
ghost use Rattle.std.specs.HashMap.{get, Updates};
ghost use Rattle.trs_defs.specs.Tree.{Trees, app, items, var};
ghost use Rattle.trs_defs.specs.Variable.{IsVariable};
ghost use Rattle.term_pool.specs.Pooled.{tree_at};
ghost use Rattle.join_find.specs.ReachedSides.{IsNarrowAt};
ghost use Rattle.conf_find.specs.Marks.{HasCap, AreCaps};
ghost use Rattle.conf_find.specs.SharedCaps.{KeepsCaps};

use crate::cap_node::CapNode;
use crate::marks::Marks;
use crate::shared_caps::SharedCaps;
use std::alloc::Global;
use std::collections::HashMap;
use term_pool::{Pool, RulesByRoot};
use trs_core::{OutOfMemory, Term};

/// The bytes of a shared cap, and of the number of an id's cap, by estimate.
const BYTES_OF_CAP: u64 = 64;

/// The caps of terms, by their ids, with the variables fixed. Equal terms have one cap, also where
/// they stand in other terms.
#[derive(Drop)]
pub(crate) struct CapMarks {
    shared: SharedCaps,
    numbers: HashMap<u32, u32>,
}

impl CapMarks {
    /// The number of an id's cap.
    fn number(&self, id: u32) -> u32
        requires { HasCap self.now id }
        ensures { get nat_eq self.now.numbers id ≡ Some result }
    {
        match self.numbers.get(&id) {
            Some(number) => *number,
            None => unreachable!(),
        }
    }

    /// The number of the cap of an id's term. It and its subterms get theirs, if they have none yet.
    fn number_of(
        &mut self,
        alloc: Global,
        pool: &Pool,
        by_root: &RulesByRoot,
        id: u32,
    ) -> Result<u32, OutOfMemory>
        requires narrow { IsNarrowAt pool.now id }
        requires caps { AreCaps by_root.now.rules pool.now self.old }
        ensures number { IfOk result (λ k. get nat_eq self.new.numbers id ≡ Some k) }
        ensures still { OnOk result ((i : ℕ) → HasCap self.old i → HasCap self.new i) }
        ensures caps { OnOk result (AreCaps by_root.now.rules pool.now self.new) }
        ensures kept { OnOk result (KeepsCaps self.old.shared self.new.shared) }
    {
        if let Some(number) = self.numbers.get(&id) {
            return Ok(*number);
        }
        match pool.root(id) {
            None => {
                let node = variable_node(alloc, pool, id)?;
                let number = self.shared.add(node)?;
                self.note(id, number)
            }
            Some(f) => {
                let ids = arguments(alloc, pool, id)?;
                let mut parts = Vec::with_capacity(alloc, ids.len())?;
                for arg in &ids {
                    parts.push(self.number_of(alloc, pool, by_root, *arg)?)?;
                }
                let number = self.shared.add_symbol(alloc, by_root, f, parts)?;
                self.note(id, number)
            }
        }
    }

    /// Notes the number of an id's cap, and answers it. It is not inlined, for the stack of deep
    /// terms.
    #[inline(never)]
    fn note(&mut self, id: u32, number: u32) -> Result<u32, OutOfMemory>
        ensures number { IfOk result (λ k. k ≡ number) }
        ensures noted { OnOk result (
            Updates nat_eq self.old.numbers self.new.numbers id (Some number)) }
        ensures shared { self.new.shared ≡ self.old.shared }
    {
        self.numbers.insert(id, number)?;
        Ok(number)
    }
}

impl Marks for CapMarks {
    ghost use Rattle.cert_step.specs.nonjoin.Apart.{AreApart};
    ghost use Rattle.conf_find.specs.Marks.{HasCap, AreCaps};

    ghost never_meet = { AreApart };

    ghost has_mark = { HasCap };

    ghost of_pool = { AreCaps };

    fn new(alloc: Global) -> CapMarks {
        CapMarks {
            shared: SharedCaps::new(alloc),
            numbers: HashMap::new(alloc),
        }
    }

    fn mark(
        &mut self,
        alloc: Global,
        pool: &Pool,
        by_root: &RulesByRoot,
        id: u32,
    ) -> Result<(), OutOfMemory> {
        self.number_of(alloc, pool, by_root, id)?;
        Ok(())
    }

    fn are_parted(&self, _pool: &Pool, _by_root: &RulesByRoot, left: u32, right: u32) -> bool {
        let first = self.number(left);
        let second = self.number(right);
        self.shared.clashes(first, second)
    }

    fn bytes(&self) -> u64 {
        let caps = self.shared.len() as u64;
        caps.saturating_mul(BYTES_OF_CAP)
    }

    fn last() {}
}

/// The node for an id whose term is a variable. It is not inlined, for the stack of deep terms.
#[inline(never)]
fn variable_node(alloc: Global, pool: &Pool, id: u32) -> Result<CapNode, OutOfMemory>
    requires there { id < length pool.now }
    requires variable { IsVariable (tree_at pool.now id) }
    ensures { IfOk result (λ node.
        (v : ℕ) × (tree_at pool.now id ≡ var v) × (node ≡ CapNode.Own v)) }
{
    let term = pool.read(alloc, id)?;
    match term {
        Term::Var(v) => Ok(CapNode::Own(v)),
        Term::App(_, _) => unreachable!(),
    }
}

/// The ids of the arguments of an id's term. It is not inlined, for the stack of deep terms.
#[inline(never)]
fn arguments(alloc: Global, pool: &Pool, id: u32) -> Result<Vec<u32>, OutOfMemory>
    requires narrow { IsNarrowAt pool.now id }
    ensures terms { IfOk result (λ ids. (f : ℕ) (ts : Trees) → tree_at pool.now id ≡ app f ts
        → map (tree_at pool.now) ids.items ≡ items ts) }
    ensures there { IfOk result (λ ids. All (λ i. i < length pool.now) ids.items) }
{
    let mut ids = Vec::new(alloc);
    for i in 0..255 {
        let Some(arg) = pool.argument(id, i) else {
            return Ok(ids);
        };
        ids.push(arg)?;
    }
    Ok(ids)
}
