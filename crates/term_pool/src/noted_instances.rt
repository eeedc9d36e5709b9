//! Instances of terms that have ids.
ghost use Rattle.std.specs.Prelude.{◌≡◌, ◌≢◌, ◌<◌, ℕ, List, Some, length, slice_get, IsTrue, IfOk, IfSome, IfNone, OnOk};
ghost use Rattle.trs_defs.specs.Tree.{Tree};
ghost use Rattle.trs_defs.specs.Variable.{has_var};
ghost use Rattle.trs_defs.specs.Substitution.{apply};
ghost use Rattle.term_pool.specs.Pooled.{Extends, StandsFor, tree_at};
ghost use Rattle.term_pool.specs.Nodes.{StandsBelow, node_tree};
ghost use Rattle.term_pool.specs.LeftSides.{AreGround};
ghost use Rattle.term_pool.specs.Instances.{AreInstances, HasNoted, HasVariable, IsNoted};

use crate::Pool;
use crate::left_sides::is_marked;
use crate::nodes::Node;
use smallvec::SmallVec;
use std::alloc::Global;
use trs_core::OutOfMemory;

/// The ids of instances by one substitution, as far as they were made. It stays right as the pool
/// grows.
#[derive(Drop)]
pub struct Instances {
    /// Ids with the ids of their instances.
    pub(crate) noted: Vec<(u32, u32)>,
    /// By ids, their places in that list. An id that is not there has the place of another, or one
    /// past the end.
    pub(crate) places: Vec<usize>,
}

impl Instances {
    /// Nothing is noted. It takes no memory.
    pub fn new(alloc: Global) -> Instances
        ensures { (s : ℕ → Tree) (pool : List Tree) → AreInstances s pool result }
    {
        Instances {
            noted: Vec::new(alloc),
            places: Vec::new(alloc),
        }
    }

    /// Forgets all, for another substitution. Its cost does not grow with the ids.
    pub fn clear(&mut self)
        ensures { (s : ℕ → Tree) (pool : List Tree) → AreInstances s pool self.new }
    {
        self.noted.clear();
    }

    /// Notes the instance of an id's term.
    pub fn note(&mut self, id: u32, instance: u32) -> Result<(), OutOfMemory>
        ensures noted { OnOk result (IsNoted self.new id) }
        ensures kept { OnOk result ((i : ℕ) → IsNoted self.old i → IsNoted self.new i) }
        ensures right { (s : ℕ → Tree) (pool : List Tree) (t : Tree) → AreInstances s pool self.old
            → StandsFor pool id t → StandsFor pool instance (apply s t)
            → OnOk result (AreInstances s pool self.new) }
    {
        note_place(&mut self.places, id, self.noted.len())?;
        self.noted.push((id, instance))?;
        Ok(())
    }

    /// The id of the instance that is noted for an id.
    pub fn of(&self, id: u32) -> Option<u32>
        ensures some { IfSome result (HasNoted self.now id) }
        ensures none { IfNone result (IsNoted self.now id → ⊥) }
    {
        let place = self.places.get(id as usize)?;
        let entry = self.noted.get(*place)?;
        if entry.0 != id {
            return None;
        }
        Some(entry.1)
    }
}

/// Notes the place of an id.
fn note_place(places: &mut Vec<usize>, id: u32, place: usize) -> Result<(), OutOfMemory>
    ensures noted { OnOk result (slice_get places.new.items id ≡ Some place) }
    ensures others { OnOk result ((i k : ℕ) → i ≢ id → slice_get places.old.items i ≡ Some k
        → slice_get places.new.items i ≡ Some k) }
{
    make_place(places, id)?;
    places[id as usize] = place;
    Ok(())
}

/// Makes room for the place of an id.
fn make_place(places: &mut Vec<usize>, id: u32) -> Result<(), OutOfMemory>
    ensures there { OnOk result (id < length places.new.items) }
    ensures kept { OnOk result ((i k : ℕ) → slice_get places.old.items i ≡ Some k
        → slice_get places.new.items i ≡ Some k) }
{
    let at = id as usize;
    if at < places.len() {
        return Ok(());
    }
    places.resize(at + 1, 0)?;
    Ok(())
}

impl Pool {
    /// The id of the instance of an id's term by the substitution whose instances were noted. An id
    /// with no variable is passed, and each other one is looked at but once.
    pub fn instance_by(
        &mut self,
        alloc: Global,
        id: u32,
        ground: &[bool],
        made: &mut Instances,
    ) -> Result<u32, OutOfMemory>
        requires there { id < length self.old }
        requires ground { AreGround self.old ground.now }
        requires made { (s : ℕ → Tree) × AreInstances s self.old made.old }
        requires variables { (v : ℕ) → IsTrue (has_var v (tree_at self.old id))
            → HasVariable self.old made.old v }
        ensures id { (s : ℕ → Tree) → AreInstances s self.old made.old
            → IfOk result (λ own. StandsFor self.new own (apply s (tree_at self.old id))) }
        ensures made { (s : ℕ → Tree) → AreInstances s self.old made.old
            → OnOk result (AreInstances s self.new made.new) }
        ensures noted { OnOk result ((i : ℕ) → IsNoted made.old i → IsNoted made.new i) }
        ensures kept { Extends self.old self.new }
    {
        if is_marked(ground, id) {
            return Ok(id);
        }
        if let Some(own) = made.of(id) {
            return Ok(own);
        }
        let Node::App(f, args) = self.node(id) else {
            unreachable!();
        };
        let f = *f;
        let count = args.as_slice().len();
        let mut ids = SmallVec::new(alloc);
        for i in 0..count {
            let Some(arg) = self.argument(id, i) else {
                unreachable!();
            };
            ids.push(self.instance_by(alloc, arg, ground, made)?)?;
        }
        self.add_instance(Node::App(f, ids), id, made)
    }

    /// The id of a node whose term is the instance of an id's. It is noted for that.
    fn add_instance(
        &mut self,
        node: Node,
        id: u32,
        made: &mut Instances,
    ) -> Result<u32, OutOfMemory>
        requires { StandsBelow (length self.old) node }
        ensures id { IfOk result (λ own. StandsFor self.new own (node_tree self.old node)) }
        ensures made { (s : ℕ → Tree) (t : Tree) → AreInstances s self.old made.old
            → StandsFor self.old id t → apply s t ≡ node_tree self.old node
            → OnOk result (AreInstances s self.new made.new) }
        ensures noted { OnOk result ((i : ℕ) → IsNoted made.old i → IsNoted made.new i) }
        ensures kept { Extends self.old self.new }
    {
        let own = self.add(node)?;
        made.note(id, own)?;
        Ok(own)
    }
}
