//! Sides of rules in a pool, and the ids of their instances.
ghost use Rattle.std.specs.Prelude.{◌≡◌, ◌≤◌, ◌<◌, length, IfOk, OnOk};
ghost use Rattle.trs_core.specs.View.{tree};
ghost use Rattle.trs_core.specs.SystemLimits.{HasSmallVariables};
ghost use Rattle.term_pool.specs.Pooled.{Extends, tree_at};
ghost use Rattle.term_pool.specs.LeftSides.{AreGround};
ghost use Rattle.crit_pairs.specs.Sides.{IsDistinct};
ghost use Rattle.crit_pairs.specs.Numbered.{AreNamed, IsNumbered};
ghost use Rattle.crit_pairs.specs.NumberedVariables.{AreVariableIds};
ghost use Rattle.crit_pairs.specs.PooledSide.{IsPooledSide, side_tree, side_instance, value_of};
ghost use Rattle.term_pool.specs.Instances.{AreInstances};

use crate::binding_table::Bindings;
use crate::names::Names;
use crate::numbered::renumber_variable_in_pool;
use crate::numbered_variables::NumberedVariables;
use crate::solved::name_variables;
use std::alloc::Global;
use term_pool::{Instances, Pool};
use trs_core::{OutOfMemory, Term};

/// A side of a rule in a pool, with its variables.
#[derive(Drop)]
pub(crate) struct PooledSide {
    pub id: u32,
    /// Each once.
    pub variables: Vec<PooledVariable>,
}

/// A variable, and its id.
#[derive(Clone, Copy)]
pub(crate) struct PooledVariable {
    pub number: u32,
    pub id: u32,
}

impl PooledSide {
    /// The side in the pool. Whatever names there are give way to its variables.
    pub fn of(
        alloc: Global,
        t: &Term,
        names: &mut Names,
        pool: &mut Pool,
    ) -> Result<PooledSide, OutOfMemory>
        ensures side { IfOk result (IsPooledSide pool.new (tree t.now)) }
        ensures kept { Extends pool.old pool.new }
    {
        names.clear();
        name_variables(t, names)?;
        let id = pool.intern(alloc, t)?;
        let mut variables = Vec::with_capacity(alloc, names.order.len())?;
        for number in &names.order {
            let own = pool.variable(*number)?;
            variables.push(PooledVariable {
                number: *number,
                id: own,
            })?;
        }
        Ok(PooledSide { id, variables })
    }

    /// The id of the instance of the side, whose variables behind `from` are meant: 0, or the number
    /// by which inner rules are renamed apart. The instance has the numbers of the names. What is
    /// noted of instances by the same bindings and names is not made again.
    pub fn instance(
        &self,
        alloc: Global,
        bindings: &Bindings,
        from: u32,
        names: &mut Names,
        ground: &[bool],
        made: &mut Instances,
        numbered: &mut NumberedVariables,
        pool: &mut Pool,
    ) -> Result<u32, OutOfMemory>
        requires side { IsPooledSide pool.old (side_tree pool.old self.now) self.now }
        requires small { HasSmallVariables (side_tree pool.old self.now) }
        requires from { from ≤ 65536 }
        requires distinct { IsDistinct names.old.order.items }
        requires named { AreNamed names.old.order.items
            (side_instance bindings.now from pool.old self.now) }
        requires ground { AreGround pool.old ground.now }
        requires made { AreInstances (value_of bindings.now from names.old.order.items)
            pool.old made.old }
        requires ids { AreVariableIds pool.old numbered.old }
        ensures names { OnOk result (names.new.order.items ≡ names.old.order.items) }
        ensures numbered { IfOk result (λ id. IsNumbered names.old.order.items
            (side_instance bindings.now from pool.old self.now) (tree_at pool.new id)) }
        ensures there { IfOk result (λ id. id < length pool.new) }
        ensures kept { Extends pool.old pool.new }
        ensures made { OnOk result (AreInstances (value_of bindings.now from names.old.order.items)
            pool.new made.new) }
        ensures ids { OnOk result (AreVariableIds pool.new numbered.new) }
    {
        if self.variables.is_empty() {
            return Ok(self.id);
        }
        for x in &self.variables {
            if made.of(x.id).is_none() {
                let v = from + x.number;
                let id = renumber_variable_in_pool(alloc, bindings, v, names, numbered, pool)?;
                made.note(x.id, id)?;
            }
        }
        pool.instance_by(alloc, self.id, ground, made)
    }
}
