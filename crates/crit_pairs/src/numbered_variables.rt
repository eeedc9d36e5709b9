//! The ids of the variables 0, 1, 2 .. in a pool.
ghost use Rattle.std.specs.Prelude.{◌≡◌, ℕ, List, Some, IfOk, IfSome, OnOk, slice_get};
ghost use Rattle.trs_defs.specs.Tree.{Tree, var};
ghost use Rattle.term_pool.specs.Pooled.{Extends, StandsFor};
ghost use Rattle.crit_pairs.specs.NumberedVariables.{AreVariableIds};

use std::alloc::Global;
use term_pool::Pool;
use trs_core::OutOfMemory;

/// The ids of variables in a pool, as far as they were asked for. They stay right as the pool grows.
#[derive(Drop)]
pub(crate) struct NumberedVariables {
    /// The id of each variable at the place of its number.
    pub ids: Vec<Option<u32>>,
}

impl NumberedVariables {
    /// No variable was asked for. It takes no memory.
    pub fn new(alloc: Global) -> NumberedVariables
        ensures { (pool : List Tree) → AreVariableIds pool result }
    {
        NumberedVariables {
            ids: Vec::new(alloc),
        }
    }

    /// The id of a variable. The pool is asked for it but once.
    #[inline(always)]
    pub fn id(&mut self, number: u32, pool: &mut Pool) -> Result<u32, OutOfMemory>
        requires { AreVariableIds pool.old self.old }
        ensures id { IfOk result (λ id. StandsFor pool.new id (var number)) }
        ensures kept { Extends pool.old pool.new }
        ensures ids { OnOk result (AreVariableIds pool.new self.new) }
    {
        match self.known(number) {
            Some(id) => Ok(id),
            None => self.add(number, pool),
        }
    }

    /// The id of a variable, if it is known.
    #[inline(always)]
    fn known(&self, number: u32) -> Option<u32>
        ensures { IfSome result (λ id. slice_get self.now.ids.items number ≡ Some (Some id)) }
    {
        match self.ids.get(number as usize) {
            Some(known) => *known,
            None => None,
        }
    }

    /// The id of a variable that was not asked for before.
    #[inline(never)]
    fn add(&mut self, number: u32, pool: &mut Pool) -> Result<u32, OutOfMemory>
        requires { AreVariableIds pool.old self.old }
        ensures id { IfOk result (λ id. StandsFor pool.new id (var number)) }
        ensures kept { Extends pool.old pool.new }
        ensures ids { OnOk result (AreVariableIds pool.new self.new) }
    {
        let id = pool.variable(number)?;
        self.note(number, id)?;
        Ok(id)
    }

    /// Notes the id of a variable.
    fn note(&mut self, number: u32, id: u32) -> Result<(), OutOfMemory>
        ensures { (pool : List Tree) → AreVariableIds pool self.old
            → StandsFor pool id (var number) → OnOk result (AreVariableIds pool self.new) }
    {
        let place = number as usize;
        while self.ids.len() <= place {
            self.ids.push(None)?;
        }
        self.ids[place] = Some(id);
        Ok(())
    }
}
