//! Terms that are different normal forms.
ghost use Rattle.std.specs.Prelude.{◌≡◌, ◌≢◌, ◌↔◌, nat_eq, Some, IsTrue};
ghost use Rattle.std.specs.HashMap.{get};
ghost use Rattle.conf_find.specs.Marks.{HasEnding};

use crate::marks::Marks;
use std::alloc::Global;
use std::collections::HashMap;
use term_pool::{Pool, RulesByRoot, ids_are_distinct};
use trs_core::OutOfMemory;

/// The bytes of an id that is kept, by estimate.
const BYTES_OF_ID: u64 = 32;

/// Whether terms are normal forms, by their ids.
#[derive(Drop)]
pub(crate) struct Endings {
    normal: HashMap<u32, bool>,
}

impl Endings {
    /// What is noted of an id.
    fn is_normal(&self, id: u32) -> bool
        requires { HasEnding self.now id }
        ensures { get nat_eq self.now.normal id ≡ Some result }
    {
        match self.normal.get(&id) {
            Some(is_normal) => *is_normal,
            None => unreachable!(),
        }
    }
}

impl Marks for Endings {
    ghost use Rattle.conf_find.specs.ForkRows.{AreDifferentNormalForms};
    ghost use Rattle.conf_find.specs.Marks.{HasEnding, AreEndings};

    ghost never_meet = { AreDifferentNormalForms };

    ghost has_mark = { HasEnding };

    ghost of_pool = { AreEndings };

    fn new(alloc: Global) -> Endings {
        Endings {
            normal: HashMap::new(alloc),
        }
    }

    fn mark(
        &mut self,
        alloc: Global,
        pool: &Pool,
        by_root: &RulesByRoot,
        id: u32,
    ) -> Result<(), OutOfMemory> {
        if self.normal.contains_key(&id) {
            return Ok(());
        }
        let is_normal = pool.is_normal(alloc, by_root, id)?;
        self.normal.insert(id, is_normal)?;
        Ok(())
    }

    fn are_parted(&self, pool: &Pool, _by_root: &RulesByRoot, left: u32, right: u32) -> bool {
        ids_are_distinct(pool);
        are_different(self.is_normal(left), self.is_normal(right), left, right)
    }

    fn bytes(&self) -> u64 {
        (self.normal.len() as u64).saturating_mul(BYTES_OF_ID)
    }

    fn last() {}
}

fn are_different(first: bool, second: bool, left: u32, right: u32) -> bool
    ensures { IsTrue result ↔ (IsTrue first × IsTrue second × (left ≢ right)) }
{
    first && second && left != right
}
