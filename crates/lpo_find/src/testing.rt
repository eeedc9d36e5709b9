//! Tests of the values of a space, one after another.
ghost use Rattle.std.specs.Prelude.{◌≡◌, ◌++◌, Some, slice_get};
ghost use Rattle.path_lpo.specs.Table.{rank_in, filter_in};
ghost use Rattle.lpo_find.specs.LpoSpace.{path_weak};
ghost use Rattle.lpo_find.specs.LpoRow.{entries_of};
ghost use Rattle.lpo_find.specs.KeptSides.{AreTrueOf};

use crate::assigned::Assigned;
use crate::comparing::{falls_weakly_sharing, shared_falls_weakly};
use crate::kept::KeptSides;
use crate::space::LpoSpace;
use assign_search::{OutOfMemory, Space, Tester};
use order_search::{LentRule, falling_at};
use std::alloc::Global;

impl<'a> Tester<LpoSpace<'a>> for KeptSides {
    ghost serves = { λ kept space. AreTrueOf space.arities.now space.symbols.now
        (space.rules.now ++ space.pairs.now) kept.places.items };

    fn holds(
        &mut self,
        alloc: Global,
        space: &LpoSpace<'a>,
        c: u32,
        values: &[u32],
    ) -> Result<bool, OutOfMemory> {
        match falling_at(space.rules, space.pairs, c as usize) {
            Some(rule) => Ok(self.rule_falls(alloc, space, c, rule, values)),
            None => space.holds(alloc, c, values),
        }
    }
}

impl KeptSides {
    /// Whether the rule of this number falls weakly by the order that the values say.
    fn rule_falls(
        &mut self,
        alloc: Global,
        space: &LpoSpace,
        number: u32,
        rule: &LentRule,
        values: &[u32],
    ) -> bool
        requires rule { slice_get (space.now.rules.now ++ space.now.pairs.now) number
            ≡ Some rule.now }
        requires known { AreTrueOf space.now.arities.now space.now.symbols.now
            (space.now.rules.now ++ space.now.pairs.now) self.old.places.items }
        ensures falls { result ≡ path_weak
            (rank_in (entries_of space.now.arities.now space.now.symbols.now values.now))
            (filter_in (entries_of space.now.arities.now space.now.symbols.now values.now))
            rule.now.left rule.now.right }
        ensures known { AreTrueOf space.now.arities.now space.now.symbols.now
            (space.now.rules.now ++ space.now.pairs.now) self.new.places.items }
    {
        let order = Assigned { space, values };
        if let Some(shared) = self.find(space.symbols, number, values) {
            return shared_falls_weakly(&order, rule, shared);
        }
        let (falls, shared) = falls_weakly_sharing(&order, rule);
        if let Some(shared) = shared {
            self.keep(alloc, number, values, shared);
        }
        falls
    }
}
