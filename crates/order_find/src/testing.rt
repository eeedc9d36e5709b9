//! Tests of the values that project the sides of pairs. What was found out of a pair is remembered,
//! since many prefixes of values give its roots the same ones.
ghost use Rattle.std.specs.Prelude.{◌≡◌, ◌<◌, ◌+◌, Some, length, slice_get};
ghost use Rattle.std.specs.Option.{option_copied, option_map};
ghost use Rattle.trs_defs.specs.Position.{argument_at};
ghost use Rattle.trs_core.specs.View.{tree};
ghost use Rattle.pair_theory.specs.Marked.{plain};
ghost use Rattle.pair_theory.specs.DependencyPair.{DependencyPair};
ghost use Rattle.order_search.specs.Slots.{puzzle_of, table_of};
ghost use Rattle.order_find.specs.SubtermSpace.{subterm_search, some_passes, subterm_slots};
ghost use Rattle.order_find.specs.Remembered.{is_subterm, is_proper, ProjectsSo};
ghost use Rattle.order_find.specs.Remembered.{AreTrueOf};

use crate::memo::Memo;
use crate::subterm_space::SubtermSpace;
use assign_search::{OutOfMemory, Tester};
use order_search::roots::{from_root, to_root};
use order_search::{Containment, Side, Sides, containment_in};
use std::alloc::Global;
use trs_core::Term;

impl<'a> Tester<SubtermSpace<'a>> for Memo {
    ghost serves = { λ memo space. AreTrueOf space.pairs.now memo.known.items };

    fn holds(
        &mut self,
        _alloc: Global,
        space: &SubtermSpace<'a>,
        c: u32,
        values: &[u32],
    ) -> Result<bool, OutOfMemory> {
        Ok(self.is_met(space, c, values))
    }
}

impl Memo {
    /// Whether the constraint of this number is true of the values.
    pub(crate) fn is_met(&mut self, space: &SubtermSpace, c: u32, values: &[u32]) -> bool
        requires constraint { c < length space.now.pairs.now + 1 }
        requires known { AreTrueOf space.now.pairs.now self.old.known.items }
        ensures truth { result ≡ (puzzle_of (subterm_search space.now.arities.now
            space.now.roots.now space.now.pairs.now)).truth c values.now }
        ensures known { AreTrueOf space.now.pairs.now self.new.known.items }
    {
        if c as usize == space.pairs.len() {
            return self.some_is_strict(space, values);
        }
        is_subterm(self.containment(space, c, values))
    }

    /// Whether the right side of some pair projects to a proper subterm.
    fn some_is_strict(&mut self, space: &SubtermSpace, values: &[u32]) -> bool
        requires { AreTrueOf space.now.pairs.now self.old.known.items }
        ensures answer { result ≡ some_passes
            (table_of (subterm_slots space.now.roots.now) values.now) space.now.pairs.now }
        ensures known { AreTrueOf space.now.pairs.now self.new.known.items }
    {
        for number in 0..space.pairs.len() as u32 {
            if is_proper(self.containment(space, number, values)) {
                return true;
            }
        }
        false
    }

    /// How the right side of the pair of this number, projected, stands in the left one.
    fn containment(&mut self, space: &SubtermSpace, number: u32, values: &[u32]) -> Containment
        requires there { number < length space.now.pairs.now }
        requires known { AreTrueOf space.now.pairs.now self.old.known.items }
        ensures found { (p : DependencyPair) → slice_get space.now.pairs.now number ≡ Some p →
            ProjectsSo p (table_of (subterm_slots space.now.roots.now) values.now p.from.symbol 0)
            (table_of (subterm_slots space.now.roots.now) values.now p.to.symbol 0) result }
        ensures known { AreTrueOf space.now.pairs.now self.new.known.items }
    {
        let pair = &space.pairs[number as usize];
        let left = space.value_for(from_root(pair), values);
        let right = space.value_for(to_root(pair), values);
        if let Some(known) = self.find(number, left, right) {
            return known;
        }
        let found = contained(pair, left, right);
        self.keep(number, left, right, found);
        found
    }
}

/// How the right side of a pair stands in the left one where these values project them.
fn contained(pair: &Sides, left: u32, right: u32) -> Containment
    ensures { ProjectsSo pair.now left right result }
{
    let Some(s) = argument(&pair.from, left) else {
        return Containment::Missing;
    };
    let Some(t) = argument(&pair.to, right) else {
        return Containment::Missing;
    };
    containment_in(s, t)
}

/// The argument of this number, from 0.
fn argument<'a>(side: &Side<'a>, number: u32) -> Option<&'a Term>
    ensures { option_map tree (option_copied result) ≡ argument_at (plain side.now) (number + 1) }
{
    let args = side.args;
    args.items.get(number as usize)
}

fn is_subterm(found: Containment) -> bool
    ensures { result ≡ is_subterm found }
{
    !matches!(found, Containment::Missing)
}

fn is_proper(found: Containment) -> bool
    ensures { result ≡ is_proper found }
{
    matches!(found, Containment::Proper)
}
