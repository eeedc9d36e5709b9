ghost use Rattle.std.specs.Prelude.{◌≡◌, IfOk, map, length};
ghost use Rattle.trs_core.specs.View.{tree};
ghost use Rattle.pair_theory.specs.DependencyPair.{dependency_pairs};
ghost use Rattle.dp_core.specs.PlacedPairs.{placed_pairs};
ghost use Rattle.dp_core.specs.LeftNumbers.{AreLeftsOf, AreMarkedLefts};

use crate::laws::placed_pairs_are_the_pairs;
use crate::lefts::{Lefts, marked_lefts};
use crate::sides::{Sides, sides_of};
use crate::{DpPair, dependency_pairs};
use std::alloc::Global;
use std::marker::Model;
use trs_core::{OutOfMemory, Term, Trs, systems_are_valid};

/// The dependency pairs of a system with their sides at hand, by their numbers from 0. They are
/// made once for all steps of a proof, and lend the sides from the system. Contracts see the list
/// of the pairs.
#[derive(Drop)]
pub struct Pairs<'a> {
    sides: Vec<Sides<'a>>,
    lefts: Lefts,
}

impl<'a> Model for Pairs<'a> {
    ghost use Rattle.std.specs.Prelude.{List};
    ghost use Rattle.std.specs.Coded.{coded_list};
    ghost use Rattle.pair_theory.specs.DependencyPair.{DependencyPair};
    ghost use Rattle.dp_core.specs.PairCodes.{pair_code};

    ghost Value = { List DependencyPair };

    ghost coded = { coded_list pair_code };

    ghost use Rattle.dp_core.specs.LeftNumbers.{AreLeftsOf};

    ghost view = { λ a. a.sides.items };

    ghost invariant = { λ a. AreLeftsOf a.lefts a.sides.items };
}

impl<'a> Pairs<'a> {
    /// The pairs of a system, for many steps: the left sides are made once, if there are pairs.
    pub fn new(alloc: Global, trs: &'a Trs) -> Result<Pairs<'a>, OutOfMemory>
        ensures { IfOk result (λ pairs. pairs ≡ dependency_pairs trs.now.rules) }
    {
        let all = dependency_pairs(alloc, trs)?;
        if all.is_empty() {
            return Pairs::of(alloc, trs, &all);
        }
        let kept = marked_lefts(alloc, trs)?;
        Pairs::keeping(alloc, trs, &all, kept)
    }

    /// The pairs of a system whose places are known.
    pub fn of(alloc: Global, trs: &'a Trs, all: &[DpPair]) -> Result<Pairs<'a>, OutOfMemory>
        requires { all.now ≡ placed_pairs trs.now.rules }
        ensures { IfOk result (λ pairs. pairs ≡ dependency_pairs trs.now.rules) }
    {
        Pairs::keeping(alloc, trs, all, Vec::new(alloc))
    }

    /// The same, where some left sides are kept.
    fn keeping(
        alloc: Global,
        trs: &'a Trs,
        all: &[DpPair],
        kept: Vec<Term>,
    ) -> Result<Pairs<'a>, OutOfMemory>
        requires all { all.now ≡ placed_pairs trs.now.rules }
        requires kept { AreMarkedLefts (map tree kept.items) trs.now.rules }
        ensures { IfOk result (λ pairs. pairs ≡ dependency_pairs trs.now.rules) }
    {
        systems_are_valid(trs);
        placed_pairs_are_the_pairs();
        let mut sides = Vec::with_capacity(alloc, all.len())?;
        let mut numbers = Vec::with_capacity(alloc, all.len())?;
        for p in all {
            let Some(both) = sides_of(trs, p) else {
                unreachable!()
            };
            sides.push(both)?;
            numbers.push(p.rule)?;
        }
        let lefts = Lefts { numbers, kept };
        Ok(Pairs { sides, lefts })
    }

    /// How many pairs there are.
    pub fn len(&self) -> usize
        ensures { result ≡ length self.now }
    {
        self.sides.len()
    }

    /// The sides of the pairs.
    pub fn sides(&self) -> &[Sides<'a>]
        ensures { result.now ≡ self.now }
    {
        &self.sides
    }

    /// The left sides of the pairs. Pairs of one rule have one left side.
    pub(crate) fn lefts(&self) -> &Lefts
        ensures { AreLeftsOf result.now self.now }
    {
        &self.lefts
    }
}
