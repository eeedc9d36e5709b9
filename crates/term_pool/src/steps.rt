ghost use Rattle.std.specs.Prelude.{◌≡◌, ◌≢◌, ◌<◌, ◌≤◌, ◌+◌, length, IsTrue, IfOk, IfErr, OnOk};
ghost use Rattle.trs_defs.specs.Tree.{Tree};
ghost use Rattle.trs_defs.specs.Size.{size_of, within_limits};
ghost use Rattle.trs_defs.specs.System.{IsSystem};
ghost use Rattle.trs_defs.specs.Path.{StepsAt};
ghost use Rattle.term_pool.specs.Pooled.{Extends, tree_at};
ghost use Rattle.term_pool.specs.Answers.{GivesId};
ghost use Rattle.term_pool.specs.Steps.{IsStepFault};
ghost use Rattle.term_pool.specs.Outlines.{AreOutlines};

use crate::Pool;
use crate::outlines::Outlines;
use std::alloc::Global;
use trs_core::{ApplySize, OutOfMemory, Position, Trs, systems_are_valid};

/// Why a step is not made. The first that holds is answered.
#[derive(Clone, Copy, Debug, PartialEq, Eq)]
pub enum StepFault {
    /// The place is not a position of the term.
    NoPosition,
    /// The subterm at the place is no instance of the rule's left side.
    NoMatch,
    /// The system has no rule of this number.
    NoRule,
    /// The result would have more than 65,536 nodes, or be deeper than 1,024.
    TooLarge,
    /// There was no memory left.
    OutOfMemory,
}

impl StepFault {
    /// A step that is refused is passed over, unless memory ran out.
    pub fn unless_no_memory(self) -> Result<(), OutOfMemory>
        ensures { OnOk result (self ≢ StepFault.OutOfMemory) }
    {
        match self {
            StepFault::OutOfMemory => Err(OutOfMemory),
            _ => Ok(()),
        }
    }
}

impl From<OutOfMemory> for StepFault {
    ghost use Rattle.std.specs.Prelude.{◌≡◌};
    ghost use Rattle.term_pool.specs.declared.steps.StepFault.TheVariants as fault;

    ghost from_gives = { λ _ e. e ≡ fault.OutOfMemory };

    fn from(_e: OutOfMemory) -> StepFault {
        StepFault::OutOfMemory
    }
}

impl From<ApplySize> for StepFault {
    ghost use Rattle.std.specs.Prelude.{◌≡◌};
    ghost use Rattle.term_pool.specs.Steps.{fault_of_size};

    ghost from_gives = { λ a e. e ≡ fault_of_size a };

    fn from(e: ApplySize) -> StepFault {
        match e {
            ApplySize::TooLarge => StepFault::TooLarge,
            ApplySize::OutOfMemory => StepFault::OutOfMemory,
        }
    }
}

impl Pool {
    /// The id of the term one step from that of the given id, by the rule of this number (counted
    /// from 0) at this place. Faults are tested in this order: `NoRule`, `NoPosition`, `NoMatch`,
    /// `TooLarge`. A step costs what its rule and the way to its place have nodes, whatever the
    /// size of the term. (Baader and Nipkow, definition 3.1.8.)
    pub fn step_at(
        &mut self,
        alloc: Global,
        trs: &Trs,
        id: u32,
        place: &Position,
        rule: u32,
    ) -> Result<u32, StepFault>
        requires { id < length self.old }
        ensures step { IfOk result (λ new.
            StepsAt trs.now.rules place.now rule (tree_at self.old id) (tree_at self.new new)) }
        ensures limits { IfOk result (λ new. IsTrue (within_limits (tree_at self.new new))) }
        ensures there { IfOk result (λ new. new < length self.new) }
        ensures fault { IfErr result (
            IsStepFault trs.now.rules place.now rule (tree_at self.old id)) }

        // A step that is there is made, unless memory runs out.
        ensures only { (u : Tree) → StepsAt trs.now.rules place.now rule (tree_at self.old id) u
            → IsTrue (within_limits u) → GivesId StepFault.OutOfMemory self.new result u }

        // The ids that were there keep their terms. Where no step is made, no id is added.
        ensures kept { Extends self.old self.new }
        ensures few { IfOk result (λ new.
            length self.new ≤ length self.old + size_of (tree_at self.new new)) }
        ensures unchanged { IfErr result (λ _. self.new ≡ self.old) }
        ensures valid { IsSystem trs.now }
    {
        let none = Outlines::new(alloc);
        self.step_by(alloc, trs, &none, id, place, rule)
    }

    /// The same step. A rule with an outline costs what that has nodes.
    pub(crate) fn step_by(
        &mut self,
        alloc: Global,
        trs: &Trs,
        outlines: &Outlines,
        id: u32,
        place: &Position,
        k: u32,
    ) -> Result<u32, StepFault>
        requires there { id < length self.old }
        requires outlines { AreOutlines trs.now.rules self.old outlines.now }
        ensures step { IfOk result (λ new.
            StepsAt trs.now.rules place.now k (tree_at self.old id) (tree_at self.new new)) }
        ensures limits { IfOk result (λ new. IsTrue (within_limits (tree_at self.new new))) }
        ensures there { IfOk result (λ new. new < length self.new) }
        ensures fault { IfErr result (
            IsStepFault trs.now.rules place.now k (tree_at self.old id)) }
        ensures only { (u : Tree) → StepsAt trs.now.rules place.now k (tree_at self.old id) u
            → IsTrue (within_limits u) → GivesId StepFault.OutOfMemory self.new result u }
        ensures kept { Extends self.old self.new }
        ensures few { IfOk result (λ new.
            length self.new ≤ length self.old + size_of (tree_at self.new new)) }
        ensures unchanged { IfErr result (λ _. self.new ≡ self.old) }
        ensures valid { IsSystem trs.now }
    {
        systems_are_valid(trs);
        let Some(rule) = trs.rules().get(k as usize) else {
            return Err(StepFault::NoRule);
        };
        let outline = outlines.of_rule(rule, k);
        let Some(part) = self.at(id, place.places()) else {
            return Err(StepFault::NoPosition);
        };
        let Some(found) = self.match_over(alloc, &outline.left, part)? else {
            return Err(StepFault::NoMatch);
        };
        let mark = self.mark();
        let right = &outline.right;
        let Ok(put) = self.put_instance(alloc, id, place.places(), part, &found, right) else {
            self.release(mark);
            return Err(StepFault::OutOfMemory);
        };
        let Some(new) = put else {
            return Err(StepFault::TooLarge);
        };
        Ok(new)
    }
}
