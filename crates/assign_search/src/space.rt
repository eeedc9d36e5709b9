ghost use Rattle.std.specs.Prelude.{◌≡◌, ℕ, ◌<◌, ◌≤◌, IfOk};
ghost use Rattle.assign_search.specs.Puzzle.{Puzzle, Covers, IsLawful};
ghost use Rattle.assign_search.specs.Rest.{reach};

use crate::memory::OutOfMemory;
use std::alloc::Global;

/// Slots, each with a domain of values from 0, and constraints on those values. Slots and
/// constraints are numbered from 0.
pub trait Space {
    ghost puzzle: { Self → Puzzle };

    fn slots(&self) -> u32
        ensures { result ≡ (puzzle self.now).slots };

    /// How many values a slot has: 0 up to this, without it.
    fn domain(&self, slot: u32) -> u32
        requires { slot < (puzzle self.now).slots }
        ensures { result ≡ (puzzle self.now).domain slot };

    fn constraints(&self) -> u32
        ensures { result ≡ (puzzle self.now).constraints };

    /// Whether the truth of constraint `c` depends on the value of `slot`.
    fn uses(&self, c: u32, slot: u32) -> bool
        requires constraint { c < (puzzle self.now).constraints }
        requires slot { slot < (puzzle self.now).slots }
        ensures { result ≡ (puzzle self.now).uses c slot };

    /// One more than the last slot that constraint `c` uses, or 0 where it uses none.
    #[tactic(auto, unfolding(crate::specs::Rest::reach))]
    fn reach(&self, c: u32) -> u32
        requires { c < (puzzle self.now).constraints }
        ensures { result ≡ reach (puzzle self.now) c }
    {
        let mut end = self.slots();
        while end > 0 {
            if self.uses(c, end - 1) {
                return end;
            }
            end -= 1;
        }
        0
    }

    /// Whether constraint `c` is true of the values, which cover the slots that it uses.
    fn holds(&self, alloc: Global, c: u32, values: &[u32]) -> Result<bool, OutOfMemory>
        requires constraint { c < (puzzle self.now).constraints }
        requires covers { Covers (puzzle self.now) c values.now }
        ensures { IfOk result (λ truth. truth ≡ (puzzle self.now).truth c values.now) };

    ghost lawful: { (x : Self) → IsLawful (puzzle x) };
}
