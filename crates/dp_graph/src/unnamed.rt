//! The pairs of a problem that are not named yet.
ghost use Rattle.std.specs.Prelude.{ℕ, ◌≡◌, ◌↔◌, ◌++◌, List, [], ◌∷◌, Some, false, IfOk, IfNone, IfSome, IsTrue, slice_get};
ghost use Rattle.std.specs.List.Sorted.{IsStrictlyIncreasing};
ghost use Rattle.trs_defs.specs.Member.{In};
ghost use Rattle.dp_graph.specs.GraphConditions.{none_is_missing};
ghost use Rattle.dp_graph.specs.Unnamed.{AreUnnamed, least_missing};

use std::alloc::Global;
use trs_core::OutOfMemory;

/// The pairs of a problem, and which of them are named.
#[derive(Drop)]
pub(crate) struct Unnamed {
    /// The numbers of the pairs, in order.
    numbers: Vec<u32>,
    /// For each pair, whether it is named.
    named: Vec<bool>,
    /// The place behind the pair that was named last. The next one is looked for there first, since
    /// items mostly name pairs in order.
    next: usize,
}

impl Unnamed {
    /// No pair is named.
    pub(crate) fn new(alloc: Global, problem: &[u32]) -> Result<Unnamed, OutOfMemory>
        ensures { IfOk result (AreUnnamed problem.now []) }
    {
        let mut numbers = Vec::from_slice(alloc, problem)?;
        numbers.sort_unstable();
        numbers.dedup();
        let named = vec![in alloc; false; numbers.len()]?;
        Ok(Unnamed {
            numbers,
            named,
            next: 0,
        })
    }

    /// Names a pair. Whether it is one of the problem that was not named.
    pub(crate) fn name(&mut self, n: u32) -> bool
        ensures answer { (numbers named : List ℕ) → AreUnnamed numbers named self.old →
            IsTrue result ↔ (In n numbers × (In n named → ⊥)) }
        ensures named { IsTrue result → (numbers named : List ℕ) →
            AreUnnamed numbers named self.old → AreUnnamed numbers (named ++ n ∷ []) self.new }
    {
        let Some(place) = self.place(n) else {
            return false;
        };
        if !self.is_unnamed(place) {
            return false;
        }
        self.named[place] = true;
        self.next = place + 1;
        true
    }

    /// The least pair that is not named.
    pub(crate) fn least(&self) -> Option<u32>
        ensures { (numbers named : List ℕ) → AreUnnamed numbers named self.now →
            none_is_missing numbers named (least_missing result) }
    {
        for (k, n) in self.numbers.iter().enumerate() {
            if self.is_unnamed(k) {
                return Some(*n);
            }
        }
        None
    }

    /// The place of a pair.
    fn place(&self, n: u32) -> Option<usize>
        ensures there { IfSome result (λ k. slice_get self.now.numbers.items k ≡ Some n) }
        ensures none { IfNone result
            (IsStrictlyIncreasing self.now.numbers.items → In n self.now.numbers.items → ⊥) }
    {
        if self.is_next(n) {
            return Some(self.next);
        }
        self.numbers.binary_search(&n).ok()
    }

    /// Whether a pair is behind the one that was named last.
    fn is_next(&self, n: u32) -> bool
        ensures { IsTrue result → slice_get self.now.numbers.items self.now.next ≡ Some n }
    {
        match self.numbers.get(self.next) {
            Some(next) => *next == n,
            None => false,
        }
    }

    /// Whether the pair at a place is not named.
    fn is_unnamed(&self, place: usize) -> bool
        ensures { IsTrue result ↔ (slice_get self.now.named.items place ≡ Some false) }
    {
        match self.named.get(place) {
            Some(named) => !*named,
            None => false,
        }
    }
}
