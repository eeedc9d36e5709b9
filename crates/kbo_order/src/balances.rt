//! By how much variables occur more often in one term than in another.
ghost use Rattle.std.specs.Prelude.{◌≡◌, ◌↔◌, ◌<◌, ◌+◌, ℕ, ℤ, List, count_by, IsTrue, ◌==◌, if◌then◌else◌};
ghost use Rattle.kbo_order.specs.Balances.{difference_at, is_deficit, IsCounted, AreEven, HaveNoDeficit};

use std::marker::Model;

/// Which of two terms.
#[derive(Clone, Copy)]
pub(crate) enum Side {
    Left,
    Right,
}

/// Of `N` variables, by how much each occurs more often on the left than on the right.
#[derive(Drop)]
pub(crate) struct Balances<const N: usize> {
    differences: [i64; N],
    /// How many variables occur more often on the right. (Löchner, Things to know when implementing
    /// KBO, 2006.)
    deficits: usize,
}

impl<const N: usize> Model for Balances<N> {
    ghost Value = { List ℤ };

    ghost view = { λ b. b.differences };

    ghost invariant = { λ b. b.deficits ≡ count_by is_deficit b.differences };
}

impl<const N: usize> Balances<N> {
    /// Each variable occurs as often on both sides.
    pub(crate) fn new() -> Balances<N>
        ensures { AreEven N result }
    {
        Balances {
            differences: [0; N],
            deficits: 0,
        }
    }

    /// The same balances.
    pub(crate) fn copy(&self) -> Balances<N>
        ensures { result ≡ self.now }
    {
        Balances {
            differences: self.differences,
            deficits: self.deficits,
        }
    }

    /// Counts an occurrence of a variable, if it is one of those from a number on.
    pub(crate) fn count(&mut self, from: u32, side: Side, x: u32)
        ensures { (i : ℕ) → i < N → IsCounted side (if x == from + i then 1 else 0)
            (difference_at self.old i) (difference_at self.new i) }
    {
        if x < from {
            return;
        }
        let place = (x - from) as usize;
        if place >= N {
            return;
        }
        let before = self.differences[place];
        match side {
            Side::Left => {
                self.differences[place] = before.saturating_add(1);
                if before == -1 {
                    self.deficits -= 1;
                }
            }
            Side::Right => {
                self.differences[place] = before.saturating_sub(1);
                if before == 0 {
                    self.deficits += 1;
                }
            }
        }
    }

    /// Whether each variable occurs at least as often on the left.
    pub(crate) fn have_no_deficit(&self) -> bool
        ensures { IsTrue result ↔ HaveNoDeficit N self.now }
    {
        self.deficits == 0
    }
}
