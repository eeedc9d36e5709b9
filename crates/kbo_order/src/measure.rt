ghost use Rattle.std.specs.Prelude.{◌≡◌, ◌↔◌, ◌+◌, ℕ, IsTrue};
ghost use Rattle.kbo_order.specs.Seen.{IsSum, AreSums, Outweighs, IsAbove};

use crate::balances::Balances;
use pair_order::TooBig;
use trs_core::GREATEST_NUMBER;

/// The weights of two terms.
#[derive(Clone, Copy)]
pub(crate) struct Weights {
    pub left: u64,
    pub right: u64,
}

/// What some variables see of two terms: their weights, whether they are the same, and whether the
/// first is greater, if only the occurrences of these variables count.
#[derive(Clone, Copy)]
pub(crate) struct Seen {
    pub weights: Weights,
    pub same: bool,
    pub greater: bool,
}

impl Weights {
    pub(crate) fn plus(self, other: Weights) -> Result<Weights, TooBig>
        ensures { AreSums self other result }
    {
        let left = plus(self.left, other.left)?;
        let right = plus(self.right, other.right)?;
        Ok(Weights { left, right })
    }

    /// Whether a term of the left weight and with these balances is greater than the other, where
    /// `rest` decides between those of one weight.
    pub(crate) fn are_above<const N: usize>(self, rest: bool, balances: &Balances<N>) -> bool
        ensures { IsTrue result
            ↔ IsAbove self.left self.right (IsTrue rest) N balances.now }
    {
        outweighs(self.left, self.right, rest) && balances.have_no_deficit()
    }
}

/// The sum of two weights.
pub(crate) fn plus(a: u64, b: u64) -> Result<u64, TooBig>
    ensures { IsSum a b result }
{
    let sum = u128::from(a) + u128::from(b);
    if sum > u128::from(GREATEST_NUMBER) {
        return Err(TooBig);
    }
    Ok(sum as u64)
}

fn outweighs(weight: u64, other: u64, rest: bool) -> bool
    ensures { IsTrue result ↔ Outweighs weight other (IsTrue rest) }
{
    if weight == other {
        return rest;
    }
    other < weight
}
