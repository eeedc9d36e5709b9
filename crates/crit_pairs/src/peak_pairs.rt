//! The sides of critical peaks as pairs of ids.
use crate::Peak;
use crate::table::PeakPair;
use rewrite_core::BuiltTop;
use std::alloc::Global;
use term_pool::Pool;
use trs_core::OutOfMemory;

/// The sides of peaks as ids in one pool, by the numbers of the peaks.
#[derive(Drop)]
pub struct PeakPairs {
    pub(crate) pool: Pool,
    pub(crate) pairs: Vec<PeakPair>,
}

impl PeakPairs {
    ghost use Rattle.std.specs.Prelude.{◌≡◌, ◌<◌, List, Some, IfOk, length, slice_get};
    ghost use Rattle.rewrite_core.specs.PlacedPeak.{PlacedPeak};
    ghost use Rattle.crit_pairs.specs.Table.{IsPair};
    ghost use Rattle.crit_pairs.specs.PeakPairs.{HoldPairsOf};

    /// The sides of peaks that are built.
    pub fn of<T: BuiltTop>(alloc: Global, peaks: &[Peak<T>]) -> Result<PeakPairs, OutOfMemory>
        ensures { IfOk result (λ pairs. HoldPairsOf pairs peaks.now) }
    {
        let mut pool = Pool::new(alloc);
        let mut pairs = Vec::with_capacity(alloc, peaks.len())?;
        for peak in peaks {
            let left = pool.intern(alloc, T::term(&peak.left))?;
            let right = pool.intern(alloc, T::term(&peak.right))?;
            pairs.push(PeakPair { left, right })?;
        }
        Ok(PeakPairs { pool, pairs })
    }

    /// The sides of peak number `n`, counted from 0.
    pub fn pair(&self, n: usize) -> PeakPair
        requires { n < length self.now.pairs.items }
        ensures { (peaks : List PlacedPeak) (p : PlacedPeak) → HoldPairsOf self.now peaks
            → slice_get peaks n ≡ Some p → IsPair self.now.pool result p }
    {
        self.pairs[n]
    }

    /// The pool in which they stand.
    pub fn pool(&self) -> &Pool
        ensures { result.now ≡ self.now.pool }
    {
        &self.pool
    }
}
