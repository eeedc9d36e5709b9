ghost use Rattle.std.specs.Prelude.{◌≡◌, ℕ};
ghost use Rattle.kbo_order.specs.Table.{weight_in, rank_in};

use crate::Kbo;

/// What gives each symbol its weight and its rank, and so compares terms as a Knuth-Bendix order
/// does. No call takes memory.
pub trait Weighting {
    /// The weight of each symbol.
    ghost weights: { Self → ℕ → ℕ };

    /// The rank of each symbol.
    ghost ranks: { Self → ℕ → ℕ };

    fn weight(&self, symbol: u32) -> u64
        ensures { result ≡ weights self.now symbol };

    fn rank(&self, symbol: u32) -> u64
        ensures { result ≡ ranks self.now symbol };
}

impl Weighting for Kbo {
    ghost weights = { λ order. weight_in order.entries.items };

    ghost ranks = { λ order. rank_in order.entries.items };

    fn weight(&self, symbol: u32) -> u64 {
        match self.entry(symbol) {
            Some(entry) => entry.weight,
            None => 0,
        }
    }

    fn rank(&self, symbol: u32) -> u64 {
        match self.entry(symbol) {
            Some(entry) => entry.rank,
            None => 0,
        }
    }
}
