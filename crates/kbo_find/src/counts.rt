//! How often each symbol occurs in a term.
ghost use Rattle.std.specs.Prelude.{◌≡◌, ◌<◌, ◌+◌, ◌-◌, ◌^◌, ℕ, min, sum_by, length, IfOk, OnOk};
ghost use Rattle.kbo_find.specs.Counted.{total, total_of};

use crate::occurrences::Occurrences;
use kbo_order::Weighting;
use std::alloc::Global;
use trs_core::OutOfMemory;

/// A symbol, and how often it occurs.
#[derive(Clone, Copy)]
pub(crate) struct Count {
    pub(crate) symbol: u32,
    pub(crate) times: u64,
}

/// How often symbols occur in a term, and variables together.
#[derive(Drop)]
pub(crate) struct Counts {
    pub(crate) symbols: Vec<Count>,
    pub(crate) variables: u64,
}

impl Counts {
    /// Each symbol of some occurrences, with how often it is there.
    pub(crate) fn of(alloc: Global, occurrences: &Occurrences) -> Result<Counts, OutOfMemory>
        ensures { IfOk result (λ counts. (weight : ℕ → ℕ) → total weight counts
            ≡ length occurrences.now.variables.items
            + sum_by weight occurrences.now.symbols.items) }
    {
        let symbols = group(alloc, &occurrences.symbols)?;
        let variables = occurrences.variables.len() as u64;
        Ok(Counts { symbols, variables })
    }

    /// What they weigh together, or the last `u64` where that is more.
    pub(crate) fn weight<W: Weighting>(&self, order: &W) -> u64
        ensures { result ≡ min (total (W.weights order.now) self.now) (2 ^ 64 - 1) }
    {
        let mut sum = self.variables;
        for count in &self.symbols {
            let more = count.times.saturating_mul(order.weight(count.symbol));
            sum = sum.saturating_add(more);
        }
        sum
    }
}

/// Numbers with how often each stands there; equal ones that are apart are counted apart.
fn group(alloc: Global, symbols: &[u32]) -> Result<Vec<Count>, OutOfMemory>
    ensures { IfOk result (λ counts. (weight : ℕ → ℕ) →
        total_of weight counts.items ≡ sum_by weight symbols.now) }
{
    let mut counts = Vec::new(alloc);
    for symbol in symbols {
        count_one(&mut counts, *symbol)?;
    }
    Ok(counts)
}

fn count_one(counts: &mut Vec<Count>, symbol: u32) -> Result<(), OutOfMemory>
    requires few { total_of (λ _. 1) counts.old.items < 2 ^ 64 - 1 }
    ensures { OnOk result ((weight : ℕ → ℕ) →
        total_of weight counts.new.items ≡ total_of weight counts.old.items + weight symbol) }
{
    let len = counts.len();
    if len > 0 && counts[len - 1].symbol == symbol {
        counts[len - 1].times += 1;
        return Ok(());
    }
    counts.push(Count { symbol, times: 1 })?;
    Ok(())
}
