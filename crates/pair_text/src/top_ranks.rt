ghost use Rattle.std.specs.Prelude.{◌≡◌, Some};
ghost use Rattle.pair_text.specs.TopRanks.{is_less, are_below, or_greater, more_ranks, with_rank};

/// The greatest rank of some entries, with a symbol that has it, and the greatest rank of other symbols.
#[derive(Clone, Copy)]
pub struct TopRanks {
    pub symbol: u32,
    pub rank: u64,
    pub other: Option<u64>,
}

/// The greatest ranks with one more entry.
pub fn with_rank(top: Option<TopRanks>, symbol: u32, rank: u64) -> Option<TopRanks>
    ensures { result ≡ with_rank top symbol rank }
{
    match top {
        Some(top) => Some(more_ranks(top, symbol, rank)),
        None => Some(TopRanks {
            symbol,
            rank,
            other: None,
        }),
    }
}

fn more_ranks(top: TopRanks, symbol: u32, rank: u64) -> TopRanks
    ensures { result ≡ more_ranks top symbol rank }
{
    if top.symbol == symbol {
        TopRanks {
            symbol: top.symbol,
            rank: top.rank.max(rank),
            other: top.other,
        }
    } else if top.rank < rank {
        TopRanks {
            symbol,
            rank,
            other: Some(top.rank),
        }
    } else {
        TopRanks {
            symbol: top.symbol,
            rank: top.rank,
            other: Some(or_greater(top.other, rank)),
        }
    }
}

fn or_greater(other: Option<u64>, rank: u64) -> u64
    ensures { or_greater other rank ≡ Some result }
{
    match other {
        Some(other) => other.max(rank),
        None => rank,
    }
}

/// Whether the ranks of all other symbols are below.
pub fn are_below(top: Option<TopRanks>, symbol: u32, rank: u64) -> bool
    ensures { result ≡ are_below top symbol rank }
{
    match top {
        Some(top) => {
            if top.symbol == symbol {
                is_less(top.other, rank)
            } else {
                top.rank < rank
            }
        }
        None => true,
    }
}

fn is_less(other: Option<u64>, rank: u64) -> bool
    ensures { result ≡ is_less other rank }
{
    match other {
        Some(other) => other < rank,
        None => true,
    }
}
