//! The stops of the tests, all of one type, so that each finder is made once; and what a search says.
use assign_search::Search;
use finder_cases::StopAt;
use trs_core::OutOfMemory;

/// A budget that no search of these tests spends.
pub const BUDGET: u64 = 20_000;

/// A stop that never comes.
pub fn never() -> StopAt {
    StopAt {
        left: u64::MAX,
        stops: 0,
    }
}

/// A stop at the first asking.
pub fn at_once() -> StopAt {
    StopAt { left: 0, stops: 0 }
}

/// What a search says, but for what it found.
#[derive(Clone, Copy)]
pub enum Ending {
    Found,
    NotThere,
    Spent,
    Stopped,
}

pub fn ending_of<T: Drop>(answer: Result<Search<T>, OutOfMemory>) -> Result<Ending, OutOfMemory> {
    Ok(match answer? {
        Search::Found(_) => Ending::Found,
        Search::NotThere => Ending::NotThere,
        Search::Spent => Ending::Spent,
        Search::Stopped => Ending::Stopped,
    })
}
