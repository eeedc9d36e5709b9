ghost use Rattle.std.specs.Prelude.{◌≡◌};
ghost use Rattle.names_text.specs.declared.names_fault.NamesFault.TheVariants.{OutOfMemory};

use std::alloc::{AllocError, AllocFailed};

/// Why names do not fit a system. Symbols and rules are counted from 0.
#[derive(Debug, Drop)]
pub enum NamesFault {
    /// There are not as many names as symbols.
    Count,
    /// The name of a symbol is no word, or that of an earlier symbol.
    BadName(u32),
    /// A side of a rule is deeper than 256.
    TooDeep(u32),
    /// The variables of a rule are not numbered in the order of their first occurrences in its left side.
    BadNumbering(u32),
    OutOfMemory,
}

impl From<AllocError> for NamesFault {
    ghost from_gives = { λ _ e. e ≡ OutOfMemory };

    fn from(_e: AllocError) -> NamesFault {
        NamesFault::OutOfMemory
    }
}

impl<T: Drop> From<AllocFailed<T>> for NamesFault {
    ghost from_gives = { λ _ e. e ≡ OutOfMemory };

    fn from(_e: AllocFailed<T>) -> NamesFault {
        NamesFault::OutOfMemory
    }
}
