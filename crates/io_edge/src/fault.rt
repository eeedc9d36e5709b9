ghost use Rattle.std.specs.Prelude.{◌≡◌};
ghost use Rattle.io_edge.specs.declared.fault.FetchFault.TheVariants.{OutOfMemory as NoMemory};

use std::alloc::AllocError;

/// Why a shelf answered no text.
#[derive(Clone, Copy, Debug, PartialEq, Eq)]
pub enum FetchFault {
    /// The text has more bytes than the limit.
    TooLong,
    /// The text is not there, or could not be read.
    Failed,
    OutOfMemory,
}

impl From<AllocError> for FetchFault {
    ghost from_gives = { λ _ e. e ≡ NoMemory };

    fn from(_e: AllocError) -> FetchFault {
        FetchFault::OutOfMemory
    }
}

/// A sink did not take all of a piece.
#[derive(Clone, Copy, Debug, PartialEq, Eq)]
pub struct SinkFailed;

/// There is no memory for what was asked.
#[derive(Clone, Copy, Debug, PartialEq, Eq)]
pub struct OutOfMemory;

impl From<AllocError> for OutOfMemory {
    fn from(_e: AllocError) -> OutOfMemory {
        OutOfMemory
    }
}
