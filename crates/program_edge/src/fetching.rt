//! Texts that are fetched, and what is said of one that is not.
ghost use Rattle.std.specs.Prelude.{◌≡◌, IfOk};
ghost use Rattle.program_edge.specs.Puts.{Puts};
ghost use Rattle.program_edge.specs.Fetching.{IsUnfetched, unfetched_status, unfetched_line};

use crate::lines::{put_read_fault, put_too_long};
use crate::status::Status;
use io_edge::{FetchFault, Sink, SinkFailed};
use std::alloc::AllocError;

/// The most bytes of a problem text.
pub const MOST_PROBLEM_BYTES: u64 = 1_048_576;

/// Why there is no text under a name.
#[derive(Clone, Copy, Debug, PartialEq, Eq)]
pub enum Unfetched<'a> {
    /// It could not be fetched.
    ReadFault(&'a str),
    /// It is too long.
    TooLong(&'a str),
}

impl<'a> Unfetched<'a> {
    pub fn status(&self) -> Status
        ensures { result ≡ unfetched_status self.now }
    {
        match self {
            Unfetched::ReadFault(_) => Status::ReadFault,
            Unfetched::TooLong(_) => Status::TooLong,
        }
    }

    /// Puts the line that names it.
    pub fn put<K: Sink>(&self, out: &mut K) -> Result<(), SinkFailed>
        ensures { Puts result (K.means out.old) (unfetched_line self.now) (K.means out.new) }
    {
        match self {
            Unfetched::ReadFault(name) => put_read_fault(out, name),
            Unfetched::TooLong(name) => put_too_long(out, name),
        }
    }
}

/// What is said of the text under a name that a shelf did not answer. Only want of memory has no
/// line.
pub fn name_fault<'a>(name: &'a str, fault: FetchFault) -> Result<Unfetched<'a>, AllocError>
    ensures { IfOk result (λ u.
        IsUnfetched fault name.now (unfetched_status u) (unfetched_line u)) }
{
    match fault {
        FetchFault::TooLong => Ok(Unfetched::TooLong(name)),
        FetchFault::Failed => Ok(Unfetched::ReadFault(name)),
        FetchFault::OutOfMemory => Err(AllocError),
    }
}
