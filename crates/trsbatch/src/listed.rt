//! The list, fetched and read, with its problems.
ghost use Rattle.std.specs.Prelude.{◌≤◌, IfOk, length};
ghost use Rattle.io_edge.specs.Shelf.{CanAskAgain};
ghost use Rattle.trsbatch.specs.Output.{most_list_bytes};
ghost use Rattle.trsbatch.specs.Problems.{TouchesOnly};
ghost use Rattle.trsbatch.specs.Answers.{IsListed, IsReadList, TouchesOnlyRead, TouchesOnlyListed};

use crate::list::{ListFault, read_list};
use crate::problem::{Problem, fetch_problems};
use io_edge::Shelf;
use program_edge::{Unfetched, name_fault};
use std::alloc::{AllocError, Global};

/// The most bytes of the text of a list.
const MOST_LIST_BYTES: u64 = 1_048_576;

/// What a list comes to.
#[derive(Drop)]
pub(crate) enum Listed<'a> {
    /// Its problems, in order.
    Problems(Vec<Problem>),
    /// A line of it is refused.
    Refused(u64),
    /// There is no list.
    Missing(Unfetched<'a>),
}

/// Fetches the list under a name, reads it, and fetches its problems.
pub(crate) fn fetch_list<'a, S: Shelf>(
    alloc: Global,
    list: &'a str,
    shelf: &mut S,
) -> Result<Listed<'a>, AllocError>
    ensures listed { IfOk result (λ l.
        IsListed list.now (S.means shelf.old) (S.means shelf.new) l) }
    ensures untouched { TouchesOnlyListed list.now (S.means shelf.old) (S.means shelf.new) }
    ensures again { CanAskAgain (S.means shelf.old) (S.means shelf.new) }
{
    match shelf.fetch(list, MOST_LIST_BYTES) {
        Ok(text) => read_and_fetch(alloc, &text, shelf),
        Err(fault) => Ok(Listed::Missing(name_fault(list, fault)?)),
    }
}

// Reads the text of a list, and fetches its problems.
fn read_and_fetch<'a, S: Shelf>(
    alloc: Global,
    text: &[u8],
    shelf: &mut S,
) -> Result<Listed<'a>, AllocError>
    requires { length text.now ≤ most_list_bytes }
    ensures read { IfOk result (λ l.
        IsReadList text.now (S.means shelf.old) (S.means shelf.new) l) }
    ensures untouched { TouchesOnlyRead text.now (S.means shelf.old) (S.means shelf.new) }
    ensures again { CanAskAgain (S.means shelf.old) (S.means shelf.new) }
{
    match read_list(alloc, text) {
        Ok(names) => Ok(Listed::Problems(fetch_problems(alloc, &names, shelf)?)),
        Err(ListFault::Line(line)) => Ok(Listed::Refused(line)),
        Err(ListFault::OutOfMemory) => Err(AllocError),
    }
}
