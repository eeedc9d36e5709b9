//! The problems of a list, fetched one after the other.
ghost use Rattle.std.specs.Prelude.{◌≡◌, ◌≤◌, IfOk, length, string_bytes};
ghost use Rattle.io_edge.specs.Shelf.{CanAskAgain};
ghost use Rattle.program_edge.specs.Words.{texts};
ghost use Rattle.trsbatch.specs.Problems.{IsAskedFor, Fetches, AreFetched, TouchesOnly};

use io_edge::{FetchFault, Shelf};
use program_edge::MOST_PROBLEM_BYTES;
use std::alloc::{AllocError, Global};

/// A problem of a list: its name, and its text, if it was fetched.
#[derive(Drop)]
pub(crate) struct Problem {
    pub(crate) name: String,
    pub(crate) text: Result<Vec<u8>, FetchFault>,
}

/// Fetches the problems under names, one after the other.
pub(crate) fn fetch_problems<S: Shelf>(
    alloc: Global,
    names: &[&str],
    shelf: &mut S,
) -> Result<Vec<Problem>, AllocError>
    ensures fetched { IfOk result (λ problems.
        AreFetched (S.means shelf.old) (S.means shelf.new) names.now problems.items) }
    ensures untouched { TouchesOnly (texts names.now) (S.means shelf.old) (S.means shelf.new) }
    ensures again { CanAskAgain (S.means shelf.old) (S.means shelf.new) }
{
    let mut problems = Vec::new(alloc);
    for name in names {
        let problem = fetch_problem(alloc, name, shelf)?;
        problems.push(problem)?;
    }
    Ok(problems)
}

// Fetches the problem under a name.
fn fetch_problem<S: Shelf>(alloc: Global, name: &str, shelf: &mut S) -> Result<Problem, AllocError>
    ensures name { IfOk result (λ p. string_bytes p.name ≡ name.now) }
    ensures text { IfOk result (λ p. Fetches (S.means shelf.old) (S.means shelf.new) name.now p.text) }
    ensures asked { IsAskedFor (S.means shelf.old) (S.means shelf.new) name.now }
{
    let text = shelf.fetch(name, MOST_PROBLEM_BYTES);
    Ok(Problem {
        name: String::from_str(alloc, name)?,
        text,
    })
}
