ghost use Rattle.std.specs.Prelude.{◌≡◌};
ghost use Rattle.program_edge.specs.Puts.{Puts, PutsLines};
ghost use Rattle.trsprove.specs.Lines.{order_refused_line};
ghost use Rattle.trsprove.specs.Output.{GivesVerdict};
ghost use Rattle.trsprove.specs.Answers.{status_of, text_of};

use crate::answer::Answer;
use crate::lines::accepted_line;
use io_edge::{Sink, SinkFailed};
use program_edge::{put_fields, put_lines, put_one, put_refused};

/// The line of words that ask for nothing.
const USAGE: &[u8] =
    b"usage: trsprove <action> <problem> [certificate] [--workers N] [--budget B]\n";

/// The line of a certificate that weighs too much in version 2.
const TOO_HEAVY: &[u8] = b"REJECTED too-heavy\n";

/// Puts the text of an answer.
pub(crate) fn put_answer<K: Sink>(answer: &Answer<'_>, out: &mut K) -> Result<(), SinkFailed>
    ensures puts { Puts result (K.means out.old) (text_of answer.now) (K.means out.new) }
    ensures lines { GivesVerdict (status_of answer.now) →
        PutsLines result (K.means out.old) (text_of answer.now) (K.means out.new) }
{
    match answer {
        Answer::Accepted(claim) => put_lines(out, accepted_line(*claim)),
        Answer::Answered(text) | Answer::Rejected(text) => put_lines(out, text),
        Answer::TooHeavy => put_lines(out, TOO_HEAVY),
        Answer::Usage => put_one(out, USAGE),
        Answer::Refused(fault) => put_refused(out, fault),
        Answer::OrderRefused(at) => put_order_refused(out, *at),
        Answer::Unfetched(unfetched) => unfetched.put(out),
    }
}

// Puts the line of an order text that is refused at a place.
fn put_order_refused<K: Sink>(out: &mut K, at: u32) -> Result<(), SinkFailed>
    ensures { Puts result (K.means out.old) (order_refused_line at) (K.means out.new) }
{
    put_one(out, b"order refused")?;
    put_fields(out, &[at as u64])?;
    put_one(out, b"\n")
}
