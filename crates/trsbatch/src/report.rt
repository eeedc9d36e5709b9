ghost use Rattle.std.specs.Prelude.{◌≡◌};
ghost use Rattle.io_edge.specs.Sink.{NoSinkCountFell};
ghost use Rattle.program_edge.specs.declared.status.Status.TheVariants.{Answered};
ghost use Rattle.program_edge.specs.Puts.{Puts, PutsLines};
ghost use Rattle.trsbatch.specs.Lines.{list_refused_line};
ghost use Rattle.trsbatch.specs.Answers.{status_of, text_of, IsWritten};

use crate::answer::Answer;
use io_edge::{Sink, SinkFailed};
use program_edge::{Status, put_fields, put_lines, put_one};

/// The line of words that ask for nothing.
const USAGE: &[u8] = b"usage: trsbatch <action> <list> [--workers N] [--budget B]\n";

/// Writes the text of an answer, and answers its status.
pub(crate) fn write_answer<K: Sink>(answer: &Answer<'_>, out: &mut K) -> Status
    ensures written { IsWritten (status_of answer.now) (text_of answer.now)
        (K.means out.old) (K.means out.new) result }
    ensures counts { NoSinkCountFell (K.means out.old) (K.means out.new) }
{
    match put_answer(answer, out) {
        Ok(()) => answer.status(),
        Err(SinkFailed) => Status::WriteFault,
    }
}

// Puts the text of an answer.
fn put_answer<K: Sink>(answer: &Answer<'_>, out: &mut K) -> Result<(), SinkFailed>
    ensures puts { Puts result (K.means out.old) (text_of answer.now) (K.means out.new) }
    ensures lines { status_of answer.now ≡ Answered →
        PutsLines result (K.means out.old) (text_of answer.now) (K.means out.new) }
{
    match answer {
        Answer::Blocks(text) => put_lines(out, text),
        Answer::Usage => put_one(out, USAGE),
        Answer::Refused(line) => put_list_refused(out, *line),
        Answer::Missing(unfetched) => unfetched.put(out),
    }
}

// Puts the line of a list that is refused at a line of it.
fn put_list_refused<K: Sink>(out: &mut K, line: u64) -> Result<(), SinkFailed>
    ensures { Puts result (K.means out.old) (list_refused_line line) (K.means out.new) }
{
    put_one(out, b"list refused")?;
    put_fields(out, &[line])?;
    put_one(out, b"\n")
}
