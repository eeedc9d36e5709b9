//! The lines that name a fault. They are put in pieces, which takes no memory.
ghost use Rattle.std.specs.Prelude.{◌≡◌, ◌++◌, ◌∷◌, []};
ghost use Rattle.program_edge.specs.Puts.{Puts};
ghost use Rattle.program_edge.specs.Numbers.{fields_text};
ghost use Rattle.program_edge.specs.Lines.{problem_fields, refused_line, read_fault_line, too_long_line};

use crate::pieces::{put_fields, put_line, put_one};
use ari_text::AriFault;
use io_edge::{Sink, SinkFailed};

/// Puts the line of a problem text that has no system: the number of its fault, that of a fault of
/// its bytes, and the place, where it has one.
pub fn put_refused<K: Sink>(out: &mut K, fault: &AriFault) -> Result<(), SinkFailed>
    ensures { Puts result (K.means out.old) (refused_line fault.now) (K.means out.new) }
{
    put_one(out, b"problem refused")?;
    put_fault(out, fault)?;
    put_one(out, b"\n")
}

// Puts the numbers of a fault.
fn put_fault<K: Sink>(out: &mut K, fault: &AriFault) -> Result<(), SinkFailed>
    ensures { Puts result (K.means out.old) (fields_text (problem_fields fault.now))
        (K.means out.new) }
{
    let number = fault.number() as u64;
    match (fault.text_number(), fault.place()) {
        (Some(kind), Some(at)) => put_fields(out, &[number, kind as u64, at as u64]),
        (None, Some(at)) => put_fields(out, &[number, at as u64]),
        (Some(kind), None) => put_fields(out, &[number, kind as u64]),
        (None, None) => put_fields(out, &[number]),
    }
}

/// Puts the line of a text that could not be fetched.
pub(crate) fn put_read_fault<K: Sink>(out: &mut K, name: &str) -> Result<(), SinkFailed>
    ensures { Puts result (K.means out.old) (read_fault_line name.now) (K.means out.new) }
{
    put_line(out, b"read fault ", name)
}

/// Puts the line of a text that is too long.
pub(crate) fn put_too_long<K: Sink>(out: &mut K, name: &str) -> Result<(), SinkFailed>
    ensures { Puts result (K.means out.old) (too_long_line name.now) (K.means out.new) }
{
    put_line(out, b"too long ", name)
}
