ghost use Rattle.std.specs.Prelude.{◌≡◌, ◌++◌, ◌∷◌, [], decimal, IfSome, IsNone};
ghost use Rattle.program_edge.specs.Puts.{Puts, PutsOne, PutsLines};
ghost use Rattle.program_edge.specs.LinePuts.{IsFirstLine};
ghost use Rattle.program_edge.specs.Numbers.{fields_text};

use io_edge::{Sink, SinkFailed};
use itoa::Buffer;

/// Puts one piece.
pub fn put_one<K: Sink>(out: &mut K, piece: &[u8]) -> Result<(), SinkFailed>
    ensures puts { Puts result (K.means out.old) piece.now (K.means out.new) }
    ensures one { PutsOne result (K.means out.old) piece.now (K.means out.new) }
{
    out.put(piece)
}

/// Puts the lines of a text, one after the other: it is split behind each line feed.
pub fn put_lines<K: Sink>(out: &mut K, text: &[u8]) -> Result<(), SinkFailed>
    ensures puts { Puts result (K.means out.old) text.now (K.means out.new) }
    ensures lines { PutsLines result (K.means out.old) text.now (K.means out.new) }
{
    let mut rest = text;
    while let Some((line, behind)) = first_line(rest) {
        put_one(out, line)?;
        rest = behind;
    }
    Ok(())
}

// The first line of a text that is not empty, and what stands behind it.
fn first_line(text: &[u8]) -> Option<(&[u8], &[u8])>
    ensures some { IfSome result (λ p. IsFirstLine text.now p.0.now p.1.now) }
    ensures none { IsNone result → text.now ≡ [] }
{
    for (i, byte) in text.iter().enumerate() {
        if *byte == b'\n' {
            return Some(text.split_at(i + 1));
        }
    }
    if text.is_empty() {
        return None;
    }
    Some((text, &[]))
}

// Puts two pieces, one behind the other.
fn put_both<K: Sink>(out: &mut K, first: &[u8], second: &[u8]) -> Result<(), SinkFailed>
    ensures { Puts result (K.means out.old) (first.now ++ second.now) (K.means out.new) }
{
    put_one(out, first)?;
    put_one(out, second)
}

/// Puts words, a name and a line feed.
pub(crate) fn put_line<K: Sink>(out: &mut K, words: &[u8], name: &str) -> Result<(), SinkFailed>
    ensures { Puts result (K.means out.old) (words.now ++ (name.now ++ 10 ∷ []))
        (K.means out.new) }
{
    put_one(out, words)?;
    put_both(out, name.as_bytes(), b"\n")
}

// Puts a blank and a number.
fn put_number<K: Sink>(out: &mut K, number: u64) -> Result<(), SinkFailed>
    ensures { Puts result (K.means out.old) (32 ∷ decimal number) (K.means out.new) }
{
    let mut buffer = Buffer::new();
    put_both(out, b" ", buffer.format(number).as_bytes())
}

/// Puts numbers, with a blank before each.
pub fn put_fields<K: Sink>(out: &mut K, fields: &[u64]) -> Result<(), SinkFailed>
    ensures { Puts result (K.means out.old) (fields_text fields.now) (K.means out.new) }
{
    match fields.split_first() {
        None => Ok(()),
        Some((number, rest)) => {
            put_number(out, *number)?;
            put_fields(out, rest)
        }
    }
}
