//! Lines of a text.
ghost use Rattle.std.specs.Prelude.{◌≡◌, true, false, IsNone, IfSome};
ghost use Rattle.std.specs.List.{All};
ghost use Rattle.trsbatch.specs.ListText.{bare, IsPlain, IsGoodLine};
ghost use Rattle.trsbatch.specs.Cutting.{IsCut};

/// The first line of a text, and what stands behind its line feed, if it has one.
pub(crate) fn first_line(text: &[u8]) -> (&[u8], Option<&[u8]>)
    ensures { IsCut text.now result.0.now result.1 }
{
    for (i, byte) in text.iter().enumerate() {
        if *byte == b'\n' {
            return (&text[..i], Some(&text[i + 1..]));
        }
    }
    (text, None)
}

// A line without the carriage return at its end.
#[tactic(auto, using(crate::proofs::BareLines::bare_none, crate::proofs::BareLines::bare_return, crate::proofs::BareLines::bare_kept))]
fn bare(line: &[u8]) -> &[u8]
    ensures { result.now ≡ bare line.now }
{
    let Some((last, front)) = line.split_last() else {
        return line;
    };
    if *last == b'\r' { front } else { line }
}

// Whether no byte is a control byte.
fn are_plain(bytes: &[u8]) -> bool
    ensures yes { result ≡ true → All IsPlain bytes.now }
    ensures no { result ≡ false → All IsPlain bytes.now → ⊥ }
{
    for byte in bytes {
        if *byte < 32 || *byte == 127 {
            return false;
        }
    }
    true
}

/// What stands on a line, where that is text without control bytes.
pub(crate) fn text_on(line: &[u8]) -> Option<&str>
    ensures good { IfSome result (λ t. (t.now ≡ bare line.now) × IsGoodLine line.now) }
    ensures bad { IsNone result → IsGoodLine line.now → ⊥ }
{
    let line = bare(line);
    if are_plain(line) {
        str::from_utf8(line).ok()
    } else {
        None
    }
}
