//! The words of a command line, as a host gives them.
ghost use Rattle.std.specs.Prelude.{◌≡◌, map, drop, IfOk};
ghost use Rattle.std.specs.String.{string_bytes};

use std::alloc::{AllocError, Global};

/// The arguments behind the program's name.
pub fn words_of<'a>(alloc: Global, arguments: &'a [String]) -> Result<Vec<&'a str>, AllocError>
    ensures { IfOk result (λ words.
        map (λ w. w.now) words.items ≡ map string_bytes (drop 1 arguments.now)) }
{
    match arguments.split_first() {
        None => Ok(Vec::new(alloc)),
        Some((_, rest)) => texts(alloc, rest),
    }
}

fn texts<'a>(alloc: Global, strings: &'a [String]) -> Result<Vec<&'a str>, AllocError>
    ensures { IfOk result (λ texts. map (λ w. w.now) texts.items ≡ map string_bytes strings.now) }
{
    let mut texts = Vec::new(alloc);
    for string in strings {
        texts.push(string.as_str())?;
    }
    Ok(texts)
}
