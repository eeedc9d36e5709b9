ghost use Rattle.std.specs.Prelude.{◌≡◌, ◌≤◌, length};
ghost use Rattle.trsbatch.specs.ListText.{most_names};
ghost use Rattle.trsbatch.specs.ListAnswers.{AnswersList, TakesLine, texts};
ghost use Rattle.trsbatch.specs.declared.list.ListFault.TheVariants.{OutOfMemory as NoMemory};

use crate::list_lines::{first_line, text_on};
use std::alloc::{AllocError, AllocFailed, Global};

/// The most names of a list.
pub const MOST_NAMES: usize = 256;

/// Why the text of a list was not read.
#[derive(Clone, Copy, Debug, PartialEq, Eq)]
pub enum ListFault {
    /// The line of this number, from 0, is the first that is refused: it is not UTF-8, has a control
    /// byte (a tab is one), or has one name too many.
    Line(u64),
    OutOfMemory,
}

impl From<AllocError> for ListFault {
    ghost from_gives = { λ _ e. e ≡ NoMemory };

    fn from(_e: AllocError) -> ListFault {
        ListFault::OutOfMemory
    }
}

impl<T: Drop> From<AllocFailed<T>> for ListFault {
    ghost from_gives = { λ _ e. e ≡ NoMemory };

    fn from(_e: AllocFailed<T>) -> ListFault {
        ListFault::OutOfMemory
    }
}

/// The names that the text of a list says, in order, of which there are at most 256. Empty lines are
/// passed over, and one carriage return at a line's end is dropped.
pub fn read_list<'a>(alloc: Global, text: &'a [u8]) -> Result<Vec<&'a str>, ListFault>
    ensures { AnswersList result text.now }
{
    let mut names = Vec::new(alloc);
    let mut left = Some(text);
    let mut number = 0;
    while let Some(rest) = left {
        let (line, behind) = first_line(rest);
        match take_line(&mut names, line, number) {
            Ok(()) => {}
            Err(fault) => return Err(fault),
        }
        number += 1;
        left = behind;
    }
    Ok(names)
}

// Takes the name on a line, if there is one.
fn take_line<'a>(names: &mut Vec<&'a str>, line: &'a [u8], number: u64) -> Result<(), ListFault>
    requires { length names.old.items ≤ most_names }
    ensures { TakesLine result line.now number (texts names.old) (texts names.new) }
{
    let Some(name) = text_on(line) else {
        return Err(ListFault::Line(number));
    };
    if name.is_empty() {
        return Ok(());
    }
    if names.len() == MOST_NAMES {
        return Err(ListFault::Line(number));
    }
    names.push(name)?;
    Ok(())
}
