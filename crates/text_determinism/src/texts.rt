//! With one worker a question has one text: the serial history, and what is read off the state to
//! which it leads, depend on the system, the question and the budget alone.

ghost use Rattle.text_determinism.specs.TextLaws.{SerialTextsAreOne, ProblemTextsHaveOneText};
ghost use Rattle.text_determinism.specs.TextLaws.{SampleLinesAreOne};

use crate::answers_are_one;
use ari_text::one_system;

/// A law, with nothing to run: two texts that one worker finds for a question about a system within
/// a budget are the same.
pub fn serial_texts_are_one()
    ensures { SerialTextsAreOne }
{
    answers_are_one();
}

/// A law, with nothing to run: so the text is a function of the problem's text, the question and the
/// budget.
pub fn problem_texts_have_one_text()
    ensures { ProblemTextsHaveOneText }
{
    serial_texts_are_one();
    one_system();
}

/// A law, with nothing to run: two lines of one sample system, of at most 512 functions, within a
/// budget are the same.
pub fn sample_lines_are_one()
    ensures { SampleLinesAreOne }
{
    answers_are_one();
}
