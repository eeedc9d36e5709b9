//! A strategy has at most one answer to a problem within a budget, but for the numbers of the
//! variables of a loop.

ghost use Rattle.text_determinism.specs.AnswerLaws.{AnswersAreOne};

use crate::{loop_answers_exclude, loops_are_one};

/// A law, with nothing to run: two true answers of a strategy to a problem within a budget are the
/// same.
pub fn answers_are_one()
    ensures { AnswersAreOne }
{
    loops_are_one();
    loop_answers_exclude();
}
