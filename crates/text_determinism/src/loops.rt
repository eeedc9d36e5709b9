//! A system has at most one first loop within a budget, but for the numbers of variables.

ghost use Rattle.text_determinism.specs.LoopLaws.{LoopsAreOne, LoopAnswersExclude};

/// A law, with nothing to run: two loops that the search finds within a budget begin with the same
/// term, but for the numbers of its variables, and have one path and one place.
pub fn loops_are_one()
    ensures { LoopsAreOne }
{}

/// A law, with nothing to run: at most one of the three answers of the search is true: that a loop
/// is found, that there is none, or that the budget was spent.
pub fn loop_answers_exclude()
    ensures { LoopAnswersExclude }
{}
