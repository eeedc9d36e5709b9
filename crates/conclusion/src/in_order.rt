ghost use Rattle.conclusion.specs.FoundInOrder.{FoundStepsAreInOrder};
ghost use Rattle.conclusion.specs.InOrder.{StepsApplyInOrder};

/// A law, with nothing to run: a step that applies does so with the variables of its terms numbered
/// anew, as it is read where it was printed.
pub fn steps_apply_in_order()
    ensures { StepsApplyInOrder }
{}

/// A law, with nothing to run: a step that a strategy finds starts from a term whose variables are
/// numbered in the order of their first occurrences, where it is a fork.
pub fn found_steps_are_in_order()
    ensures { FoundStepsAreInOrder }
{}
