ghost use Rattle.loop_find.specs.Laws.{FoundLoopsAreLoops};

/// A law, with nothing to run: the loop that is found meets the conditions of a loop as a step of a
/// proof.
pub fn found_loops_are_loops()
    ensures { FoundLoopsAreLoops }
{}
