ghost use Rattle.join_find.specs.Laws.{FoundJoinsJoin, FoundFoursJoin, FoundStepsClose};

/// A law, with nothing to run: the joins that are found meet the conditions of joined peaks.
pub fn found_joins_join()
    ensures { FoundJoinsJoin }
{}

/// A law, with nothing to run: the strong joins that are found meet the conditions of strongly
/// joined peaks.
pub fn found_fours_join()
    ensures { FoundFoursJoin }
{}

/// A law, with nothing to run: the parallel steps that are found meet the conditions of peaks that
/// are closed by parallel steps.
pub fn found_steps_close()
    ensures { FoundStepsClose }
{}
