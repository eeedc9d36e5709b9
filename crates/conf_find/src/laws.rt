ghost use Rattle.conf_find.specs.Laws.{FoundForksApply, FoundSplitsApply};

/// A law, with nothing to run: the forks that are found are well-made, and meet the conditions of
/// a fork.
pub fn found_forks_apply()
    ensures { FoundForksApply }
{}

/// A law, with nothing to run: so do the forks to different normal forms, with the test `Normal`.
pub fn found_splits_apply()
    ensures { FoundSplitsApply }
{}
