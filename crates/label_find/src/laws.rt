ghost use Rattle.label_find.specs.Laws.{FoundLabelsApply};

/// A law, with nothing to run: the ranks that are found are those of a well-made step, and meet with
/// their paths the conditions of decreasing peaks.
pub fn found_labels_apply()
    ensures { FoundLabelsApply }
{}
