ghost use Rattle.poly_find.specs.UsableLaws.{FoundOrdersApply};

/// A law, with nothing to run: the interpretation that is found meets the conditions of a step by a
/// linear interpretation and usable rules.
pub fn found_usable_interpretations_apply()
    ensures { FoundOrdersApply }
{}
