ghost use Rattle.poly_find.specs.Laws.{FoundOrdersApply};
ghost use Rattle.poly_find.specs.PolyLawful.{poly_lawful};

/// A law, with nothing to run: the interpretation that is found meets the conditions of a step by a
/// linear interpretation.
pub fn found_interpretations_apply()
    ensures { FoundOrdersApply }
{}
