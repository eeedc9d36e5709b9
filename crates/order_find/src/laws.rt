ghost use Rattle.order_find.specs.Laws.{FoundPlacesApply};

/// A law, with nothing to run: the places that are found meet the conditions of a step by the
/// subterm criterion.
pub fn found_places_apply()
    ensures { FoundPlacesApply }
{}
