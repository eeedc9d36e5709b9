ghost use Rattle.lpo_find.specs.Laws.{FoundOrdersApply};

/// A law, with nothing to run: the order that is found meets the conditions of a step by a path
/// order.
pub fn found_path_orders_apply()
    ensures { FoundOrdersApply }
{}
