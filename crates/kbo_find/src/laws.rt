ghost use Rattle.kbo_find.specs.Laws.{FoundOrdersApply};

/// A law, with nothing to run: the order that is found meets the conditions of a step by a
/// Knuth-Bendix order.
pub fn found_knuth_bendix_orders_apply()
    ensures { FoundOrdersApply }
{}
