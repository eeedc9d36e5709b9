ghost use Rattle.std.specs.Prelude.{◌≡◌, ℕ, List};
ghost use Rattle.trs_defs.specs.Tree.{Tree};
ghost use Rattle.trs_defs.specs.System.{System, IsSystem};
ghost use Rattle.path_lpo.specs.Table.{PathEntry, filter_in};
ghost use Rattle.order_theory.specs.Keeping.{KeepsAllPlaces};
ghost use Rattle.completion.specs.GreaterBy.{GreaterBy};
ghost use Rattle.completion.specs.ReductionOrder.{IsReductionOrder};
ghost use Rattle.completion.specs.CompletionRun.{Completes};
ghost use Rattle.completion.specs.Endings.{Ending, IsRightEnding};

/// A law, with nothing to run: rules that end a run of completion are terminating, confluent, and
/// make the conversions of the equations; of a pair that ends it, which the equations convert,
/// neither side is greater. It holds for each order that is a reduction order on rules, as a path
/// order is whose filters keep all places.
pub fn completed_runs_are_right()
    ensures right { (equations : System) (order : List PathEntry) (budget : ℕ) (ending : Ending) →
        IsSystem equations → IsReductionOrder equations.arities (GreaterBy order) →
        Completes equations (GreaterBy order) budget ending →
        IsRightEnding equations (GreaterBy order) ending }
    ensures path { (arities : List ℕ) (order : List PathEntry) →
        KeepsAllPlaces arities (filter_in order) → IsReductionOrder arities (GreaterBy order) }
{}

/// A law, with nothing to run: a run of completion by a reduction order on rules has one ending.
pub fn runs_have_one_ending()
    ensures { (equations : System) (order : List PathEntry) (budget : ℕ) (one other : Ending) →
        IsSystem equations → IsReductionOrder equations.arities (GreaterBy order) →
        Completes equations (GreaterBy order) budget one →
        Completes equations (GreaterBy order) budget other → one ≡ other }
{}
