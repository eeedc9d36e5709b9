ghost use Rattle.std.specs.Prelude.{ℕ, List};
ghost use Rattle.trs_defs.specs.Member.{In};
ghost use Rattle.trs_defs.specs.Tree.{Tree};
ghost use Rattle.trs_defs.specs.WellFormed.{IsWellFormed};
ghost use Rattle.trs_defs.specs.Step.{Inside};
ghost use Rattle.trs_defs.specs.System.{RewriteRule, System};
ghost use Rattle.trs_defs.specs.Claims.{IsTerminating};
ghost use Rattle.order_theory.specs.ArgumentFilter.{PathStrict, PathWeak};
ghost use Rattle.order_theory.specs.Keeping.{KeepsAllPlaces};
ghost use Rattle.order_theory.specs.MovesInContexts.{IsWellFoundedInContexts};
ghost use Rattle.path_lpo.specs.Table.{PathEntry, rank_in, filter_in};

/// An order whose table keeps all places is a reduction order on the terms of the arity table
/// (Baader and Nipkow, section 5.4): strict is closed under contexts, and strict moves have a bound
/// in any context too. So a system whose rules go down strictly terminates.
pub fn full_tables_are_reduction_orders()
    ensures context { (arities : List ℕ) (order : List PathEntry) →
        KeepsAllPlaces arities (filter_in order) → (s t : Tree) →
        IsWellFormed arities s → IsWellFormed arities t →
        Inside (PathStrict (rank_in order) (filter_in order)) s t →
        PathStrict (rank_in order) (filter_in order) s t }
    ensures bound { (arities : List ℕ) (order : List PathEntry) →
        KeepsAllPlaces arities (filter_in order) →
        IsWellFoundedInContexts (PathWeak (rank_in order) (filter_in order))
        (PathStrict (rank_in order) (filter_in order)) (IsWellFormed arities) }
    ensures terminating { (system : System) (order : List PathEntry) →
        KeepsAllPlaces system.arities (filter_in order) →
        ((r : RewriteRule) → In r system.rules → IsWellFormed system.arities r.left
        × IsWellFormed system.arities r.right
        × PathStrict (rank_in order) (filter_in order) r.left r.right) →
        IsTerminating system }
{}
