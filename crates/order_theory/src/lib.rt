//! Orders for termination: the lexicographic path order, linear interpretations and the
//! Knuth-Bendix order; and usable rules. Each function is a theorem: its contract is the statement, and it does
//! nothing.
#![tactic(auto)]

mod usable_removal;

ghost use Rattle.std.specs.Prelude.{◌≡◌, ◌≤◌, Some, ℕ, List, Option, ◌⊎◌, ◌↔◌, IsTrue, length};
ghost use Rattle.trs_defs.specs.Member.{In};
ghost use Rattle.trs_defs.specs.Tree.{Tree};
ghost use Rattle.trs_defs.specs.System.{RewriteRule, System, IsSystem};
ghost use Rattle.trs_defs.specs.WellFormed.{IsWellFormed};
ghost use Rattle.trs_defs.specs.Step.{Inside};
ghost use Rattle.trs_defs.specs.Claims.{IsTerminating};
ghost use Rattle.pair_theory.specs.Marked.{mark};
ghost use Rattle.pair_theory.specs.DependencyPair.{DependencyPair};
ghost use Rattle.pair_theory.specs.PairProblem.{IsFiniteProblem, IsPair};
ghost use Rattle.pair_theory.specs.ReductionPair.{ReductionPair, Speaks, AllTerms};
ghost use Rattle.order_theory.specs.PathOrder.{PathGreater};
ghost use Rattle.order_theory.specs.PathTest.{path_greater};
ghost use Rattle.order_theory.specs.ArgumentFilter.{ArgumentFilter, PathStrict, PathWeak};
ghost use Rattle.order_theory.specs.Keeping.{KeepsAllPlaces};
ghost use Rattle.order_theory.specs.MovesInContexts.{IsWellFoundedInContexts};
ghost use Rattle.order_theory.specs.LinearInterpretation.{LinearWeak, LinearStrict, CoefficientWeak, CoefficientStrict};
ghost use Rattle.order_theory.specs.KnuthBendix.{KnuthGreater, KnuthWeak, arity_with_marks, IsAdmissible};
ghost use Rattle.pair_theory.specs.Over.{IsOver};

pub use usable_removal::{remove_by_usable_interpretation, remove_by_usable_rules, usable_symbols};

/// The lexicographic path order with argument filters is a reduction pair on all terms (Kamin and
/// Lévy; Baader and Nipkow, section 5.4; well-foundedness as in Buchholz, Proof-theoretic analysis
/// of termination proofs, 1995), and its test decides it.
pub fn path_order_laws()
    ensures pair { (rank : ℕ → ℕ) (filter : ℕ → ArgumentFilter) →
        ReductionPair (PathWeak rank filter) (PathStrict rank filter) AllTerms }
    ensures test { (rank : ℕ → ℕ) (s t : Tree) →
        IsTrue (path_greater rank s t) ↔ PathGreater rank s t }
{}

/// Where the filters keep all places, the path order is a reduction order on the terms of the arity
/// table (Kamin and Lévy; Baader and Nipkow, section 5.4): strict is closed under contexts, and
/// strict moves have a bound in any context too. So a system whose rules go down strictly terminates.
pub fn keeping_path_order_laws()
    ensures context { (arities : List ℕ) (rank : ℕ → ℕ) (filter : ℕ → ArgumentFilter) →
        KeepsAllPlaces arities filter → (s t : Tree) →
        IsWellFormed arities s → IsWellFormed arities t →
        Inside (PathStrict rank filter) s t → PathStrict rank filter s t }
    ensures bound { (arities : List ℕ) (rank : ℕ → ℕ) (filter : ℕ → ArgumentFilter) →
        KeepsAllPlaces arities filter →
        IsWellFoundedInContexts (PathWeak rank filter) (PathStrict rank filter)
        (IsWellFormed arities) }
    ensures terminating { (system : System) (rank : ℕ → ℕ) (filter : ℕ → ArgumentFilter) →
        KeepsAllPlaces system.arities filter →
        ((r : RewriteRule) → In r system.rules → IsWellFormed system.arities r.left
        × IsWellFormed system.arities r.right × PathStrict rank filter r.left r.right) →
        IsTerminating system }
{}

/// A linear interpretation over the naturals is a reduction pair on all terms (Baader and Nipkow,
/// section 5.3), and comparing coefficients decides it.
pub fn interpretation_laws()
    ensures pair { (c : ℕ → ℕ → ℕ) → ReductionPair (LinearWeak c) (LinearStrict c) AllTerms }
    ensures weak { (c : ℕ → ℕ → ℕ) (s t : Tree) → CoefficientWeak c s t ↔ LinearWeak c s t }
    ensures strict { (c : ℕ → ℕ → ℕ) (s t : Tree) → CoefficientStrict c s t ↔ LinearStrict c s t }
{}

/// The Knuth-Bendix order is a reduction pair on the terms of an arity function, if it is admissible
/// (Knuth and Bendix, 1970; Baader and Nipkow, section 5.4); with the arities of marked symbols it
/// speaks of all terms of a system with at most 4096 symbols.
pub fn knuth_bendix_laws()
    ensures pair { (arity : ℕ → Option ℕ) (weight rank : ℕ → ℕ) → IsAdmissible arity weight rank →
        ReductionPair (KnuthWeak weight rank) (KnuthGreater weight rank) (IsOver arity) }
    ensures speaks { (arities : List ℕ) → length arities ≤ 4096 →
        Speaks arities (IsOver (arity_with_marks arities)) }
{}

/// Removal of pairs by a path order with filters.
pub fn remove_by_path_order()
    ensures finite { (system : System) (pairs stays : List DependencyPair)
        (rank : ℕ → ℕ) (filter : ℕ → ArgumentFilter) →
        IsSystem system → ((p : DependencyPair) → In p pairs → IsPair system.arities p) →
        ((r : RewriteRule) → In r system.rules → PathWeak rank filter r.left r.right) →
        ((p : DependencyPair) → In p pairs →
        (In p stays × PathWeak rank filter (mark p.from) (mark p.to))
        ⊎ PathStrict rank filter (mark p.from) (mark p.to)) →
        IsFiniteProblem system stays → IsFiniteProblem system pairs }
{}

/// Removal of pairs by a linear interpretation, whose coefficients are compared.
pub fn remove_by_interpretation()
    ensures finite { (system : System) (pairs stays : List DependencyPair) (c : ℕ → ℕ → ℕ) →
        IsSystem system → ((p : DependencyPair) → In p pairs → IsPair system.arities p) →
        ((r : RewriteRule) → In r system.rules → CoefficientWeak c r.left r.right) →
        ((p : DependencyPair) → In p pairs →
        (In p stays × CoefficientWeak c (mark p.from) (mark p.to))
        ⊎ CoefficientStrict c (mark p.from) (mark p.to)) →
        IsFiniteProblem system stays → IsFiniteProblem system pairs }
{}

/// Removal of pairs by an admissible Knuth-Bendix order, with entries for all symbols of the rules
/// and pairs: `arity` is the entries' number of arguments, which is that of the system. Symbols above
/// 4095 are the marked ones.
pub fn remove_by_knuth_bendix()
    ensures finite { (system : System) (pairs stays : List DependencyPair)
        (arity : ℕ → Option ℕ) (weight rank : ℕ → ℕ) →
        IsSystem system → ((p : DependencyPair) → In p pairs → IsPair system.arities p) →
        length system.arities ≤ 4096 →
        ((f n : ℕ) → arity f ≡ Some n → arity_with_marks system.arities f ≡ Some n) →
        IsAdmissible arity weight rank →
        ((r : RewriteRule) → In r system.rules →
        IsOver arity r.left × IsOver arity r.right × KnuthWeak weight rank r.left r.right) →
        ((p : DependencyPair) → In p pairs →
        IsOver arity (mark p.from) × IsOver arity (mark p.to)) →
        ((p : DependencyPair) → In p pairs →
        (In p stays × KnuthWeak weight rank (mark p.from) (mark p.to))
        ⊎ KnuthGreater weight rank (mark p.from) (mark p.to)) →
        IsFiniteProblem system stays → IsFiniteProblem system pairs }
{}
