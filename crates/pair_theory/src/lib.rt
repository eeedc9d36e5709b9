//! The theory of dependency pairs. Each function is a theorem: its contract is the statement, and
//! it does nothing.
#![tactic(auto)]

ghost use Rattle.std.specs.Prelude.{◌≡◌, ℕ, List, Bool, ◌⊎◌, IsTrue};
ghost use Rattle.trs_defs.specs.Member.{In};
ghost use Rattle.trs_defs.specs.Tree.{Tree};
ghost use Rattle.trs_defs.specs.Variable.{has_var};
ghost use Rattle.trs_defs.specs.System.{RewriteRule, System, IsSystem, Among};
ghost use Rattle.trs_defs.specs.Step.{StepBy};
ghost use Rattle.trs_defs.specs.Bounded.{IsBounded};
ghost use Rattle.trs_defs.specs.Claims.{IsTerminating, IsEndless};
ghost use Rattle.pair_theory.specs.Subterm.{ProperSubterm};
ghost use Rattle.pair_theory.specs.Terminates.{Terminates};
ghost use Rattle.pair_theory.specs.Marked.{mark};
ghost use Rattle.pair_theory.specs.DependencyPair.{DependencyPair, dependency_pairs};
ghost use Rattle.pair_theory.specs.PairProblem.{IsFiniteProblem, IsPair};
ghost use Rattle.pair_theory.specs.PairGraph.{CoversSteps, IsCapEstimate, IsGrouped};
ghost use Rattle.pair_theory.specs.SubtermCriterion.{Projects};
ghost use Rattle.pair_theory.specs.ReductionPair.{ReductionPair, Speaks, SpeaksOfSides, SpeaksErased, marked_rule};

/// Arts and Giesl's theorem on dependency pairs (2000; for minimal chains, Hirokawa and
/// Middeldorp, 2007): a system whose dependency pairs are a finite problem terminates.
pub fn dependency_pairs_suffice()
    ensures terminating { (system : System) → IsSystem system →
        IsFiniteProblem system (dependency_pairs system.rules) → IsTerminating system }
    ensures pairs { (system : System) → IsSystem system → (p : DependencyPair) →
        In p (dependency_pairs system.rules) → IsPair system.arities p }
{}

/// A problem with no pairs is finite, and fewer pairs are a finite problem where more are.
pub fn fewer_pairs_suffice()
    ensures none { (system : System) (pairs : List DependencyPair) →
        ((p : DependencyPair) → In p pairs → ⊥) → IsFiniteProblem system pairs }
    ensures fewer { (system : System) (pairs more : List DependencyPair) →
        ((p : DependencyPair) → In p pairs → In p more) →
        IsFiniteProblem system more → IsFiniteProblem system pairs }
{}

/// The dependency graph (Arts and Giesl, 2000; Giesl, Thiemann and Schneider-Kamp,
/// 2005): where edges cover chain steps, groups in order that are each done make a finite problem;
/// the estimate by caps covers them.
pub fn groups_suffice()
    ensures finite { (system : System) (pairs : List DependencyPair) (edge : ℕ → ℕ → Bool) →
        IsSystem system → ((p : DependencyPair) → In p pairs → IsPair system.arities p) →
        CoversSteps system pairs edge →
        (group : ℕ → ℕ) (groups : ℕ) → IsGrouped system pairs edge group groups →
        IsFiniteProblem system pairs }
    ensures estimate { (system : System) (pairs : List DependencyPair) (edge : ℕ → ℕ → Bool) →
        IsCapEstimate system pairs edge → CoversSteps system pairs edge }
{}

/// The subterm criterion (Hirokawa and Middeldorp, 2007): of pairs whose sides project
/// to a term and itself or a proper subterm of it, the second go. Places are counted from 1.
pub fn subterm_criterion()
    ensures finite { (system : System) (pairs stays : List DependencyPair) (place : ℕ → ℕ) →
        IsSystem system → ((p : DependencyPair) → In p pairs → IsPair system.arities p) →
        ((p : DependencyPair) → In p pairs →
        (In p stays × Projects place (λ s t. s ≡ t) p) ⊎ Projects place ProperSubterm p) →
        IsFiniteProblem system stays → IsFiniteProblem system pairs }
{}

/// A reduction pair, as a value that determines the orders, such as a table of coefficients.
pub trait ReductionOrder {
    ghost is_weak: { Self → Tree → Tree → Type 0 };

    ghost is_strict: { Self → Tree → Tree → Type 0 };

    ghost speaks_of: { Self → Tree → Type 0 };

    ghost laws: { (x : Self) → ReductionPair (is_weak x) (is_strict x) (speaks_of x) };
}

/// Removal of pairs by a reduction pair (Arts and Giesl, 2000; Giesl, Thiemann and
/// Schneider-Kamp, 2005): where rules are weak, and each pair is weak and stays or is strict, the
/// pairs that stay suffice. `erased`: the same for an order with entries for some symbols only.
pub fn remove_pairs<O: ReductionOrder>(order: &O)
    ensures finite { (system : System) (pairs stays : List DependencyPair) →
        IsSystem system → ((p : DependencyPair) → In p pairs → IsPair system.arities p) →
        Speaks system.arities (O.speaks_of order.now) →
        ((r : RewriteRule) → In r system.rules → O.is_weak order.now r.left r.right) →
        ((p : DependencyPair) → In p pairs →
        (In p stays × O.is_weak order.now (mark p.from) (mark p.to))
        ⊎ O.is_strict order.now (mark p.from) (mark p.to)) →
        IsFiniteProblem system stays → IsFiniteProblem system pairs }
    ensures erased { (system : System) (pairs stays : List DependencyPair) (entry : ℕ → Bool) →
        IsSystem system → ((p : DependencyPair) → In p pairs →
        IsPair system.arities p × SpeaksOfSides entry (O.speaks_of order.now) (marked_rule p)) →
        SpeaksErased system entry (O.speaks_of order.now) →
        ((r : RewriteRule) → In r system.rules → O.is_weak order.now r.left r.right) →
        ((p : DependencyPair) → In p pairs →
        (In p stays × O.is_weak order.now (mark p.from) (mark p.to))
        ⊎ O.is_strict order.now (mark p.from) (mark p.to)) →
        IsFiniteProblem system stays → IsFiniteProblem system pairs }
{}

/// A term that terminates under finitely many rules with no new variables has a bound on the length
/// of its derivations (Baader and Nipkow, section 2.2), and a term that has one terminates. So
/// the arguments of a marked term terminate, as chains want it, exactly where they are bounded.
pub fn terminating_terms_are_bounded()
    ensures bounded { (rules : List RewriteRule) (t : Tree) →
        ((r : RewriteRule) → In r rules → (v : ℕ) →
        IsTrue (has_var v r.right) → IsTrue (has_var v r.left)) →
        Terminates (Among rules) t → IsBounded (StepBy (Among rules)) t }
    ensures terminating { (rules : List RewriteRule) (t : Tree) →
        IsBounded (StepBy (Among rules)) t → Terminates (Among rules) t }
{}

/// An endless system does not terminate.
pub fn endless_is_not_terminating()
    ensures { (system : System) → IsEndless system → IsTerminating system → ⊥ }
{}
