//! Usable rules. Each function is a theorem: its contract is the statement, and it does nothing.

ghost use Rattle.std.specs.Prelude.{ℕ, List, Bool, ◌⊎◌, ◌↔◌, IsTrue};
ghost use Rattle.trs_defs.specs.Member.{In};
ghost use Rattle.trs_defs.specs.Tree.{Tree};
ghost use Rattle.trs_defs.specs.System.{RewriteRule, System, IsSystem};
ghost use Rattle.pair_theory.specs.Marked.{mark};
ghost use Rattle.pair_theory.specs.DependencyPair.{DependencyPair};
ghost use Rattle.pair_theory.specs.PairProblem.{IsFiniteProblem, IsPair};
ghost use Rattle.order_theory.specs.LinearInterpretation.{CoefficientWeak, CoefficientStrict};
ghost use Rattle.order_theory.specs.UsableRules.{IsUsable, HasUsable, root_in, choices};

use pair_theory::ReductionOrder;

/// Sets of usable symbols: that of exactly the usable symbols has what it has to have, and each that
/// has it has each usable symbol.
pub fn usable_symbols()
    ensures exact { (rules : List RewriteRule) (pairs : List DependencyPair) (usable : ℕ → Bool) →
        ((g : ℕ) → IsTrue (usable g) ↔ IsUsable rules pairs g) → HasUsable rules pairs usable }
    ensures least { (rules : List RewriteRule) (pairs : List DependencyPair) (usable : ℕ → Bool) →
        HasUsable rules pairs usable → (g : ℕ) → IsUsable rules pairs g → IsTrue (usable g) }
{}

/// Removal of pairs where only the usable rules need be weak (Hirokawa and Middeldorp, 2007; Giesl,
/// Thiemann, Schneider-Kamp and Falke, 2006), by an order that speaks of all terms and that makes
/// C(x, y) fall to x and to y, weakly.
pub fn remove_by_usable_rules<O: ReductionOrder>(order: &O)
    ensures finite { (system : System) (pairs stays : List DependencyPair) (usable : ℕ → Bool) →
        IsSystem system → ((p : DependencyPair) → In p pairs → IsPair system.arities p) →
        HasUsable system.rules pairs usable → ((t : Tree) → O.speaks_of order.now t) →
        ((r : RewriteRule) → In r system.rules → IsTrue (root_in usable r.left) →
        O.is_weak order.now r.left r.right) →
        ((r : RewriteRule) → In r choices → O.is_weak order.now r.left r.right) →
        ((p : DependencyPair) → In p pairs →
        (In p stays × O.is_weak order.now (mark p.from) (mark p.to))
        ⊎ O.is_strict order.now (mark p.from) (mark p.to)) →
        IsFiniteProblem system stays → IsFiniteProblem system pairs }
{}

/// The same by a linear interpretation, whose coefficients are compared.
pub fn remove_by_usable_interpretation()
    ensures finite { (system : System) (pairs stays : List DependencyPair)
        (usable : ℕ → Bool) (c : ℕ → ℕ → ℕ) →
        IsSystem system → ((p : DependencyPair) → In p pairs → IsPair system.arities p) →
        HasUsable system.rules pairs usable →
        ((r : RewriteRule) → In r system.rules → IsTrue (root_in usable r.left) →
        CoefficientWeak c r.left r.right) →
        ((r : RewriteRule) → In r choices → CoefficientWeak c r.left r.right) →
        ((p : DependencyPair) → In p pairs →
        (In p stays × CoefficientWeak c (mark p.from) (mark p.to))
        ⊎ CoefficientStrict c (mark p.from) (mark p.to)) →
        IsFiniteProblem system stays → IsFiniteProblem system pairs }
{}
