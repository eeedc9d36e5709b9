//! What shows that a term rewriting system is confluent, or not. Of any relation: conditions on
//! single steps. Of a system: lists of peaks that cover it, and how certificates come by them; forks.
//! Each function is a theorem: its contract is the statement, and it does nothing.
#![tactic(auto)]

mod nonconfluence;
mod relations;

ghost use Rattle.std.specs.Prelude.{ℕ, List, ◌≡◌, ◌<◌, map, IsTrue};
ghost use Rattle.trs_defs.specs.Member.{In};
ghost use Rattle.trs_defs.specs.Tree.{Tree};
ghost use Rattle.trs_defs.specs.Variable.{has_var};
ghost use Rattle.trs_defs.specs.Substitution.{apply};
ghost use Rattle.trs_defs.specs.Renaming.{shifted};
ghost use Rattle.trs_defs.specs.System.{System, IsSystem, RewriteRule};
ghost use Rattle.trs_defs.specs.Joinable.{IsJoinable};
ghost use Rattle.trs_defs.specs.Step.{Step};
ghost use Rattle.trs_defs.specs.Claims.{IsTerminating, IsConfluent};
ghost use Rattle.trs_defs.specs.Path.{PlacedRule, Follows};
ghost use Rattle.confluence_theory.specs.Confluence.{JoinsStrongly};
ghost use Rattle.confluence_theory.specs.LabelledPath.{LabelledPath};
ghost use Rattle.confluence_theory.specs.ParallelStep.{ParallelStepBy};
ghost use Rattle.confluence_theory.specs.Linear.{AreLeftLinear, AreRightLinear};
ghost use Rattle.confluence_theory.specs.Peak.{Peak, Covers};
ghost use Rattle.confluence_theory.specs.RuleRanks.{IsDecreasing, NumberedStep};
ghost use Rattle.confluence_theory.specs.CriticalPeak.{Overlaps, HasCriticalPeaks};
ghost use Rattle.confluence_theory.specs.ParallelPositions.{ArePairwiseParallel};

pub use nonconfluence::{
    caps_apart, clashing_caps, different_normal_forms, forked_is_not_confluent,
    split_is_not_unique, unique_normal_forms,
};
pub use relations::{
    Ranked, Refined, Relation, decreasing_ranks, diamond, newman, strongly_confluent,
};

/// The critical pair lemma's first half (Baader and Nipkow, section 6.2): a list with all critical
/// peaks covers the system.
pub fn critical_peaks_cover()
    ensures covers { (system : System) (peaks : List Peak) →
        IsSystem system → HasCriticalPeaks system.rules peaks → Covers system.rules peaks }
{}

/// Where two rules overlap, the subterm of the outer left side and the inner left side have a
/// unifier once the variables of the inner rule are moved past those of the outer left side.
pub fn overlaps_unify()
    ensures unified { (rules : List RewriteRule) (i j : ℕ) (inner outer : RewriteRule) →
        (p : List ℕ) (overlap : Overlaps rules i j inner outer p) (offset : ℕ) →
        ((v : ℕ) → IsTrue (has_var v outer.left) → v < offset) →
        (σ : ℕ → Tree) × (apply σ overlap.part ≡ apply σ (shifted offset inner.left)) }
{}

/// A path by positions is a path by the numbers of its rules, as a decreasing peak wants it.
pub fn followed_paths()
    ensures labelled { (rules : List RewriteRule) (path : List PlacedRule) (t u : Tree) →
        Follows rules path t u → LabelledPath (NumberedStep rules) (map (λ s. s.rule) path) t u }
{}

/// A path whose positions are pairwise parallel is one parallel step, as a parallel closed peak
/// wants it.
pub fn parallel_paths()
    ensures parallel { (rules : List RewriteRule) (path : List PlacedRule) (t u : Tree) →
        ArePairwiseParallel path → Follows rules path t u → ParallelStepBy rules t u }
{}

/// Knuth and Bendix's theorem (Baader and Nipkow, section 6.2; Knuth and Bendix, Simple word
/// problems in universal algebras, 1970): a terminating system is confluent if the sides of each
/// peak of a list that covers it are joinable.
pub fn joined_peaks()
    ensures confluent { (system : System) (peaks : List Peak) →
        IsSystem system → Covers system.rules peaks →
        ((peak : Peak) → In peak peaks → IsJoinable (Step system.rules) peak.left peak.right) →
        IsTerminating system → IsConfluent system }
{}

/// Huet's theorem on parallel closed systems (Confluent reductions, 1980; Baader and Nipkow,
/// section 6.4): a left-linear system is confluent if one parallel step leads from the left to the
/// right of each peak of a list that covers it.
pub fn parallel_closed_peaks()
    ensures confluent { (system : System) (peaks : List Peak) →
        IsSystem system → AreLeftLinear system.rules → Covers system.rules peaks →
        ((peak : Peak) → In peak peaks → ParallelStepBy system.rules peak.left peak.right) →
        IsConfluent system }
{}

/// Huet's theorem on strongly closed systems (Confluent reductions, 1980; Baader and Nipkow,
/// section 6.3): a linear system is confluent if the sides of each peak of a list that covers it
/// join strongly, in both directions.
pub fn strongly_closed_peaks()
    ensures confluent { (system : System) (peaks : List Peak) →
        IsSystem system → AreLeftLinear system.rules → AreRightLinear system.rules →
        Covers system.rules peaks → ((peak : Peak) → In peak peaks →
        JoinsStrongly (Step system.rules) peak.left peak.right ×
        JoinsStrongly (Step system.rules) peak.right peak.left) →
        IsConfluent system }
{}

/// The rule labelling (van Oostrom, Confluence by decreasing diagrams, 2008): a linear system is
/// confluent if the rules have ranks such that each peak of a list that covers it is decreasing.
pub fn decreasing_peaks()
    ensures confluent { (system : System) (ranks : List ℕ) (peaks : List Peak) →
        IsSystem system → AreLeftLinear system.rules → AreRightLinear system.rules →
        Covers system.rules peaks →
        ((peak : Peak) → In peak peaks → IsDecreasing system.rules ranks peak) →
        IsConfluent system }
{}
