//! What shows that a term rewriting system is not confluent: different normal forms, and caps that
//! no term fits both. Each function is a theorem: its contract is the statement, and it does
//! nothing.

ghost use Rattle.std.specs.Prelude.{ℕ, List, ◌≢◌, IsTrue};
ghost use Rattle.trs_defs.specs.Tree.{Tree};
ghost use Rattle.trs_defs.specs.Substitution.{apply};
ghost use Rattle.trs_defs.specs.WellFormed.{IsWellFormed};
ghost use Rattle.trs_defs.specs.System.{System, RewriteRule, Among};
ghost use Rattle.trs_defs.specs.Derivation.{Reaches};
ghost use Rattle.trs_defs.specs.Joinable.{IsJoinable};
ghost use Rattle.trs_defs.specs.NormalForm.{IsNormalForm};
ghost use Rattle.trs_defs.specs.Step.{Step};
ghost use Rattle.trs_defs.specs.Claims.{IsConfluent, IsForked};
ghost use Rattle.trs_defs.specs.UniqueNormalForms.{HasUniqueNormalForms, IsSplit};
ghost use Rattle.trs_defs.specs.Cap.{Cap, Fits};
ghost use Rattle.confluence_theory.specs.Clash.{clash};

/// Two different normal forms are not joinable, so a system is forked where a term reaches both.
pub fn different_normal_forms()
    ensures apart { (rules : List RewriteRule) (t u : Tree) →
        IsNormalForm (Step rules) t → IsNormalForm (Step rules) u → t ≢ u →
        IsJoinable (Step rules) t u → ⊥ }
    ensures forked { (system : System) (s t u : Tree) → IsWellFormed system.arities s →
        Reaches (Step system.rules) s t → Reaches (Step system.rules) s u →
        IsNormalForm (Step system.rules) t → IsNormalForm (Step system.rules) u → t ≢ u →
        IsForked system }
    ensures split { (system : System) → IsSplit system → IsForked system }
{}

/// Two terms are not joinable, if no term fits both the caps that they have when their variables
/// are read by one substitution, as by fresh constants (Zankl, Felgenhauer and Middeldorp, CSI, a
/// confluence tool, 2011; Aoto, Disproving confluence of term rewriting systems by interpretation
/// and ordering, 2013).
pub fn caps_apart()
    ensures apart { (rules : List RewriteRule) (t u c d : Tree) (read : ℕ → Tree) →
        Cap (Among rules) (apply read t) c → Cap (Among rules) (apply read u) d →
        ((v : Tree) → Fits c v → Fits d v → ⊥) → IsJoinable (Step rules) t u → ⊥ }
    ensures forked { (system : System) (s t u c d : Tree) (read : ℕ → Tree) →
        IsWellFormed system.arities s →
        Reaches (Step system.rules) s t → Reaches (Step system.rules) s u →
        Cap (Among system.rules) (apply read t) c → Cap (Among system.rules) (apply read u) d →
        ((v : Tree) → Fits c v → Fits d v → ⊥) → IsForked system }
{}

/// Caps clash exactly where no term fits both.
pub fn clashing_caps()
    ensures apart { (c d v : Tree) → IsTrue (clash c d) → Fits c v → Fits d v → ⊥ }
    ensures together { (c d : Tree) → (IsTrue (clash c d) → ⊥) → (v : Tree) × Fits c v × Fits d v }
{}

/// In a confluent system each well-formed term has at most one normal form (Baader and Nipkow,
/// section 2.1).
pub fn unique_normal_forms()
    ensures unique { (system : System) → IsConfluent system → HasUniqueNormalForms system }
{}

/// A split system does not have unique normal forms.
pub fn split_is_not_unique()
    ensures { (system : System) → IsSplit system → HasUniqueNormalForms system → ⊥ }
{}

/// A forked system is not confluent.
pub fn forked_is_not_confluent()
    ensures contradiction { (system : System) → IsForked system → IsConfluent system → ⊥ }
{}
