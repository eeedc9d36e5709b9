//! Caps of terms, and what fits them. The function is a theorem: its contract is the statement, and
//! it does nothing.

ghost use Rattle.std.specs.Prelude.{ℕ, List};
ghost use Rattle.trs_defs.specs.Tree.{Tree};
ghost use Rattle.trs_defs.specs.Substitution.{apply};
ghost use Rattle.trs_defs.specs.System.{RewriteRule, Among};
ghost use Rattle.trs_defs.specs.Derivation.{Reaches};
ghost use Rattle.trs_defs.specs.Step.{Step};
ghost use Rattle.trs_defs.specs.Cap.{Cap, Fits};

/// What the instances of a term reach fits the term's cap (Giesl, Thiemann and Schneider-Kamp,
/// 2005).
pub fn reached_terms_fit()
    ensures { (rules : List RewriteRule) (t cap v : Tree) (instance : ℕ → Tree) →
        Cap (Among rules) t cap → Reaches (Step rules) (apply instance t) v → Fits cap v }
{}
