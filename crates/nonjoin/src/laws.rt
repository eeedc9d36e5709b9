ghost use Rattle.std.specs.Prelude.{List};
ghost use Rattle.trs_defs.specs.Tree.{Tree};
ghost use Rattle.trs_defs.specs.System.{System, IsSystem};
ghost use Rattle.trs_defs.specs.Step.{Step};
ghost use Rattle.trs_defs.specs.Joinable.{IsJoinable};
ghost use Rattle.nonjoin.specs.Apart.{AreApart};

/// A law, with nothing to run: terms that are apart by their caps are not joinable.
pub fn apart_terms_are_not_joinable()
    ensures { (system : System) (a b : Tree) → IsSystem system → AreApart system.rules a b
        → IsJoinable (Step system.rules) a b → ⊥ }
{}
