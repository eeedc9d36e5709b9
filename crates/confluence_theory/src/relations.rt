//! Confluence of relations by conditions on single steps. (Baader and Nipkow, chapter 2.)

ghost use Rattle.std.specs.Prelude.{ℕ};
ghost use Rattle.trs_defs.specs.Bounded.{IsBounded};
ghost use Rattle.trs_defs.specs.Run.{Run};
ghost use Rattle.confluence_theory.specs.Confluence.{IsConfluentRelation, IsLocallyConfluent, IsStronglyConfluent, HasDiamond};
ghost use Rattle.confluence_theory.specs.Ranks.{AnyRank, IsLocallyDecreasing};

/// A relation on the values of a type.
pub trait Relation {
    ghost step: { Self → Self → Type 0 };
}

/// Two relations on the values of a type.
pub trait Refined {
    ghost fine: { Self → Self → Type 0 };

    ghost coarse: { Self → Self → Type 0 };
}

/// A relation on the values of a type, whose steps have ranks.
pub trait Ranked {
    ghost step: { ℕ → Self → Self → Type 0 };
}

/// Newman's lemma (Baader and Nipkow, section 2.7): locally confluent and terminating relations are
/// confluent.
pub fn newman<T: Relation>()
    requires bounded { (s : T) → IsBounded T.step s }
    requires peaks { IsLocallyConfluent T.step }
    ensures confluent { IsConfluentRelation T.step }
{}

/// Huet's lemma (Baader and Nipkow, section 2.7): strongly confluent relations are confluent.
pub fn strongly_confluent<T: Relation>()
    requires peaks { IsStronglyConfluent T.step }
    ensures confluent { IsConfluentRelation T.step }
{}

/// A relation is confluent if a relation with the diamond property lies between it and its runs
/// (Baader and Nipkow, section 2.7).
pub fn diamond<T: Refined>()
    requires up { (s t : T) → T.fine s t → T.coarse s t }
    requires down { (s t : T) → T.coarse s t → Run T.fine s t }
    requires peaks { HasDiamond T.coarse }
    ensures confluent { IsConfluentRelation T.fine }
{}

/// Van Oostrom's theorem (Confluence by decreasing diagrams, 1994), for ranks that are numbers:
/// locally decreasing relations are confluent.
pub fn decreasing_ranks<T: Ranked>()
    requires peaks { IsLocallyDecreasing T.step }
    ensures confluent { IsConfluentRelation (AnyRank T.step) }
{}
