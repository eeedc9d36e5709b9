use trs_core::Term;

/// A side of a peak: a term, or what stands for one. Contracts see its tree.
pub trait PeakSide: Drop {
    ghost use Rattle.trs_defs.specs.Tree.{Tree};

    ghost side_tree: { Self → Tree };
}

impl PeakSide for Term {
    ghost use Rattle.trs_core.specs.View.{tree};

    ghost side_tree = { tree };
}

/// A side that is a term of its own, or one that is lent, so that many peaks share it.
#[derive(Drop)]
pub enum SharedSide<'a> {
    Own(Box<Term>),
    Shared(&'a Term),
}

impl<'a> PeakSide for SharedSide<'a> {
    ghost use Rattle.rewrite_core.specs.SharedSide.{shared_tree};

    ghost side_tree = { shared_tree };
}

impl<'a> SharedSide<'a> {
    ghost use Rattle.std.specs.Prelude.{◌≡◌};
    ghost use Rattle.trs_core.specs.View.{tree};
    ghost use Rattle.rewrite_core.specs.SharedSide.{shared_tree};

    /// The term of the side.
    pub fn term(&self) -> &Term
        ensures { tree result.now ≡ shared_tree self.now }
    {
        match self {
            SharedSide::Own(t) => t,
            SharedSide::Shared(shared) => shared,
        }
    }
}
