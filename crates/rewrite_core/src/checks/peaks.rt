use crate::checks::PeakSide;
use std::marker::Model;
use trs_core::{Position, Term};

/// The top of a peak: a term, or what stands for one that is not built, since no check looks at it.
/// Contracts see its tree. It tells how the sides of the peak are held.
pub trait Top {
    ghost use Rattle.trs_defs.specs.Tree.{Tree};

    type Side: PeakSide;

    ghost top_tree: { Self → Tree };
}

impl Top for Term {
    ghost use Rattle.trs_core.specs.View.{tree};

    type Side = Term;

    ghost top_tree = { tree };
}

/// A top of a peak whose sides are terms.
pub trait BuiltTop: Top {
    ghost use Rattle.std.specs.Prelude.{◌≡◌};
    ghost use Rattle.trs_core.specs.View.{tree};

    /// The term of a side.
    fn term<'s>(side: &'s Self::Side) -> &'s Term
        ensures { tree result.now ≡ Self.Side.side_tree side.now };
}

impl BuiltTop for Term {
    fn term<'s>(side: &'s Term) -> &'s Term {
        side
    }
}

/// A peak of two rules, whose numbers count from 0: the inner rule leads from the top to the left,
/// at the place, and the outer rule at the root to the right. (Baader and Nipkow, section 6.2.)
#[derive(Drop)]
pub struct Peak<T: Top = Term> {
    pub top: T,
    pub left: T::Side,
    pub right: T::Side,
    pub outer: u32,
    pub inner: u32,
    pub place: Position,
}

impl<T: Top> Model for Peak<T> {
    ghost use Rattle.rewrite_core.specs.PlacedPeak.{PlacedPeak, peak_code};

    ghost Value = { PlacedPeak };

    ghost coded = { peak_code };

    ghost view = { λ a. record {
      outer = a.outer;
      place = a.place;
      inner = a.inner;
      top = T.top_tree a.top;
      left = T.Side.side_tree a.left;
      right = T.Side.side_tree a.right;
    } };
}
