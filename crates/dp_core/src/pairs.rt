use std::marker::Model;
use trs_core::Position;

/// A dependency pair, by the number of a rule, from 0, and the place of a subterm of its right
/// side. (Arts and Giesl, 2000.)
#[derive(Drop)]
pub struct DpPair {
    pub rule: u32,
    pub place: Position,
}

impl Model for DpPair {
    ghost use Rattle.trs_defs.specs.Path.{PlacedRule, placed_code};

    ghost Value = { PlacedRule };

    ghost coded = { placed_code };

    ghost view = { λ a. record { place = a.place; rule = a.rule } };
}
