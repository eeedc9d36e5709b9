use std::marker::Model;

/// A cap whose fresh variables have no names, since each occurs once. Contracts see its `holed`.
#[cycle(cap)]
#[derive(Drop)]
pub enum Cap {
    /// A fresh variable.
    Open,
    /// A variable that counts as a constant.
    Own(u32),
    /// A symbol over the caps of its arguments.
    Symbol(u32, Parts),
}

/// The caps of a symbol's arguments. Contracts see the list of these.
#[cycle(cap)]
#[derive(Drop)]
pub struct Parts {
    pub items: Vec<Cap>,
}

impl Model for Parts {
    ghost use Rattle.std.specs.Prelude.{List, map};
    ghost use Rattle.std.specs.Coded.{coded_list};
    ghost use Rattle.trs_caps.specs.HoledTree.{HoledTree, holed_code, holed_trees, holed_sizes};

    ghost Value = { List HoledTree };

    ghost coded = { coded_list holed_code };

    ghost use Rattle.trs_caps.specs.View.{holed};

    ghost view = { λ a. map holed a.items.items };

    ghost size = { λ cs. holed_sizes (holed_trees cs) };

    ghost use Rattle.std.proofs.Common.{arith};
    ghost use Rattle.trs_caps.specs.ViewFalls.{most_le_sizes};

    ghost size_decreases = { λ a h. omega (arith, most_le_sizes a.items.items) };
}
