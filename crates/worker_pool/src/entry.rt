ghost use Rattle.std.specs.Coded.{codes};
ghost use Rattle.trs_defs.specs.Tree.{tree_code};
ghost use Rattle.worker_pool.specs.Said.{Said};

use std::marker::Model;

/// What an entry of the history of a shared tree says. No value of it is made.
pub struct Entry {
    pub ghost says: { Said } by { Prim.hlevel (codes, tree_code) },
}

impl Model for Entry {
    ghost use base.Fml.{ftrue};

    ghost also_owns = { λ _. ftrue };
}
