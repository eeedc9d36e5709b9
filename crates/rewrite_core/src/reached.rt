use crate::PathStep;
use std::marker::Model;
use trs_core::Term;

/// A term, and a path that leads to it. Contracts see it as a record of both.
#[derive(Drop)]
pub struct Reached {
    pub term: Term,
    pub path: Vec<PathStep>,
}

impl Model for Reached {
    ghost use Rattle.trs_core.specs.View.{tree};
    ghost use Rattle.term_pool.specs.Listed.{Listed, listed_code};

    ghost Value = { Listed };

    ghost coded = { listed_code };

    ghost view = { λ a. record { term = tree a.term; path = a.path.items } };
}
