ghost use Rattle.std.specs.Prelude.{◌≡◌, IfOk};
ghost use Rattle.pair_theory.specs.DependencyPair.{dependency_pairs};
ghost use Rattle.cert_step.specs.Table.{contents};
ghost use Rattle.cert_step.specs.Tables.{AreTablesOf};

use crate::table::Table;
use dp_graph::{PairGraph, Pairs};
use std::alloc::Global;
use trs_core::{OutOfMemory, Trs};

/// The dependency pairs of a system and their graph. Each is lent, or made at the first step that
/// looks into it.
#[derive(Drop)]
pub(crate) struct Tables<'t, 'a> {
    pub(crate) pairs: Option<Table<'t, Pairs<'a>>>,
    pub(crate) graph: Option<Table<'t, PairGraph<'a>>>,
}

impl<'t, 'a> Tables<'t, 'a> {
    /// Takes the pairs out, which are made where they are not there. To be put back.
    pub(crate) fn take_pairs(
        &mut self,
        alloc: Global,
        trs: &'a Trs,
    ) -> Result<Table<'t, Pairs<'a>>, OutOfMemory>
        requires { AreTablesOf trs.now self.old }
        ensures pairs { IfOk result (λ pairs. contents pairs ≡ dependency_pairs trs.now.rules) }
        ensures tables { AreTablesOf trs.now self.new }
    {
        match self.pairs.take() {
            Some(pairs) => Ok(pairs),
            None => Ok(Table::Made(Pairs::new(alloc, trs)?)),
        }
    }

    /// Takes the graph out, which is made where it is not there. To be put back.
    pub(crate) fn take_graph(
        &mut self,
        alloc: Global,
        trs: &'a Trs,
    ) -> Result<Table<'t, PairGraph<'a>>, OutOfMemory>
        requires { AreTablesOf trs.now self.old }
        ensures graph { IfOk result (λ graph. contents graph ≡ trs.now) }
        ensures tables { AreTablesOf trs.now self.new }
    {
        match self.graph.take() {
            Some(graph) => Ok(graph),
            None => Ok(Table::Made(PairGraph::new(alloc, trs)?)),
        }
    }
}
