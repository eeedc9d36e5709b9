ghost use Rattle.std.specs.Prelude.{◌≡◌, IfOk, IfSome};
ghost use Rattle.pair_theory.specs.DependencyPair.{dependency_pairs};
ghost use Rattle.strategies.specs.Tables.{AreKnownPeaks};

use crate::peaks::{KnownPeaks, known_peaks};
use cert_step::{PairGraph, Pairs};
use std::alloc::Global;
use std::marker::Model;
use trs_core::{OutOfMemory, Trs};

/// What strategies look up in a system, as far as it is made ahead: its dependency pairs, their
/// graph and its critical peaks. It is lent to all who search. Contracts see the system.
#[derive(Drop)]
pub struct Tables<'a> {
    trs: &'a Trs,
    pairs: Option<Pairs<'a>>,
    graph: Option<PairGraph<'a>>,
    peaks: Option<KnownPeaks<'a>>,
}

impl<'a> Model for Tables<'a> {
    ghost use Rattle.trs_defs.specs.System.{System, system_code};
    ghost use Rattle.strategies.specs.Tables.{AreTablesOf};

    ghost Value = { System };

    ghost coded = { system_code };

    ghost view = { λ a. a.trs.now };

    ghost invariant = { λ a. AreTablesOf a.trs.now a.pairs a.graph a.peaks };
}

impl<'a> Tables<'a> {
    /// Nothing is made ahead. Who searches makes the pairs and their graph when a strategy first
    /// needs them; a strategy on critical peaks lists the peaks each time that it runs.
    pub fn new(trs: &'a Trs) -> Tables<'a>
        ensures { result ≡ trs.now }
    {
        Tables {
            trs,
            pairs: None,
            graph: None,
            peaks: None,
        }
    }

    /// The critical peaks alone.
    pub fn with_peaks(alloc: Global, trs: &'a Trs) -> Result<Tables<'a>, OutOfMemory>
        ensures { IfOk result (λ tables. tables ≡ trs.now) }
    {
        let mut tables = Tables::new(trs);
        tables.peaks = Some(known_peaks(alloc, trs)?);
        Ok(tables)
    }

    /// Adds the pairs and their graph, so that those who search need not each make them.
    pub fn add_pairs(&mut self, alloc: Global) -> Result<(), OutOfMemory>
        ensures { self.new ≡ self.old }
    {
        self.pairs = Some(Pairs::new(alloc, self.trs)?);
        self.graph = Some(PairGraph::new(alloc, self.trs)?);
        Ok(())
    }

    /// The system.
    pub(crate) fn system(&self) -> &'a Trs
        ensures { result.now ≡ self.now }
    {
        self.trs
    }

    /// The dependency pairs, where they are made ahead.
    pub(crate) fn pairs(&self) -> Option<&Pairs<'a>>
        ensures { IfSome result (λ pairs. pairs.now ≡ dependency_pairs self.now.rules) }
    {
        self.pairs.as_ref()
    }

    /// Their graph, where it is made ahead.
    pub(crate) fn graph(&self) -> Option<&PairGraph<'a>>
        ensures { IfSome result (λ graph. graph.now ≡ self.now) }
    {
        self.graph.as_ref()
    }

    /// The critical peaks, where they are made ahead.
    pub(crate) fn peaks(&self) -> Option<&KnownPeaks<'a>>
        ensures { IfSome result (λ peaks. AreKnownPeaks self.now peaks.now) }
    {
        self.peaks.as_ref()
    }
}
