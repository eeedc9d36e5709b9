ghost use Rattle.std.specs.Prelude.{◌≡◌, ◌≤◌, ◌++◌, List, [], All, length, IfOk, IfSome, OnOk};
ghost use Rattle.trs_defs.specs.Tree.{Tree};
ghost use Rattle.trs_defs.specs.System.{RewriteRule};
ghost use Rattle.trs_core.specs.SystemLimits.{HaveSmallVariables};
ghost use Rattle.term_pool.specs.Pooled.{Extends};
ghost use Rattle.term_pool.specs.Redexes.{IsNarrow};
ghost use Rattle.crit_pairs.specs.Prepared.{ArePrepared};
ghost use Rattle.crit_pairs.specs.GroundSides.{AreGroundRights};
ghost use Rattle.crit_pairs.specs.Table.{sites, sites_from};
ghost use Rattle.crit_pairs.specs.Table.{HasPeaks, HasFirstPeaks, AreAllPairs};
ghost use Rattle.crit_pairs.specs.Growing.{IsGrown};

use crate::PeakFault;
use crate::ground_sides::{GroundSide, add_ground_rights};
use crate::growing::{Growth, grow_rules};
use crate::names::Names;
use crate::prepared::PreparedRules;
use crate::room::Room;
use std::alloc::Global;
use term_pool::Pool;
use trs_core::{OutOfMemory, Rule};

/// The two results of a critical peak, by their ids in a pool.
#[derive(Clone, Copy)]
pub struct PeakPair {
    pub left: u32,
    pub right: u32,
}

/// The critical peaks of rules that come one after the other, as pairs of ids in a pool. Where rules
/// come behind others, only the peaks in which they take part are made. (Baader and Nipkow, section
/// 6.2.)
#[derive(Drop)]
pub struct PeakTable {
    pub(crate) prepared: PreparedRules,
    /// The right sides with no variable, by the numbers of their rules.
    pub(crate) rights: Vec<Option<GroundSide>>,
    /// A list for each position of a symbol in a left side: by rule, and then in preorder.
    pub(crate) lists: Vec<Vec<PeakPair>>,
    /// The nodes of all peaks.
    pub(crate) nodes: u64,
}

impl PeakTable {
    /// The peaks of no rules: there are none. It takes no memory.
    pub fn new(alloc: Global) -> PeakTable
        ensures { (pool : List Tree) → HasPeaks [] pool result }
    {
        PeakTable {
            prepared: PreparedRules::new(alloc),
            rights: Vec::new(alloc),
            lists: Vec::new(alloc),
            nodes: 0,
        }
    }

    /// The table with the peaks of all rules, where it has those of the first ones. `None` where a
    /// peak passes a limit, or all of them together do.
    pub fn grow(
        self,
        alloc: Global,
        rules: &[Rule],
        pool: &mut Pool,
    ) -> Result<Option<PeakTable>, OutOfMemory>
        requires small { HaveSmallVariables rules.now }
        requires narrow { All (λ r. IsNarrow r.left) rules.now }
        requires first { HasFirstPeaks rules.now pool.old self }
        ensures peaks { IfOk result (λ grown. IfSome grown (HasPeaks rules.now pool.new)) }
        ensures kept { Extends pool.old pool.new }
    {
        self.grow_within(alloc, rules, Room::without_end(), pool)
    }

    /// The same, but `None` too where the peaks that come to it pass the room.
    pub(crate) fn grow_within(
        self,
        alloc: Global,
        rules: &[Rule],
        room: Room,
        pool: &mut Pool,
    ) -> Result<Option<PeakTable>, OutOfMemory>
        requires small { HaveSmallVariables rules.now }
        requires narrow { All (λ r. IsNarrow r.left) rules.now }
        requires first { HasFirstPeaks rules.now pool.old self }
        ensures peaks { IfOk result (λ grown. IfSome grown (HasPeaks rules.now pool.new)) }
        ensures kept { Extends pool.old pool.new }
    {
        let known = self.prepared.apart_lefts.len();
        let prepared = self.prepared.prepare(alloc, rules)?;
        let rights = add_ground_rights(alloc, rules, self.rights, pool)?;
        let mut growth = Growth {
            lists: self.lists,
            done: 0,
            nodes: self.nodes,
            room,
            places: Vec::new(alloc),
            names: Names::none(alloc),
        };
        match grow_all(alloc, rules, &prepared, &rights, known, pool, &mut growth) {
            Ok(()) => Ok(Some(PeakTable {
                prepared,
                rights,
                lists: growth.lists,
                nodes: growth.nodes,
            })),
            Err(PeakFault::OutOfMemory) => Err(OutOfMemory),
            Err(_) => Ok(None),
        }
    }

    /// The pairs of all peaks, in the order of their list.
    pub fn pairs(&self, alloc: Global) -> Result<Vec<PeakPair>, OutOfMemory>
        ensures { IfOk result (λ pairs. (rules : List RewriteRule) (pool : List Tree) →
            HasPeaks rules pool self.now → AreAllPairs rules pool pairs.items) }
    {
        let mut pairs = Vec::new(alloc);
        for list in &self.lists {
            push_pairs(&mut pairs, list)?;
        }
        Ok(pairs)
    }
}

/// Adds the peaks of the rules behind the first ones, whose peaks are there: in the first ones, and
/// then in the others.
fn grow_all(
    alloc: Global,
    rules: &[Rule],
    prepared: &PreparedRules,
    rights: &[Option<GroundSide>],
    known: usize,
    pool: &mut Pool,
    growth: &mut Growth,
) -> Result<(), PeakFault>
    requires prepared { ArePrepared rules.now prepared.now }
    requires rights { AreGroundRights rules.now pool.old rights.now }
    requires small { HaveSmallVariables rules.now }
    requires narrow { All (λ r. IsNarrow r.left) rules.now }
    requires known { known ≤ length rules.now }
    requires done { growth.old.done ≡ 0 }
    ensures grows { OnOk result ((first more : List RewriteRule) → rules.now ≡ first ++ more →
        known ≡ length first → IsGrown rules.now known pool.old growth.old (sites first)
        (sites_from known more) → IsGrown rules.now 0 pool.new growth.new [] []) }
    ensures kept { Extends pool.old pool.new }
{
    grow_rules(
        alloc, rules, prepared, rights, 0, known, known, pool, growth,
    )?;
    grow_rules(
        alloc,
        rules,
        prepared,
        rights,
        known,
        rules.len(),
        0,
        pool,
        growth,
    )
}

/// Adds pairs to a list.
fn push_pairs(list: &mut Vec<PeakPair>, pairs: &[PeakPair]) -> Result<(), OutOfMemory>
    ensures { OnOk result (list.new.items ≡ list.old.items ++ pairs.now) }
{
    for pair in pairs {
        list.push(*pair)?;
    }
    Ok(())
}
