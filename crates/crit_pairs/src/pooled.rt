ghost use Rattle.std.specs.Prelude.{◌≡◌, ◌<◌, ◌↔◌, List, IfOk, IfSome, IsTrue, Some, slice_get};
ghost use Rattle.rewrite_core.specs.Check.{AnswersBy};
ghost use Rattle.rewrite_core.specs.PathCheck.{Runs};
ghost use Rattle.rewrite_core.specs.PlacedPeak.{PlacedPeak};
ghost use Rattle.crit_pairs.specs.PooledPeaks.{HasId, tree_of, KeepsIds, count_of};
ghost use Rattle.crit_pairs.specs.PooledPeaks.{HoldsPeaks, ArePooled, AreSides};

use crate::equal_rules::are_some_equal;
use crate::ground_sides::is_ground;
use crate::room::Room;
use crate::table::{PeakPair, PeakTable};
use rewrite_core::{CheckFault, PathStep, end_in_pool};
use std::alloc::Global;
use term_pool::{Pool, ids_are_distinct};
use trs_core::{OutOfMemory, Rule, Term, Trs, systems_are_valid};

/// To look for an overlap at a position as often as this for each peak takes little time.
const TRIES_FOR_A_PEAK: u64 = 256;

/// So few peaks are listed at once: a pool gains nothing.
const FEW_PEAKS: usize = 16;

/// So many nodes of results take little time to build.
const FEW_BUILT: u64 = 16_384;

/// The most ids that paths leave from one peak to the next.
const MOST_KEPT: u32 = 524_288;

/// All critical peaks of a system, in a pool in which their sides have ids and paths from them are
/// followed. Equal terms have one id.
#[derive(Drop)]
pub struct PooledPeaks {
    pub(crate) pool: Pool,
    pub(crate) pairs: Vec<PeakPair>,
    /// The ids below it are never given up.
    pub(crate) base: u32,
}

impl PooledPeaks {
    /// The peaks of a system. `None` where there are more than `most`, where they pass a limit, and
    /// where a list of them is seen to take no longer.
    pub fn of(alloc: Global, trs: &Trs, most: usize) -> Result<Option<PooledPeaks>, OutOfMemory>
        ensures { IfOk result (λ found. IfSome found (ArePooled trs.now.rules)) }
    {
        systems_are_valid(trs);
        let rules = trs.rules();
        if !may_gain_time(alloc, rules, most)? {
            return Ok(None);
        }
        let mut pool = Pool::new(alloc);
        let empty = PeakTable::new(alloc);
        let room = Room {
            peaks: most,
            nodes: FEW_BUILT,
        };
        let grown = empty.grow_within(alloc, rules, room, &mut pool)?;
        let Some(table) = grown else {
            return Ok(None);
        };
        let pairs = table.pairs(alloc)?;
        let base = pool.len();
        Ok(Some(PooledPeaks { pool, pairs, base }))
    }

    /// How many peaks there are.
    pub fn len(&self) -> usize
        ensures { result ≡ count_of self.now }
    {
        self.pairs.len()
    }

    /// The ids of the two sides of peak number `n`, counted from 0.
    pub fn pair(&self, n: usize) -> PeakPair
        requires { n < count_of self.now }
        ensures { (peaks : List PlacedPeak) (p : PlacedPeak) → HoldsPeaks peaks self.now
            → slice_get peaks n ≡ Some p → AreSides self.now result p }
    {
        self.pairs[n]
    }

    /// The id of the end of a path, whose number is `number` in item `item`, both counted from 0.
    pub fn end_of_path(
        &mut self,
        alloc: Global,
        trs: &Trs,
        start: u32,
        path: &[PathStep],
        item: u64,
        number: u64,
    ) -> Result<u32, CheckFault>
        requires { HasId self.old start }
        ensures end { AnswersBy (tree_of self.new)
            (Runs trs.now.rules (tree_of self.old start) path.now item number) result }
        ensures there { IfOk result (HasId self.new) }
        ensures kept { KeepsIds self.old self.new }
        ensures peaks { (peaks : List PlacedPeak) → HoldsPeaks peaks self.old
            → HoldsPeaks peaks self.new }
    {
        end_in_pool(alloc, &mut self.pool, trs, start, path, item, number)
    }

    /// Whether two ids stand for one tree.
    pub fn is_same(&self, first: u32, second: u32) -> bool
        requires first { HasId self.now first }
        requires second { HasId self.now second }
        ensures { IsTrue result ↔ (tree_of self.now first ≡ tree_of self.now second) }
    {
        ids_are_distinct(&self.pool);
        first == second
    }

    /// Where paths left many ids, these are given up.
    pub fn make_room(&mut self)
        ensures { (peaks : List PlacedPeak) → HoldsPeaks peaks self.old
            → HoldsPeaks peaks self.new }
    {
        let most = self.base.saturating_add(MOST_KEPT);
        if self.pool.len() > most {
            self.pool.release(self.base);
        }
    }
}

/// Whether a pool may gain time: some right side has no variable, so that it gets its id but once, or
/// rules are equal, so that their peaks are made but once; and there are few rules and few positions
/// beside the peaks, which are many, since each rule is tried at each position.
fn may_gain_time(alloc: Global, rules: &[Rule], most: usize) -> Result<bool, OutOfMemory> {
    if most < FEW_PEAKS {
        return Ok(false);
    }
    let tries = TRIES_FOR_A_PEAK.saturating_mul(most as u64);
    let most_nodes = tries / (rules.len() as u64).max(1);
    let mut nodes: u64 = 0;
    let mut has_ground = false;
    for rule in rules {
        nodes = count_nodes(&rule.left, most_nodes, nodes);
        if most_nodes < nodes {
            return Ok(false);
        }
        has_ground = has_ground || is_ground(&rule.right);
    }
    Ok(has_ground || are_some_equal(alloc, rules)?)
}

/// The nodes of a term with those before. Where there are more than `most`, not all are counted.
fn count_nodes(t: &Term, most: u64, before: u64) -> u64 {
    let mut nodes = before.saturating_add(1);
    if let Term::App(_, args) = t {
        for arg in &args.items {
            if most < nodes {
                return nodes;
            }
            nodes = count_nodes(arg, most, nodes);
        }
    }
    nodes
}
