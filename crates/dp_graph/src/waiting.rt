//! Components that wait for others.
ghost use Rattle.std.specs.Prelude.{ℕ, ◌≡◌, ◌<◌, ◌≤◌, ◌↔◌, All, IfOk, OnOk, IsTrue, false, length};
ghost use Rattle.dp_graph.specs.GraphConditions.{lists_of};
ghost use Rattle.dp_graph.specs.Rows.{StayWithin};
ghost use Rattle.dp_graph.specs.Waiting.{Has, Adds, OneEdge, RowEdges, AllEdges, IsReadySet, IsFreeLeader, AddsIf, AreAtFirst};
ghost use Rattle.dp_graph.specs.Waiting.{TakesOut, Releases, LooksAt, Other, IsOne, OfRow, OfRows, IsOut, Trims};

use crate::lists::{empty_lists, put_behind};
use std::alloc::Global;
use std::collections::BTreeSet;
use trs_core::OutOfMemory;

/// Which components others wait for, by their leaders.
#[derive(Drop)]
pub(crate) struct Waiting {
    /// For each leader those of the other components that an edge leads from to its own, once for
    /// each such edge. At the end of the list none stays that is put out.
    blockers: Vec<Vec<u32>>,
    /// Which leaders are put out.
    out: Vec<bool>,
    /// The leaders of the components that wait for none, and are not put out.
    ready: BTreeSet<usize>,
}

impl Waiting {
    /// No component is put out.
    pub(crate) fn new(
        alloc: Global,
        rows: &[Vec<u32>],
        leaders: &[usize],
    ) -> Result<Waiting, OutOfMemory>
        requires count { length leaders.now ≡ length rows.now }
        requires rows { StayWithin (lists_of rows.now) }
        requires leaders { All (λ l. l < length leaders.now) leaders.now }
        ensures { IfOk result (AreAtFirst (lists_of rows.now) leaders.now) }
    {
        let blockers = blockers(alloc, rows, leaders)?;
        let out = vec![in alloc; false; leaders.len()]?;
        let ready = ready(alloc, leaders, &blockers)?;
        Ok(Waiting {
            blockers,
            out,
            ready,
        })
    }

    /// Takes out a leader that is ready: one that is no pair, if there is one, else the least. The
    /// first places are those of so many pairs.
    pub(crate) fn take_ready(&mut self, pairs: usize) -> Option<usize>
        ensures { TakesOut pairs self.old self.new result }
    {
        if has_from(&self.ready, pairs) {
            return self.ready.pop_last();
        }
        self.ready.pop_first()
    }

    /// The component of leader `v` is put out, to which these places belong, so that no other one
    /// waits for it any more. It takes steps for each edge from these places, and for each that it
    /// takes off the lists.
    pub(crate) fn release(
        &mut self,
        rows: &[Vec<u32>],
        leaders: &[usize],
        v: usize,
        places: &[u32],
    ) -> Result<(), OutOfMemory>
        requires count { length leaders.now ≡ length rows.now }
        requires rows { StayWithin (lists_of rows.now) }
        requires leaders { All (λ l. l < length self.old.blockers.items) leaders.now }
        requires places { All (λ w. w < length rows.now) places.now }
        requires leader { v < length self.old.out.items }
        ensures { OnOk result (Releases self.old self.new v
            (Other v (OfRows (lists_of rows.now) leaders.now places.now))) }
    {
        self.out[v] = true;
        self.look_at_rows(rows, leaders, v, places)?;
        Ok(())
    }

    /// Sees which leaders wait for none, of those of other components to which edges lead from
    /// these places.
    fn look_at_rows(
        &mut self,
        rows: &[Vec<u32>],
        leaders: &[usize],
        v: usize,
        places: &[u32],
    ) -> Result<(), OutOfMemory>
        requires count { length leaders.now ≡ length rows.now }
        requires rows { StayWithin (lists_of rows.now) }
        requires leaders { All (λ l. l < length self.old.blockers.items) leaders.now }
        requires places { All (λ w. w < length rows.now) places.now }
        ensures { OnOk result (LooksAt self.old self.new
            (Other v (OfRows (lists_of rows.now) leaders.now places.now))) }
    {
        for w in places {
            self.look_at_row(&rows[*w as usize], leaders, v)?;
        }
        Ok(())
    }

    /// The same for the edges of one row.
    fn look_at_row(&mut self, row: &[u32], leaders: &[usize], v: usize) -> Result<(), OutOfMemory>
        requires row { All (λ j. j < length leaders.now) row.now }
        requires leaders { All (λ l. l < length self.old.blockers.items) leaders.now }
        ensures { OnOk result
            (LooksAt self.old self.new (Other v (OfRow leaders.now row.now))) }
    {
        for j in row {
            self.look_at(leaders[*j as usize], v)?;
        }
        Ok(())
    }

    /// Sees whether leader `l` waits for none, if it is another one than `v`.
    fn look_at(&mut self, l: usize, v: usize) -> Result<(), OutOfMemory>
        requires { l < length self.old.blockers.items }
        ensures { OnOk result (LooksAt self.old self.new (Other v (IsOne l))) }
    {
        if l == v {
            return Ok(());
        }
        let free = trim(&mut self.blockers[l], &self.out)?;
        add_if(free, l, &mut self.ready)?;
        Ok(())
    }
}

/// Whether a set has a place from `n` on.
fn has_from(set: &BTreeSet<usize>, n: usize) -> bool
    ensures there { IsTrue result → (l : ℕ) × Has set.now l × n ≤ l }
    ensures none { result ≡ false → (l : ℕ) → Has set.now l → l < n }
{
    match set.last() {
        Some(l) => *l >= n,
        None => false,
    }
}

/// Takes those that are put out off the end of a list of leaders. Whether none is left.
fn trim(list: &mut Vec<u32>, out: &[bool]) -> Result<bool, OutOfMemory>
    ensures { IfOk result (Trims out.now list.old.items list.new.items) }
{
    while let Some(k) = list.pop() {
        if !is_out(out, k as usize) {
            list.push(k)?;
            return Ok(false);
        }
    }
    Ok(true)
}

/// Whether leader `k` is put out.
fn is_out(out: &[bool], k: usize) -> bool
    ensures { IsTrue result ↔ IsOut out.now k }
{
    k < out.len() && out[k]
}

/// For each leader those of the other components from which edges lead to its own.
fn blockers(
    alloc: Global,
    rows: &[Vec<u32>],
    leaders: &[usize],
) -> Result<Vec<Vec<u32>>, OutOfMemory>
    requires count { length leaders.now ≡ length rows.now }
    requires rows { StayWithin (lists_of rows.now) }
    requires leaders { All (λ l. l < length leaders.now) leaders.now }
    ensures { IfOk result (λ blockers.
        AllEdges (lists_of rows.now) leaders.now (lists_of blockers.items)) }
{
    let mut blockers = empty_lists(alloc, leaders.len())?;
    for (i, row) in rows.iter().enumerate() {
        add_row(row, leaders[i], leaders, &mut blockers)?;
    }
    Ok(blockers)
}

/// Adds the leader of a row to what the leaders of its places wait for.
fn add_row(
    row: &[u32],
    from: usize,
    leaders: &[usize],
    blockers: &mut Vec<Vec<u32>>,
) -> Result<(), OutOfMemory>
    requires row { All (λ j. j < length leaders.now) row.now }
    requires leaders { All (λ l. l < length blockers.old.items) leaders.now }
    ensures { OnOk result (Adds (RowEdges row.now from leaders.now)
        (lists_of blockers.old.items) (lists_of blockers.new.items)) }
{
    for j in row {
        add_edge(from, leaders[*j as usize], blockers)?;
    }
    Ok(())
}

/// Adds a leader to what another one waits for.
fn add_edge(from: usize, to: usize, blockers: &mut Vec<Vec<u32>>) -> Result<(), OutOfMemory>
    requires { to < length blockers.old.items }
    ensures { OnOk result (Adds (OneEdge from to)
        (lists_of blockers.old.items) (lists_of blockers.new.items)) }
{
    if from != to {
        put_behind(blockers, to, from)?;
    }
    Ok(())
}

/// The leaders that wait for none.
fn ready(
    alloc: Global,
    leaders: &[usize],
    blockers: &[Vec<u32>],
) -> Result<BTreeSet<usize>, OutOfMemory>
    requires { length blockers.now ≡ length leaders.now }
    ensures { IfOk result (IsReadySet (IsFreeLeader leaders.now (lists_of blockers.now))) }
{
    let mut ready = BTreeSet::new(alloc);
    for v in 0..leaders.len() {
        add_if(is_free(leaders, blockers, v), v, &mut ready)?;
    }
    Ok(ready)
}

/// Whether a place is a leader that waits for none.
fn is_free(leaders: &[usize], blockers: &[Vec<u32>], v: usize) -> bool
    requires leaders { v < length leaders.now }
    requires blockers { length blockers.now ≡ length leaders.now }
    ensures { IsTrue result ↔ IsFreeLeader leaders.now (lists_of blockers.now) v }
{
    if leaders[v] != v {
        return false;
    }
    blockers[v].is_empty()
}

fn add_if(yes: bool, v: usize, set: &mut BTreeSet<usize>) -> Result<(), OutOfMemory>
    ensures { OnOk result (AddsIf yes v set.old set.new) }
{
    if yes {
        set.insert(v)?;
    }
    Ok(())
}
