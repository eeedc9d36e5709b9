//! The paths of up to four steps from a term.
ghost use Rattle.std.specs.Prelude.{◌≡◌, ◌<◌, ◌≤◌, ◌+◌, ◌++◌, List, [], ◌∷◌, All};
ghost use Rattle.std.specs.Prelude.{length, drop, IfOk, IfSome, IfNone, OnOk, IsTrue, ◌↔◌};
ghost use Rattle.trs_core.specs.View.{tree};
ghost use Rattle.trs_defs.specs.Tree.{Tree};
ghost use Rattle.trs_defs.specs.System.{RewriteRule};
ghost use Rattle.trs_defs.specs.Size.{size_of, within_limits};
ghost use Rattle.term_pool.specs.Pooled.{Extends, tree_at};
ghost use Rattle.term_pool.specs.ListedIds.{listed, listed_at, ids_of};
ghost use Rattle.term_pool.specs.Redexes.{IsNarrow, HasRedexes, IsRedexAt};
ghost use Rattle.term_pool.specs.Reach.{AreReducts, AreCandidates};
ghost use Rattle.path_lists.specs.PathList.{IsPathList};
ghost use Rattle.path_lists.specs.Growth.{GrowsBy};
ghost use Rattle.path_lists.specs.KnownEnds.{AreKnownEnds, LeadsOn};
ghost use Rattle.path_lists.specs.Adding.{Entry, AddsPaths, IsEntryAt, KeepsSmall, GoesOn};
ghost use Rattle.path_lists.specs.Adding.{LeadsFrom, IsKeptEnd, IsLeftOut};

use crate::growth::stays_small;
use crate::known_ends::KnownEnds;
use crate::reducts::Reducts;
use crate::room::Room;
use rewrite_core::copy_path;
use std::alloc::Global;
use term_pool::{PathStep, Pool, RulesByRoot, paths_keep_narrow};
use trs_core::{OutOfMemory, Term, Trs};

const MOST_STEPS: usize = 4;

const MOST_PATHS: usize = 256;

const MOST_NODES: u64 = 4_096;

/// The fewest reducts that are noted of a term that has some. Fewer are made again in less time.
const FEWEST_NOTED: usize = 4;

/// The most ids that the paths from an id add to a pool.
pub const MOST_OF_ENDS: u32 = 1_048_576;

/// The most ids that a term, and its paths, add to a pool.
pub const MOST_OF_PATHS: u32 = 1_114_112;

/// The paths from the term of an id, of up to 4 steps, with the ids of their ends: by their length,
/// then by the order of the path without its last step, then by that of the redexes. Ends of more
/// than 4,096 nodes or past a limit are left out; of the others the list has the first 256.
/// `growth` is by how many nodes a step makes a term larger at most: where the ends must be small by
/// that, or by the right sides of the rules along a path, their nodes are not counted.
/// What is known of ends in the pool is looked up, and what else is found out of them is noted.
pub fn paths_from(
    alloc: Global,
    pool: &mut Pool,
    trs: &Trs,
    by_root: &RulesByRoot,
    start: u32,
    growth: u64,
    ends: &mut KnownEnds,
) -> Result<Vec<(u32, Vec<PathStep>)>, OutOfMemory>
    requires table { by_root.now ≡ trs.now }
    requires there { start < length pool.old }
    requires small { IsTrue (within_limits (tree_at pool.old start)) }
    requires narrow { IsNarrow (tree_at pool.old start) }
    requires grows { GrowsBy trs.now.rules growth }
    requires ends { AreKnownEnds trs.now.rules pool.old ends.old }
    ensures list { IfOk result (λ found.
        IsPathList trs.now.rules (tree_at pool.old start) (listed_at pool.new found.items)) }
    ensures there { IfOk result (λ found. All (λ e. e.0 < length pool.new) found.items) }

    // The ids that were there keep their terms.
    ensures kept { Extends pool.old pool.new }
    ensures few { IfOk result (λ _. length pool.new ≤ length pool.old + MOST_OF_ENDS) }
    ensures ends { OnOk result (AreKnownEnds trs.now.rules pool.new ends.new) }
{
    paths_keep_narrow(trs);
    let nodes = pool.size(start);
    let is_sure = stays_small(nodes, growth);
    let room = Room {
        start: nodes,
        growth,
        is_sure,
    };
    let mut paths = Vec::new(alloc);
    paths.push((start, Vec::new(alloc)))?;
    let mut next = 0;
    while next < paths.len() && paths.len() < MOST_PATHS {
        add_longer(alloc, pool, trs, by_root, room, next, ends, &mut paths)?;
        next += 1;
    }
    Ok(paths)
}

/// The same paths, from a term that may have no id yet.
pub fn paths_with(
    alloc: Global,
    pool: &mut Pool,
    trs: &Trs,
    by_root: &RulesByRoot,
    start: &Term,
    growth: u64,
    ends: &mut KnownEnds,
) -> Result<Vec<(u32, Vec<PathStep>)>, OutOfMemory>
    requires table { by_root.now ≡ trs.now }
    requires small { IsTrue (within_limits (tree start.now)) }
    requires narrow { IsNarrow (tree start.now) }
    requires grows { GrowsBy trs.now.rules growth }
    requires ends { AreKnownEnds trs.now.rules pool.old ends.old }
    ensures list { IfOk result (λ found.
        IsPathList trs.now.rules (tree start.now) (listed_at pool.new found.items)) }
    ensures there { IfOk result (λ found. All (λ e. e.0 < length pool.new) found.items) }

    // The ids that were there keep their terms.
    ensures kept { Extends pool.old pool.new }
    ensures few { IfOk result (λ _. length pool.new ≤ length pool.old + MOST_OF_PATHS) }
    ensures ends { OnOk result (AreKnownEnds trs.now.rules pool.new ends.new) }
{
    let id = pool.intern(alloc, start)?;
    paths_from(alloc, pool, trs, by_root, id, growth, ends)
}

/// An id of the list, with its path.
fn entry_at(
    alloc: Global,
    paths: &[(u32, Vec<PathStep>)],
    i: usize,
) -> Result<(u32, Vec<PathStep>), OutOfMemory>
    requires { i < length paths.now }
    ensures { IfOk result (IsEntryAt paths.now i) }
{
    let entry = &paths[i];
    Ok((entry.0, copy_path(alloc, &entry.1)?))
}

/// Adds the paths that are one step longer than the one at this place, as long as fewer than 256
/// are listed.
fn add_longer(
    alloc: Global,
    pool: &mut Pool,
    trs: &Trs,
    by_root: &RulesByRoot,
    room: Room,
    place: usize,
    ends: &mut KnownEnds,
    paths: &mut Vec<(u32, Vec<PathStep>)>,
) -> Result<(), OutOfMemory>
    requires table { by_root.now ≡ trs.now }
    requires place { place < length paths.old.items }
    requires on { (e : Entry) → IsEntryAt paths.old.items place e
        → GoesOn trs.now.rules room pool.old e }
    requires grows { GrowsBy trs.now.rules room.growth }
    requires ends { AreKnownEnds trs.now.rules pool.old ends.old }
    requires below { All (λ e. e.0 < length pool.old) paths.old.items }
    requires few { length paths.old.items ≤ 256 }
    ensures adds { OnOk result ((e : Entry) → IsEntryAt paths.old.items place e
        → AddsPaths (AreCandidates trs.now.rules 4 4096 (listed pool.old e ∷ []))
        pool.old pool.new paths.old.items paths.new.items) }
    ensures ends { OnOk result (AreKnownEnds trs.now.rules pool.new ends.new) }
    ensures kept { Extends pool.old pool.new }
{
    let entry = &paths[place];
    if entry.1.len() >= MOST_STEPS {
        return Ok(());
    }
    let id = entry.0;
    if let Some(reducts) = ends.reducts(id) {
        add_known(alloc, reducts, place, paths)?;
        return Ok(());
    }
    add_unknown(alloc, pool, trs, by_root, room, place, ends, paths)
}

/// The same, where these are the reducts of the path's end. The path is copied only where there are
/// some.
fn add_known(
    alloc: Global,
    reducts: &Reducts,
    place: usize,
    paths: &mut Vec<(u32, Vec<PathStep>)>,
) -> Result<(), OutOfMemory>
    requires place { place < length paths.old.items }
    requires few { length paths.old.items ≤ 256 }
    ensures adds { OnOk result ((rules : List RewriteRule) (pool : List Tree) (e : Entry)
        → IsEntryAt paths.old.items place e
        → LeadsOn rules pool paths.old.items (listed pool e) reducts.now
        → AddsPaths (AreCandidates rules 4 4096 (listed pool e ∷ []))
        pool pool paths.old.items paths.new.items) }
{
    if reducts.steps.is_empty() {
        return Ok(());
    }
    let entry = entry_at(alloc, paths, place)?;
    add_reducts(alloc, &entry, reducts, paths)?;
    Ok(())
}

/// Adds this path with one more step, for each of these.
fn add_reducts(
    alloc: Global,
    entry: &(u32, Vec<PathStep>),
    reducts: &Reducts,
    paths: &mut Vec<(u32, Vec<PathStep>)>,
) -> Result<(), OutOfMemory>
    requires few { length paths.old.items ≤ 256 }
    ensures adds { OnOk result ((rules : List RewriteRule) (pool : List Tree)
        → LeadsOn rules pool paths.old.items (listed pool entry.now) reducts.now
        → AddsPaths (AreCandidates rules 4 4096 (listed pool entry.now ∷ []))
        pool pool paths.old.items paths.new.items) }
{
    for (i, step) in reducts.steps.iter().enumerate() {
        if paths.len() >= MOST_PATHS {
            return Ok(());
        }
        let end = reducts.ends[i];
        let path = longer(alloc, &entry.1, step)?;
        paths.push((end, path))?;
    }
    Ok(())
}

/// The same, where the path has fewer than four steps, and the reducts of its end are not known.
/// They are noted, if there are none, or if there are many and all are added.
fn add_unknown(
    alloc: Global,
    pool: &mut Pool,
    trs: &Trs,
    by_root: &RulesByRoot,
    room: Room,
    place: usize,
    ends: &mut KnownEnds,
    paths: &mut Vec<(u32, Vec<PathStep>)>,
) -> Result<(), OutOfMemory>
    requires table { by_root.now ≡ trs.now }
    requires place { place < length paths.old.items }
    requires short { (e : Entry) → IsEntryAt paths.old.items place e → length e.1.items < 4 }
    requires on { (e : Entry) → IsEntryAt paths.old.items place e
        → GoesOn trs.now.rules room pool.old e }
    requires grows { GrowsBy trs.now.rules room.growth }
    requires ends { AreKnownEnds trs.now.rules pool.old ends.old }
    requires below { All (λ e. e.0 < length pool.old) paths.old.items }
    requires few { length paths.old.items ≤ 256 }
    ensures adds { OnOk result ((e : Entry) → IsEntryAt paths.old.items place e
        → AddsPaths (AreCandidates trs.now.rules 4 4096 (listed pool.old e ∷ []))
        pool.old pool.new paths.old.items paths.new.items) }
    ensures ends { OnOk result (AreKnownEnds trs.now.rules pool.new ends.new) }
    ensures kept { Extends pool.old pool.new }
{
    let id = paths[place].0;
    let steps = ends.redexes(alloc, pool, by_root, id)?;
    if steps.is_empty() {
        let none = Reducts {
            steps,
            ends: Vec::new(alloc),
        };
        ends.note(id, none)?;
        return Ok(());
    }
    let entry = entry_at(alloc, paths, place)?;
    let first = paths.len();
    add_steps(alloc, pool, trs, room, &entry, &steps, paths)?;
    if steps.len() < FEWEST_NOTED || paths.len() < first + steps.len() {
        return Ok(());
    }
    let reached = ids_from(alloc, paths, first)?;
    let reducts = Reducts {
        steps,
        ends: reached,
    };
    ends.note(id, reducts)?;
    Ok(())
}

/// The ids of the entries from a place on.
fn ids_from(
    alloc: Global,
    paths: &[(u32, Vec<PathStep>)],
    first: usize,
) -> Result<Vec<u32>, OutOfMemory>
    requires { first ≤ length paths.now }
    ensures { IfOk result (λ ids. ids.items ≡ ids_of (drop first paths.now)) }
{
    let mut ids = Vec::new(alloc);
    for entry in &paths[first..] {
        ids.push(entry.0)?;
    }
    Ok(ids)
}

/// Adds the path with one more step, for each of these, as long as fewer than 256 are listed.
fn add_steps(
    alloc: Global,
    pool: &mut Pool,
    trs: &Trs,
    room: Room,
    entry: &(u32, Vec<PathStep>),
    steps: &[PathStep],
    paths: &mut Vec<(u32, Vec<PathStep>)>,
) -> Result<(), OutOfMemory>
    requires there { entry.now.0 < length pool.old }
    requires short { length entry.now.1.items < 4 }
    requires redexes { HasRedexes trs.now.rules (tree_at pool.old entry.now.0) steps.now }
    requires on { GoesOn trs.now.rules room pool.old entry.now }
    requires grows { GrowsBy trs.now.rules room.growth }
    requires below { All (λ e. e.0 < length pool.old) paths.old.items }
    requires few { length paths.old.items ≤ 256 }
    ensures adds { OnOk result (AddsPaths (AreCandidates trs.now.rules 4 4096
        (listed pool.old entry.now ∷ [])) pool.old pool.new paths.old.items paths.new.items) }
    ensures kept { Extends pool.old pool.new }
{
    for step in steps {
        if paths.len() >= MOST_PATHS {
            return Ok(());
        }
        add_path(alloc, pool, trs, room, entry, step, paths)?;
    }
    Ok(())
}

/// Adds the path with one more step, if its end is small.
fn add_path(
    alloc: Global,
    pool: &mut Pool,
    trs: &Trs,
    room: Room,
    entry: &(u32, Vec<PathStep>),
    step: &PathStep,
    paths: &mut Vec<(u32, Vec<PathStep>)>,
) -> Result<(), OutOfMemory>
    requires there { entry.now.0 < length pool.old }
    requires short { length entry.now.1.items < 4 }
    requires redex { IsRedexAt trs.now.rules (tree_at pool.old entry.now.0) step.now }
    requires sure { IsTrue room.is_sure → KeepsSmall trs.now.rules (listed pool.old entry.now) }
    requires grows { GrowsBy trs.now.rules room.growth }
    requires from { LeadsFrom trs.now.rules room.start (listed pool.old entry.now) }
    requires below { All (λ e. e.0 < length pool.old) paths.old.items }
    requires space { length paths.old.items < 256 }
    ensures adds { OnOk result (AddsPaths (AreReducts trs.now.rules 4096
        (listed pool.old entry.now) (step.now ∷ [])) pool.old pool.new
        paths.old.items paths.new.items) }
    ensures kept { Extends pool.old pool.new }
{
    match small_end(alloc, pool, trs, room, entry, step)? {
        None => Ok(()),
        Some(end) => {
            paths.push((end, longer(alloc, &entry.1, step)?))?;
            Ok(())
        }
    }
}

/// The path with one more step. Its memory is taken once.
fn longer(alloc: Global, path: &[PathStep], step: &PathStep) -> Result<Vec<PathStep>, OutOfMemory>
    ensures { IfOk result (λ longer. longer.items ≡ path.now ++ step.now ∷ []) }
{
    let mut longer = Vec::with_capacity(alloc, MOST_STEPS)?;
    for earlier in path {
        longer.push(earlier.copy(alloc)?)?;
    }
    longer.push(step.copy(alloc)?)?;
    Ok(longer)
}

/// The id of the path's end after one more step, or `None` where that is too large. Then nothing
/// is kept of it; and where the right side alone is too large, nothing is made.
fn small_end(
    alloc: Global,
    pool: &mut Pool,
    trs: &Trs,
    room: Room,
    entry: &(u32, Vec<PathStep>),
    step: &PathStep,
) -> Result<Option<u32>, OutOfMemory>
    requires there { entry.now.0 < length pool.old }
    requires short { length entry.now.1.items < 4 }
    requires redex { IsRedexAt trs.now.rules (tree_at pool.old entry.now.0) step.now }
    requires sure { IsTrue room.is_sure → KeepsSmall trs.now.rules (listed pool.old entry.now) }
    requires grows { GrowsBy trs.now.rules room.growth }
    requires from { LeadsFrom trs.now.rules room.start (listed pool.old entry.now) }
    ensures end { IfOk result (λ found. IfSome found (IsKeptEnd trs.now.rules step.now
        (tree_at pool.old entry.now.0) pool.old pool.new)) }
    ensures none { IfOk result (λ found. IfNone found (IsLeftOut trs.now.rules step.now
        (tree_at pool.old entry.now.0))) }
    ensures unchanged { IfOk result (λ found. IfNone found (pool.new ≡ pool.old)) }
    ensures kept { Extends pool.old pool.new }
{
    let rule = &trs.rules()[step.rule as usize];
    if rule.right.size() > MOST_NODES {
        return Ok(None);
    }
    let mark = pool.mark();
    let end = match pool.step_at(alloc, trs, entry.0, &step.place, step.rule) {
        Ok(end) => end,
        Err(fault) => {
            fault.unless_no_memory()?;
            return Ok(None);
        }
    };
    if room.is_sure {
        return Ok(Some(end));
    }
    if room.suffices(trs, &entry.1, step.rule) {
        return Ok(Some(end));
    }
    if is_small(alloc, pool, end)? {
        return Ok(Some(end));
    }
    pool.release(mark);
    Ok(None)
}

/// Whether the id's term has at most 4,096 nodes.
fn is_small(alloc: Global, pool: &Pool, id: u32) -> Result<bool, OutOfMemory>
    requires { id < length pool.now }
    ensures { IfOk result (λ yes. IsTrue yes ↔ size_of (tree_at pool.now id) ≤ 4096) }
{
    let term = pool.read(alloc, id)?;
    Ok(term.size() <= MOST_NODES)
}
