//! Which left sides the caps of terms meet.
ghost use Rattle.std.specs.Prelude.{ℕ, ◌≡◌, ◌≤◌, ◌<◌, ◌↔◌, ◌∷◌, false, List, [], Option, Some, None, IfOk, IfSome, OnOk, IsTrue, length, slice_get};
ghost use Rattle.trs_defs.specs.Tree.{Tree};
ghost use Rattle.trs_defs.specs.System.{RewriteRule};
ghost use Rattle.trs_core.specs.View.{tree};
ghost use Rattle.trs_caps.specs.HoledCap.{HasRoot, MeetsLeft};
ghost use Rattle.trs_caps.specs.HoledTree.{HoledTree, hole, symbol};
ghost use Rattle.trs_caps.specs.KnownCaps.{IsWhole};
ghost use Rattle.trs_caps.specs.View.{holed, holed_all};
ghost use Rattle.pair_theory.specs.DependencyPair.{subterms};
ghost use Rattle.dp_graph.specs.WordRows.{HasWords, KeepWords};
ghost use Rattle.dp_graph.specs.FlagRows.{HasFlags, IsMet, IsOther, IsRow, LooksAtLeft};
ghost use Rattle.dp_graph.specs.SameLefts.{HaveSameLefts};
ghost use Rattle.dp_graph.specs.NotedRules.{HaveAllNoted};
ghost use Rattle.dp_graph.specs.CapRows.{AreCaps, AreEnds, AreMore, IsNumbered, AddsEnds, IsCapped, HasKey, AddsCap, Begins, with_end};

use crate::flag_rows::set;
use crate::noted::{is_noted, numbers_at};
use crate::term_hash::TermHash;
use crate::word_rows::WordRows;
use std::alloc::Global;
use std::collections::BTreeMap;
use term_pool::RulesByRoot;
use trs_caps::{Cap, Parts};
use trs_core::{OutOfMemory, Rule, Term};

/// A part of a right side with so few nodes is not kept for later ones.
const FEW_NODES: u32 = 16;

/// Caps by their numbers. Equal ones have one number, and are put beside the left sides once. Number
/// 0 is that of a hole.
#[derive(Drop)]
pub(crate) struct CapRows<'t> {
    /// For each cap the number of the row of the left sides that it meets. That of a hole stands for
    /// nothing.
    caps: Vec<u32>,
    pub(crate) rows: WordRows,
    /// For each cap its symbol and the numbers of its parts. That of a hole has no words.
    keys: WordRows,
    /// The rules that are noted for left sides, by the roots of these.
    noted: BTreeMap<u32, Vec<u32>>,
    /// By its hash a part of a right side that was looked at.
    parts: BTreeMap<u64, KnownPart<'t>>,
}

/// A part of a right side, with the ends in it.
#[derive(Drop)]
pub(crate) struct KnownPart<'t> {
    part: &'t Term,
    ends: Vec<End>,
}

/// The cap of a term, with its number.
#[derive(Drop)]
pub(crate) struct NumberedCap {
    cap: Cap,
    number: u32,
    /// The number of the term's symbol over the caps of its arguments, also where that is no cap of
    /// the term since it meets a left side.
    whole: u32,
}

/// The right side of a pair: its root without the mark, and the number of this root over the caps of
/// the arguments.
#[derive(Clone, Copy)]
pub(crate) struct End {
    pub(crate) symbol: u32,
    pub(crate) cap: u32,
}

impl<'t> CapRows<'t> {
    /// The hole alone, and the rules that are noted for left sides.
    pub(crate) fn new(
        alloc: Global,
        noted: BTreeMap<u32, Vec<u32>>,
    ) -> Result<CapRows<'t>, OutOfMemory>
        ensures { IfOk result (λ caps. (rules : List RewriteRule) (lefts : List (Option ℕ)) →
            HaveAllNoted rules lefts noted → AreCaps rules lefts caps (hole ∷ [])) }
    {
        let mut caps = Vec::new(alloc);
        caps.push(0)?;
        let mut keys = WordRows::new(alloc);
        keys.add(alloc, Vec::new(alloc))?;
        Ok(CapRows {
            caps,
            rows: WordRows::new(alloc),
            keys,
            noted,
            parts: BTreeMap::new(alloc),
        })
    }

    /// Puts the subterms of a term with a defined root behind the ends, in preorder: so the caps in a
    /// right side are made once for all its pairs. What stands above all of them has no caps.
    pub(crate) fn add_ends(
        &mut self,
        alloc: Global,
        by_root: &RulesByRoot,
        lefts: &[Option<usize>],
        t: &'t Term,
        ends: &mut Vec<End>,
    ) -> Result<(), OutOfMemory>
        requires { HaveSameLefts by_root.now.rules lefts.now }
        ensures ends { (all : List HoledTree) → AreCaps by_root.now.rules lefts.now self.old all
            → OnOk result (AreMore by_root.now.rules lefts.now self.new all (AddsEnds
            by_root.now.rules (tree t.now) ends.old.items ends.new.items)) }
        ensures kept { OnOk result (KeepWords self.old.rows.rows.items self.new.rows.rows.items) }
    {
        let Term::App(f, args) = t else {
            return Ok(());
        };
        if by_root.with_root(*f).is_empty() {
            for arg in &args.items {
                self.add_ends(alloc, by_root, lefts, arg, ends)?;
            }
            return Ok(());
        }
        self.add_part(alloc, by_root, lefts, t, ends)
    }

    /// The same for a part with a defined root. Equal parts are looked at once, if they are not small.
    /// It is not inlined, so that the recursion above it has little on the stack at each level.
    #[inline(never)]
    fn add_part(
        &mut self,
        alloc: Global,
        by_root: &RulesByRoot,
        lefts: &[Option<usize>],
        part: &'t Term,
        ends: &mut Vec<End>,
    ) -> Result<(), OutOfMemory>
        requires { HaveSameLefts by_root.now.rules lefts.now }
        ensures ends { (all : List HoledTree) → AreCaps by_root.now.rules lefts.now self.old all
            → OnOk result (AreMore by_root.now.rules lefts.now self.new all (AddsEnds
            by_root.now.rules (tree part.now) ends.old.items ends.new.items)) }
        ensures kept { OnOk result (KeepWords self.old.rows.rows.items self.new.rows.rows.items) }
    {
        let mut words = Vec::new(alloc);
        let TermHash { hash, nodes } = TermHash::of(part);
        if nodes <= FEW_NODES {
            self.cap_of(alloc, by_root, lefts, part, &mut words, ends)?;
            return Ok(());
        }
        if let Some(known) = self.known_ends(hash, part) {
            ends.extend_from_slice(known)?;
            return Ok(());
        }
        let mut found = Vec::new(alloc);
        self.cap_of(alloc, by_root, lefts, part, &mut words, &mut found)?;
        ends.extend_from_slice(&found)?;
        self.parts.insert(hash, KnownPart { part, ends: found })?;
        Ok(())
    }

    /// The ends in a part like one that was looked at.
    fn known_ends(&self, hash: u64, part: &Term) -> Option<&[End]>
        ensures { (rules : List RewriteRule) (lefts : List (Option ℕ)) (all : List HoledTree)
            → AreCaps rules lefts self.now all
            → IfSome result (λ ends. AreEnds rules all (subterms (tree part.now)) ends.now) }
    {
        let known = self.parts.get(&hash)?;
        if known.part.same(part) {
            Some(&known.ends)
        } else {
            None
        }
    }

    /// The cap of a term, whose variables are not fixed. The subterms with a defined root are put
    /// behind the ends, in preorder. The keys are made behind the words, which stay as they are.
    fn cap_of(
        &mut self,
        alloc: Global,
        by_root: &RulesByRoot,
        lefts: &[Option<usize>],
        t: &Term,
        words: &mut Vec<u64>,
        ends: &mut Vec<End>,
    ) -> Result<NumberedCap, OutOfMemory>
        requires { HaveSameLefts by_root.now.rules lefts.now }
        ensures cap { (all : List HoledTree) → AreCaps by_root.now.rules lefts.now self.old all
            → IfOk result (λ found. AreMore by_root.now.rules lefts.now self.new all (IsCapped
            by_root.now.rules (tree t.now) found ends.old.items ends.new.items)) }
        ensures kept { OnOk result (KeepWords self.old.rows.rows.items self.new.rows.rows.items) }
        ensures longer { OnOk result (length ends.old.items ≤ length ends.new.items) }
        ensures words { OnOk result (words.new.items ≡ words.old.items) }
    {
        match t {
            Term::Var(_) => Ok(NumberedCap {
                cap: Cap::Open,
                number: 0,
                whole: 0,
            }),
            Term::App(f, args) => {
                let place = begin(by_root, *f, ends)?;
                let mut parts = Vec::with_capacity(alloc, args.items.len())?;
                let start = words.len();
                words.push(u64::from(*f))?;
                for arg in &args.items {
                    let part = self.cap_of(alloc, by_root, lefts, arg, words, ends)?;
                    let NumberedCap { cap, number, .. } = part;
                    parts.push(cap)?;
                    words.push(u64::from(number))?;
                }
                let found = self.close(alloc, by_root, lefts, *f, parts, &words[start..])?;
                words.truncate(start);
                finish(place, *f, found.whole, ends);
                Ok(found)
            }
        }
    }

    /// What stays of a symbol over the caps of its arguments: all of it, or a hole where it meets a
    /// left side. It is not inlined, so that the recursion over a deep term has little on the stack
    /// at each level.
    #[inline(never)]
    fn close(
        &mut self,
        alloc: Global,
        by_root: &RulesByRoot,
        lefts: &[Option<usize>],
        f: u32,
        parts: Vec<Cap>,
        key: &[u64],
    ) -> Result<NumberedCap, OutOfMemory>
        requires { HaveSameLefts by_root.now.rules lefts.now }
        ensures cap { (all : List HoledTree) (t : Tree)
            → AreCaps by_root.now.rules lefts.now self.old all
            → IsWhole by_root.now.rules false t (symbol f (holed_all parts.items))
            → HasKey all (symbol f (holed_all parts.items)) key.now
            → IfOk result (λ found. AreMore by_root.now.rules lefts.now self.new all
            (IsNumbered by_root.now.rules t found)) }
        ensures kept { OnOk result (KeepWords self.old.rows.rows.items self.new.rows.rows.items) }
    {
        let whole = Cap::Symbol(f, Parts { items: parts });
        let number = self.number_of(alloc, by_root, lefts, f, &whole, key)?;
        if self.is_kept(number) {
            return Ok(NumberedCap {
                cap: whole,
                number,
                whole: number,
            });
        }
        Ok(NumberedCap {
            cap: Cap::Open,
            number: 0,
            whole: number,
        })
    }

    /// The number of a cap with this root and this key.
    fn number_of(
        &mut self,
        alloc: Global,
        by_root: &RulesByRoot,
        lefts: &[Option<usize>],
        f: u32,
        cap: &Cap,
        key: &[u64],
    ) -> Result<u32, OutOfMemory>
        requires lefts { HaveSameLefts by_root.now.rules lefts.now }
        requires root { HasRoot f (holed cap.now) }
        ensures number { (all : List HoledTree) → AreCaps by_root.now.rules lefts.now self.old all
            → HasKey all (holed cap.now) key.now
            → IfOk result (λ n. AreMore by_root.now.rules lefts.now self.new all
            (λ grown. slice_get grown n ≡ Some (holed cap.now))) }
        ensures kept { OnOk result (KeepWords self.old.rows.rows.items self.new.rows.rows.items) }
    {
        if let Some(number) = self.keys.find(key) {
            return Ok(number);
        }
        let row = row_of(alloc, by_root, lefts, &self.noted, f, cap)?;
        let key = Vec::from_slice(alloc, key)?;
        self.add(alloc, key, row)
    }

    /// Adds a cap with this key and this row.
    fn add(&mut self, alloc: Global, key: Vec<u64>, row: Vec<u64>) -> Result<u32, OutOfMemory>
        ensures { IfOk result (λ n. AddsCap key row.items n self.old self.new) }
    {
        let number = self.keys.add(alloc, key)?;
        let row = self.rows.number_of(alloc, row)?;
        self.caps.push(row)?;
        Ok(number)
    }

    /// Whether a cap meets no left side.
    fn is_kept(&self, n: u32) -> bool
        ensures { (r : ℕ) (flags : List ℕ) → slice_get self.now.caps.items n ≡ Some r
            → HasWords self.now.rows.rows.items r flags → IsTrue result ↔ (flags ≡ []) }
    {
        match self.caps.get(n as usize) {
            Some(row) => self.rows.is_empty(*row),
            None => false,
        }
    }

    /// The number of the row of a cap.
    pub(crate) fn row_number(&self, n: u32) -> u32
        ensures { (r : ℕ) → slice_get self.now.caps.items n ≡ Some r → result ≡ r }
    {
        match self.caps.get(n as usize) {
            Some(row) => *row,
            None => 0,
        }
    }
}

/// Keeps a place for the end of a symbol, if that is defined.
fn begin(by_root: &RulesByRoot, f: u32, ends: &mut Vec<End>) -> Result<Option<usize>, OutOfMemory>
    ensures { IfOk result (Begins by_root.now.rules f ends.old.items ends.new.items) }
{
    if by_root.with_root(f).is_empty() {
        return Ok(None);
    }
    let place = ends.len();
    ends.push(End { symbol: f, cap: 0 })?;
    Ok(Some(place))
}

/// Puts the number of a cap at the place that was kept for it.
fn finish(place: Option<usize>, f: u32, cap: u32, ends: &mut Vec<End>)
    requires { IfSome place (λ k. k < length ends.old.items) }
    ensures { ends.new.items ≡ with_end place f cap ends.old.items }
{
    if let Some(k) = place {
        ends[k] = End { symbol: f, cap };
    }
}

/// The row of the left sides that a cap with this root meets: of those of rules with pairs all, and
/// if there is none, of the others the first.
fn row_of(
    alloc: Global,
    by_root: &RulesByRoot,
    lefts: &[Option<usize>],
    noted: &BTreeMap<u32, Vec<u32>>,
    f: u32,
    cap: &Cap,
) -> Result<Vec<u64>, OutOfMemory>
    requires lefts { HaveSameLefts by_root.now.rules lefts.now }
    requires root { HasRoot f (holed cap.now) }
    ensures { HaveAllNoted by_root.now.rules lefts.now noted.now → IfOk result
        (λ row. IsRow by_root.now.rules lefts.now (holed cap.now) row.items) }
{
    let mut row = flags_of(alloc, by_root, lefts, noted, f, cap)?;
    if row.is_empty() {
        if let Some(k) = first_other(alloc, by_root, lefts, f, cap)? {
            set(&mut row, k)?;
        }
    }
    Ok(row)
}

/// The first rule without pairs whose left side a cap with this root meets.
fn first_other(
    alloc: Global,
    by_root: &RulesByRoot,
    lefts: &[Option<usize>],
    f: u32,
    cap: &Cap,
) -> Result<Option<usize>, OutOfMemory>
    requires { HasRoot f (holed cap.now) }
    ensures { IfOk result (IsOther by_root.now.rules lefts.now (holed cap.now)) }
{
    let rules = by_root.rules();
    for k in by_root.with_root(f) {
        let rule = &rules[*k as usize];
        if meets_other(alloc, lefts, cap, rule, *k as usize)? {
            return Ok(Some(*k as usize));
        }
    }
    Ok(None)
}

/// Whether rule number `k` has no pairs, and the cap meets its left side.
fn meets_other(
    alloc: Global,
    lefts: &[Option<usize>],
    cap: &Cap,
    rule: &Rule,
    k: usize,
) -> Result<bool, OutOfMemory>
    ensures met { IfOk result (λ b. IsTrue b → MeetsLeft (holed cap.now) rule.now.left) }
    ensures all { IfOk result (λ b. slice_get lefts.now k ≡ Some None
        → MeetsLeft (holed cap.now) rule.now.left → IsTrue b) }
{
    match lefts.get(k) {
        Some(None) => cap.meets(alloc, &rule.left),
        _ => Ok(false),
    }
}

/// The flags of the rules with pairs whose left sides a cap with this root meets. Each left side is
/// looked at once.
fn flags_of(
    alloc: Global,
    by_root: &RulesByRoot,
    lefts: &[Option<usize>],
    noted: &BTreeMap<u32, Vec<u32>>,
    f: u32,
    cap: &Cap,
) -> Result<Vec<u64>, OutOfMemory>
    requires lefts { HaveSameLefts by_root.now.rules lefts.now }
    requires root { HasRoot f (holed cap.now) }
    ensures { HaveAllNoted by_root.now.rules lefts.now noted.now → IfOk result
        (λ row. HasFlags by_root.now.rules lefts.now (holed cap.now) row.items) }
{
    let rules = by_root.rules();
    let mut row = Vec::new(alloc);
    for k in numbers_at(noted, by_root, f) {
        look_at(alloc, lefts, cap, rules, *k as usize, &mut row)?;
    }
    Ok(row)
}

/// Sets the flag of rule number `k`, if it is noted for its left side and the cap meets that.
fn look_at(
    alloc: Global,
    lefts: &[Option<usize>],
    cap: &Cap,
    rules: &[Rule],
    k: usize,
    row: &mut Vec<u64>,
) -> Result<(), OutOfMemory>
    ensures { OnOk result (LooksAtLeft rules.now lefts.now (holed cap.now) k
        row.old.items row.new.items) }
{
    let Some(rule) = rules.get(k) else {
        return Ok(());
    };
    if !is_noted(lefts, k) {
        return Ok(());
    }
    if cap.meets(alloc, &rule.left)? {
        set(row, k)?;
    }
    Ok(())
}
