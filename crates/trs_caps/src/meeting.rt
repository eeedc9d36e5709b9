ghost use Rattle.std.specs.Prelude.{◌≡◌, ◌≤◌, ◌+◌, ◌↔◌, ℕ, IfOk, OnOk, IsTrue};
ghost use Rattle.trs_defs.specs.Tree.{var};
ghost use Rattle.trs_core.specs.View.{tree};
ghost use Rattle.trs_caps.specs.HoledCap.{MeetsLeft};
ghost use Rattle.trs_caps.specs.Parts.{HaveInstances, Adds, Walks, FitsBetween};
ghost use Rattle.trs_caps.specs.PartLists.{caps_of, parts_at};
ghost use Rattle.trs_caps.specs.View.{holed};

use crate::Cap;
use crate::agreeing::agree;
use std::alloc::Global;
use std::collections::BTreeMap;
use trs_core::{OutOfMemory, Term};

impl Cap {
    /// Whether the cap unifies with a term renamed apart, its own variables as constants: whether
    /// some instance of the term fits it. It takes steps for each place that both have, and for each
    /// place that two parts of the cap at one variable have.
    pub fn meets(&self, alloc: Global, left: &Term) -> Result<bool, OutOfMemory>
        ensures { IfOk result (λ yes. IsTrue yes ↔ MeetsLeft (holed self.now) (tree left.now)) }
    {
        if self.differs(left) {
            return Ok(false);
        }
        if self.fits_in_order(left, &mut 0) {
            return Ok(true);
        }
        let mut parts = BTreeMap::new(alloc);
        if !walk(alloc, self, left, &mut parts)? {
            return Ok(false);
        }
        all_agree(alloc, parts)
    }

    /// Whether the two have different roots at a place. It takes no memory, so that it comes first:
    /// most left sides differ.
    fn differs(&self, left: &Term) -> bool
        ensures { IsTrue result → MeetsLeft (holed self.now) (tree left.now) → ⊥ }
    {
        match (self, left) {
            (Cap::Open, _) => false,
            (_, Term::Var(_)) => false,
            (Cap::Own(_), Term::App(_, _)) => true,
            (Cap::Symbol(f, cs), Term::App(g, ts)) => {
                if *f != *g || cs.items.len() != ts.items.len() {
                    return true;
                }
                for (i, c) in cs.items.iter().enumerate() {
                    if c.differs(&ts.items[i]) {
                        return true;
                    }
                }
                false
            }
        }
    }

    /// Whether the two have one root at each place that both have, and the variables below which the
    /// cap has parts come in order, each once. Then the two unify. It takes no memory, and most left
    /// sides that do not differ are seen to unify so.
    fn fits_in_order(&self, left: &Term, next: &mut u32) -> bool
        ensures { IsTrue result
            → FitsBetween (holed self.now) (tree left.now) next.old next.new }
    {
        match (self, left) {
            (Cap::Open, _) => true,
            (Cap::Own(_), Term::Var(v)) => pass(*v, next),
            (Cap::Symbol(_, _), Term::Var(v)) => pass(*v, next),
            (Cap::Own(_), Term::App(_, _)) => false,
            (Cap::Symbol(f, cs), Term::App(g, ts)) => {
                if *f != *g || cs.items.len() != ts.items.len() {
                    return false;
                }
                for (i, c) in cs.items.iter().enumerate() {
                    if !c.fits_in_order(&ts.items[i], next) {
                        return false;
                    }
                }
                true
            }
        }
    }
}

/// Whether a variable comes from the next one on, which is behind it then.
fn pass(v: u32, next: &mut u32) -> bool
    ensures { IsTrue result → next.old ≤ v × (next.new ≡ v + 1) }
{
    if v < *next || v == u32::MAX {
        return false;
    }
    *next = v + 1;
    true
}

/// Goes through a cap and a left side, and adds the parts of the cap at the left side's variables.
/// `false` where the two differ.
fn walk<'a>(
    alloc: Global,
    cap: &'a Cap,
    left: &Term,
    parts: &mut BTreeMap<u32, Vec<&'a Cap>>,
) -> Result<bool, OutOfMemory>
    ensures { IfOk result
        (Walks (holed cap.now) (tree left.now) (parts_at parts.old) (parts_at parts.new)) }
{
    match (cap, left) {
        (Cap::Open, _) => Ok(true),
        (_, Term::Var(v)) => {
            add_part(alloc, *v, cap, parts)?;
            Ok(true)
        }
        (Cap::Own(_), Term::App(_, _)) => Ok(false),
        (Cap::Symbol(f, cs), Term::App(g, ts)) => {
            if *f != *g || cs.items.len() != ts.items.len() {
                return Ok(false);
            }
            for (i, c) in cs.items.iter().enumerate() {
                if !walk(alloc, c, &ts.items[i], parts)? {
                    return Ok(false);
                }
            }
            Ok(true)
        }
    }
}

/// Adds a part at a variable.
fn add_part<'a>(
    alloc: Global,
    v: u32,
    part: &'a Cap,
    parts: &mut BTreeMap<u32, Vec<&'a Cap>>,
) -> Result<(), OutOfMemory>
    ensures { OnOk result
        (Adds (holed part.now) (var v) (parts_at parts.old) (parts_at parts.new)) }
{
    let mut there = take_parts(alloc, v, parts);
    there.push(part)?;
    parts.insert(v, there)?;
    Ok(())
}

/// Takes out the parts at a variable.
fn take_parts<'a>(alloc: Global, v: u32, parts: &mut BTreeMap<u32, Vec<&'a Cap>>) -> Vec<&'a Cap>
    ensures taken { caps_of result.items ≡ parts_at parts.old v }
    ensures others { (w : ℕ) → (w ≡ v → ⊥) → parts_at parts.new w ≡ parts_at parts.old w }
{
    match parts.remove(&v) {
        Some(there) => there,
        None => Vec::new(alloc),
    }
}

/// Whether the parts at each variable have a common instance.
fn all_agree(alloc: Global, mut parts: BTreeMap<u32, Vec<&Cap>>) -> Result<bool, OutOfMemory>
    ensures { IfOk result (λ yes. IsTrue yes ↔ HaveInstances (parts_at parts.entry)) }
{
    while let Some((_, there)) = parts.pop_first() {
        if !agree(alloc, &there)? {
            return Ok(false);
        }
    }
    Ok(true)
}
