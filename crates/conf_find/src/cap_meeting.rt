//! Shared caps that unify with left sides.
ghost use Rattle.std.specs.Prelude.{◌<◌, ◌↔◌, All, length, true, IsTrue, IfOk, OnOk};
ghost use Rattle.trs_defs.specs.Tree.{Trees, app, var};
ghost use Rattle.trs_core.specs.View.{tree};
ghost use Rattle.trs_caps.specs.HoledCap.{IsHoledCap, AreHoledCaps, HasRoot, MeetsLeft, MeetsSome};
ghost use Rattle.conf_find.specs.SharedCaps.{cap_at, parts_at, KeepsCaps};
ghost use Rattle.conf_find.specs.SharedCaps.{AreFirsts, StillFits, Suffices};

use crate::cap_node::CapNode;
use crate::first_parts::FirstParts;
use crate::shared_caps::SharedCaps;
use std::alloc::Global;
use term_pool::RulesByRoot;
use trs_core::{OutOfMemory, Rule, Term};

impl SharedCaps {
    /// Adds what stays of a symbol over the caps of its arguments: all of it, or a hole where it
    /// unifies with a left side. It is not inlined, for the stack of deep terms.
    #[inline(never)]
    pub(crate) fn add_symbol(
        &mut self,
        alloc: Global,
        by_root: &RulesByRoot,
        f: u32,
        parts: Vec<u32>,
    ) -> Result<u32, OutOfMemory>
        requires { All (λ k. k < length self.old) parts.items }
        ensures there { IfOk result (λ k. k < length self.new) }
        ensures cap { IfOk result (λ k. (ts : Trees)
            → AreHoledCaps by_root.now.rules true ts (parts_at self.old parts.items)
            → IsHoledCap by_root.now.rules true (app f ts) (cap_at self.new k)) }
        ensures kept { OnOk result (KeepsCaps self.old self.new) }
    {
        let whole = self.add(CapNode::Symbol(f, parts))?;
        if self.meets_some(alloc, by_root, f, whole)? {
            self.add(CapNode::Open)
        } else {
            Ok(whole)
        }
    }

    /// Whether a cap with this root unifies with a left side.
    fn meets_some(
        &self,
        alloc: Global,
        by_root: &RulesByRoot,
        f: u32,
        k: u32,
    ) -> Result<bool, OutOfMemory>
        requires there { k < length self.now }
        requires root { HasRoot f (cap_at self.now k) }
        ensures { IfOk result (λ yes. MeetsSome (cap_at self.now k) by_root.now.rules yes) }
    {
        let rules = by_root.rules();
        for n in by_root.with_root(f) {
            let rule = &rules[*n as usize];
            if self.meets_rule(alloc, k, rule)? {
                return Ok(true);
            }
        }
        Ok(false)
    }

    fn meets_rule(&self, alloc: Global, k: u32, rule: &Rule) -> Result<bool, OutOfMemory>
        requires { k < length self.now }
        ensures { IfOk result (λ yes. IsTrue yes ↔ MeetsLeft (cap_at self.now k) rule.now.left) }
    {
        self.meets(alloc, k, &rule.left)
    }

    /// Whether a cap unifies with a term, renamed apart. It is made anew only where the two are not
    /// seen to differ, and the parts at some variable are kept by more than one number.
    fn meets(&self, alloc: Global, k: u32, left: &Term) -> Result<bool, OutOfMemory>
        requires { k < length self.now }
        ensures { IfOk result (λ yes. IsTrue yes ↔ MeetsLeft (cap_at self.now k) (tree left.now)) }
    {
        let mut firsts = FirstParts::new(alloc);
        if self.differs(k, left, &mut firsts)? {
            return Ok(false);
        }
        if firsts.are_all {
            return Ok(true);
        }
        let cap = self.cap(alloc, k)?;
        cap.meets(alloc, left)
    }

    /// Whether a cap and a term are seen to differ, at a place or by the parts of the cap that stand
    /// at one variable. The first of these parts is noted.
    fn differs(&self, k: u32, left: &Term, firsts: &mut FirstParts) -> Result<bool, OutOfMemory>
        requires there { k < length self.now }
        requires firsts { AreFirsts self.now firsts.old }
        ensures fits { IfOk result (
            StillFits self.now (cap_at self.now k) (tree left.now) firsts.old firsts.new) }
        ensures suffices { IfOk result (
            Suffices self.now (cap_at self.now k) (tree left.now) firsts.old firsts.new) }
        ensures firsts { OnOk result (AreFirsts self.now firsts.new) }
    {
        match (left, self.node(k)) {
            (_, CapNode::Open) => Ok(false),
            (Term::Var(v), _) => self.differs_from_first(*v, k, firsts),
            (Term::App(_, _), CapNode::Own(_)) => Ok(true),
            (Term::App(f, args), CapNode::Symbol(g, parts)) => {
                let caps = parts.as_slice();
                if *f != *g || args.items.len() != caps.len() {
                    return Ok(true);
                }
                for (i, arg) in args.items.iter().enumerate() {
                    if self.differs(caps[i], arg, firsts)? {
                        return Ok(true);
                    }
                }
                Ok(false)
            }
        }
    }

    /// Whether the part of a cap at a variable differs from the first one there, which it is if
    /// there is none yet.
    fn differs_from_first(
        &self,
        v: u32,
        k: u32,
        firsts: &mut FirstParts,
    ) -> Result<bool, OutOfMemory>
        requires there { k < length self.now }
        requires firsts { AreFirsts self.now firsts.old }
        ensures fits { IfOk result (
            StillFits self.now (cap_at self.now k) (var v) firsts.old firsts.new) }
        ensures suffices { IfOk result (
            Suffices self.now (cap_at self.now k) (var v) firsts.old firsts.new) }
        ensures firsts { OnOk result (AreFirsts self.now firsts.new) }
    {
        if let Some(first) = firsts.numbers.get(&v) {
            firsts.are_all = firsts.are_all && *first == k;
            return Ok(self.clashes(*first, k));
        }
        firsts.numbers.insert(v, k)?;
        Ok(false)
    }
}
