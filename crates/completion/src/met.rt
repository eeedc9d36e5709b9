ghost use Rattle.std.specs.Prelude.{◌≡◌, ◌<◌, ◌≤◌, ◌∷◌, ◌++◌, [], List, length, take, IfOk, IfSome, OnOk};
ghost use Rattle.trs_defs.specs.System.{RewriteRule};
ghost use Rattle.trs_core.specs.View.{tree};
ghost use Rattle.term_pool.specs.Pooled.{Extends, StandsFor, tree_at};
ghost use Rattle.term_pool.specs.LeftSides.{IsGround};
ghost use Rattle.crit_pairs.specs.Table.{HasPeaks, HasFirstPeaks};
ghost use Rattle.completion.specs.MetTerms.{IsMet, KeepsBase};

use crate::growing::GrowingTrs;
use crate::passed_ids::PassedIds;
use crit_pairs::PeakTable;
use std::alloc::Global;
use term_pool::Pool;
use trs_core::{OutOfMemory, Rule, Term, least_variable};

/// The most ids that steps add before all of them but those of the term at hand are given up.
const MOST_ADDED: u32 = 65_536;

/// The most ids behind the base that are kept from one pair of terms to the next.
const MOST_KEPT: u32 = 524_288;

/// The terms that were met on the way to normal forms by the rules so far. They stay while rules are
/// added.
#[derive(Drop)]
pub(crate) struct Met {
    pub(crate) pool: Pool,
    pub(crate) passed: PassedIds,
    /// The ids of left sides with no variable, by the numbers of their rules.
    pub(crate) sides: Vec<Option<u32>>,
    /// The ids below it are never given up.
    pub(crate) base: u32,
    /// How many ids there may be before some are given up.
    pub(crate) most: u32,
}

impl Met {
    /// No term was met, and there are no rules. It takes no memory.
    pub(crate) fn new(alloc: Global) -> Met
        ensures { IsMet [] result }
    {
        Met {
            pool: Pool::new(alloc),
            passed: PassedIds::new(alloc),
            sides: Vec::new(alloc),
            base: 0,
            most: MOST_ADDED,
        }
    }

    /// Where many terms were met, all but those below the base are forgotten.
    pub(crate) fn make_room(&mut self)
        requires { self.old.base ≤ length self.old.pool }
        ensures kept { KeepsBase self.old self.new }
        ensures met { (rules : List RewriteRule) → IsMet rules self.old → IsMet rules self.new }
    {
        self.forget_over(self.base.saturating_add(MOST_KEPT));
    }

    /// Where there are more than so many ids, all but those below the base are forgotten.
    fn forget_over(&mut self, most: u32)
        requires { self.old.base ≤ length self.old.pool }
        ensures kept { KeepsBase self.old self.new }
        ensures met { (rules : List RewriteRule) → IsMet rules self.old → IsMet rules self.new }
    {
        if self.pool.len() > most {
            self.forget_from(self.base);
        }
    }

    /// Forgets the terms from the mark on.
    fn forget_from(&mut self, mark: u32)
        requires marked { mark ≤ length self.old.pool }
        requires base { self.old.base ≤ mark }
        ensures pool { self.new.pool ≡ take mark self.old.pool }
        ensures base { self.new.base ≡ self.old.base }
        ensures met { (rules : List RewriteRule) → IsMet rules self.old → IsMet rules self.new }
    {
        self.pool.release(mark);
        self.passed.forget_from(mark);
    }

    /// All ids are below the base now.
    fn raise_base(&mut self)
        ensures pool { self.new.pool ≡ self.old.pool }
        ensures base { self.new.base ≡ length self.old.pool }
        ensures met { (rules : List RewriteRule) → IsMet rules self.old → IsMet rules self.new }
    {
        self.base = self.pool.len();
    }

    /// The id of a term, with room for the terms that steps lead to.
    pub(crate) fn intern(&mut self, alloc: Global, t: &Term) -> Result<u32, OutOfMemory>
        ensures id { IfOk result (λ id. StandsFor self.new.pool id (tree t.now)) }
        ensures kept { Extends self.old.pool self.new.pool }
        ensures base { self.new.base ≡ self.old.base }
        ensures met { (rules : List RewriteRule) → IsMet rules self.old → IsMet rules self.new }
    {
        let id = self.pool.intern(alloc, t)?;
        self.most = self.pool.len().saturating_add(MOST_ADDED);
        Ok(id)
    }

    /// The id of the same term. Where steps have added many ids, those from the mark on are given up
    /// but for its own, so that many steps take little memory.
    pub(crate) fn carry_over(
        &mut self,
        alloc: Global,
        mark: u32,
        id: u32,
    ) -> Result<u32, OutOfMemory>
        requires there { id < length self.old.pool }
        requires marked { mark ≤ length self.old.pool }
        requires base { self.old.base ≤ mark }
        ensures same { IfOk result (λ new.
            tree_at self.new.pool new ≡ tree_at self.old.pool id) }
        ensures there { IfOk result (λ new. new < length self.new.pool) }
        ensures kept { OnOk result (Extends (take mark self.old.pool) self.new.pool) }
        ensures base { OnOk result (self.new.base ≡ self.old.base) }
        ensures met { OnOk result ((rules : List RewriteRule) →
            IsMet rules self.old → IsMet rules self.new) }
    {
        if self.pool.len() <= self.most {
            return Ok(id);
        }
        let term = self.pool.read(alloc, id)?;
        self.forget_from(mark);
        self.intern(alloc, &term)
    }

    /// A table with the peaks of all rules of the system, whose terms are below the base. `None`
    /// where the peaks pass a limit.
    pub(crate) fn grow_table(
        &mut self,
        alloc: Global,
        system: &GrowingTrs,
        table: PeakTable,
    ) -> Result<Option<PeakTable>, OutOfMemory>
        requires met { IsMet system.now.rules self.old }
        requires table { HasFirstPeaks system.now.rules
            (take self.old.base self.old.pool) table }
        ensures peaks { IfOk result (λ grown. IfSome grown (
            HasPeaks system.now.rules (take self.new.base self.new.pool))) }
        ensures met { OnOk result (IsMet system.now.rules self.new) }
    {
        self.forget_over(MOST_KEPT);
        let grown = table.grow(alloc, system.rules(), &mut self.pool)?;
        self.raise_base();
        Ok(grown)
    }

    /// One more rule, behind the others.
    pub(crate) fn add_rule(&mut self, alloc: Global, rule: &Rule) -> Result<(), OutOfMemory>
        requires { self.old.base ≤ length self.old.pool }
        ensures kept { OnOk result (Extends (take self.old.base self.old.pool)
            (take self.new.base self.new.pool)) }
        ensures met { OnOk result ((rules : List RewriteRule) → IsMet rules self.old
            → IsMet (rules ++ rule.now ∷ []) self.new) }
    {
        let side = self.ground_side(alloc, &rule.left)?;
        self.sides.push(side)?;
        Ok(())
    }

    /// The id of a left side with no variable, which is below the base then.
    fn ground_side(&mut self, alloc: Global, t: &Term) -> Result<Option<u32>, OutOfMemory>
        requires { self.old.base ≤ length self.old.pool }
        ensures id { IfOk result (λ found. IfSome found (λ id.
            StandsFor (take self.new.base self.new.pool) id (tree t.now))) }
        ensures ground { IfOk result (λ found. IfSome found (λ _. IsGround (tree t.now))) }
        ensures kept { OnOk result (Extends (take self.old.base self.old.pool)
            (take self.new.base self.new.pool)) }
        ensures met { OnOk result ((rules : List RewriteRule) →
            IsMet rules self.old → IsMet rules self.new) }
    {
        let least = least_variable(t, 0, None);
        if let Some(_) = least {
            return Ok(None);
        }
        self.forget_over(MOST_KEPT);
        let id = self.intern(alloc, t)?;
        self.raise_base();
        Ok(Some(id))
    }
}
