//! Closures as tokens.
ghost use Rattle.std.specs.Prelude.{◌≡◌, ◌<◌, ◌≤◌, ℕ, List, [], ◌∷◌, ◌++◌, Some, false, length, slice_get, IfOk, OnOk, MatchOption};
ghost use Rattle.trs_defs.specs.Tree.{Tree};
ghost use Rattle.trs_core.specs.SystemLimits.{AreBytes};
ghost use Rattle.trs_core.specs.View.{tree};
ghost use Rattle.term_pool.specs.Redexes.{IsNarrow};
ghost use Rattle.loop_find.specs.Closures.{Closure};
ghost use Rattle.loop_find.specs.Flat.{AreTokensOf};
ghost use Rattle.loop_find.specs.LoopRow.{LoopsNot, Recurs};
ghost use Rattle.loop_find.specs.Links.{closures_of, path_to, IsFit, IsSound};
ghost use Rattle.loop_find.specs.Tries.{IsFoundOf};

use crate::decoding::read_term;
use crate::found::LoopFound;
use crate::instances::first_instance;
use crate::recurring::may_recur;
use crate::running::leads;
use crate::tokens::{SideTokens, Token, part, put_tokens};
use rewrite_core::PathStep;
use std::alloc::Global;
use trs_core::{OutOfMemory, Position, Rule, Term, Trs};

/// A closure: the places of the tokens of its sides, where the last ones end, the number of the
/// closure that it extends, if it extends one, and the last step of its path.
#[derive(Drop)]
pub(crate) struct Link {
    pub left: usize,
    pub right: usize,
    pub end: usize,
    pub before: Option<usize>,
    pub step: PathStep,
}

/// The closures so far, by their numbers from 0, with the tokens of their sides, and how many
/// attempts were made; and what rules were renamed apart for them.
#[derive(Drop)]
pub(crate) struct Closures {
    pub tokens: Vec<Token>,
    pub links: Vec<Link>,
    pub attempts: u64,
    /// The rules that were needed, renamed apart, by their numbers.
    pub copies: Vec<Option<Rule>>,
}

/// The sides of a closure.
#[derive(Drop)]
pub(crate) struct Sides {
    pub left: Term,
    pub right: Term,
}

pub(crate) fn no_closures(alloc: Global, copies: Vec<Option<Rule>>) -> Closures
    ensures none { closures_of result ≡ [] }
    ensures sound { (arities : List ℕ) → IsSound arities result }
    ensures attempts { result.attempts ≡ 0 }
    ensures copies { result.copies ≡ copies }
{
    Closures {
        tokens: Vec::new(alloc),
        links: Vec::new(alloc),
        attempts: 0,
        copies,
    }
}

impl Closures {
    /// Adds a closure, whose path has one more step than that of the closure that it extends.
    pub fn add(
        &mut self,
        sides: &SideTokens,
        before: Option<usize>,
        step: PathStep,
    ) -> Result<(), OutOfMemory>
        requires sound { (arities : List ℕ) × IsSound arities self.old }
        requires earlier { (b : ℕ) → before ≡ Some b → b < length self.old.links.items }
        ensures added { OnOk result ((l r : Tree) → AreTokensOf sides.now l r
            → closures_of self.new ≡ closures_of self.old ++ (record {
              left = l;
              right = r;
              path = path_to (closures_of self.old) before ++ step ∷ [];
            }) ∷ []) }
        ensures sound { OnOk result ((arities : List ℕ) (l r : Tree) → AreTokensOf sides.now l r
            → IsSound arities self.old → IsFit arities l → IsFit arities r
            → IsSound arities self.new) }
        ensures attempts { self.new.attempts ≡ self.old.attempts }
        ensures copies { self.new.copies ≡ self.old.copies }
    {
        let left = self.tokens.len();
        self.tokens.extend_from_slice(&sides.left)?;
        let right = self.tokens.len();
        self.tokens.extend_from_slice(&sides.right)?;
        let end = self.tokens.len();
        self.links.push(Link {
            left,
            right,
            end,
            before,
            step,
        })?;
        Ok(())
    }

    /// Adds a closure that extends none, and whose path is one step.
    pub fn add_first(
        &mut self,
        left: &Term,
        right: &Term,
        step: PathStep,
    ) -> Result<(), OutOfMemory>
        requires sound { (arities : List ℕ) × IsSound arities self.old }
        ensures added { OnOk result (closures_of self.new ≡ closures_of self.old ++ (record {
          left = tree left.now;
          right = tree right.now;
          path = step ∷ [];
        }) ∷ []) }
        ensures sound { OnOk result ((arities : List ℕ) → IsSound arities self.old
            → IsFit arities (tree left.now) → IsFit arities (tree right.now)
            → IsSound arities self.new) }
        ensures attempts { self.new.attempts ≡ self.old.attempts }
        ensures copies { self.new.copies ≡ self.old.copies }
    {
        let start = self.tokens.len();
        put_tokens(left, &mut self.tokens)?;
        let middle = self.tokens.len();
        put_tokens(right, &mut self.tokens)?;
        let end = self.tokens.len();
        self.links.push(Link {
            left: start,
            right: middle,
            end,
            before: None,
            step,
        })?;
        Ok(())
    }

    /// The sides of the closure of this number.
    pub fn sides(&self, alloc: Global, number: usize) -> Result<Sides, OutOfMemory>
        requires sound { (arities : List ℕ) × IsSound arities self.now }
        requires there { number < length self.now.links.items }
        ensures { IfOk result (λ s. (c : Closure)
            → slice_get (closures_of self.now) number ≡ Some c
            → (tree s.left ≡ c.left) × (tree s.right ≡ c.right)) }
    {
        let link = self.link_at(number);
        let left = read_term(alloc, part(&self.tokens, link.left, link.right))?;
        let right = read_term(alloc, part(&self.tokens, link.right, link.end))?;
        Ok(Sides { left, right })
    }

    fn link_at(&self, number: usize) -> &Link
        requires { number < length self.now.links.items }
        ensures { slice_get self.now.links.items number ≡ Some result.now }
    {
        &self.links[number]
    }

    /// The path of the closure of this number.
    fn path(&self, alloc: Global, number: usize) -> Result<Vec<PathStep>, OutOfMemory>
        requires sound { (arities : List ℕ) × IsSound arities self.now }
        requires there { number < length self.now.links.items }
        ensures { IfOk result (λ path. (c : Closure)
            → slice_get (closures_of self.now) number ≡ Some c → path.items ≡ c.path) }
    {
        let mut steps = Vec::new(alloc);
        let mut at = Some(number);
        while let Some(i) = at {
            let link = self.link_at(i);
            let step = link.step.copy(alloc)?;
            steps.push(step)?;
            at = link.before;
        }
        steps.reverse();
        Ok(steps)
    }

    /// Whether the left side of the closure of this number may recur in its right side.
    fn may_loop(&self, number: usize) -> bool
        requires sound { (arities : List ℕ) × IsSound arities self.now }
        requires there { number < length self.now.links.items }
        ensures { result ≡ false → (c : Closure) (q : List ℕ)
            → slice_get (closures_of self.now) number ≡ Some c → Recurs c.left c.right q → ⊥ }
    {
        let link = self.link_at(number);
        may_recur(
            part(&self.tokens, link.left, link.right),
            part(&self.tokens, link.right, link.end),
        )
    }

    /// The loop of the closure of this number, if it loops.
    pub fn loop_of(
        &self,
        alloc: Global,
        trs: &Trs,
        number: usize,
    ) -> Result<Option<LoopFound>, OutOfMemory>
        requires sound { IsSound trs.now.arities self.now }
        requires arities { AreBytes trs.now.arities }
        requires there { number < length self.now.links.items }
        ensures { IfOk result (λ found. (c : Closure)
            → slice_get (closures_of self.now) number ≡ Some c
            → MatchOption found (LoopsNot trs.now.rules c) (IsFoundOf trs.now.rules c)) }
    {
        if !self.may_loop(number) {
            return Ok(None);
        }
        let sides = self.sides(alloc, number)?;
        let found = self.loop_through(alloc, trs, number, sides)?;
        Ok(found)
    }

    /// The loop of the closure of this number, whose sides are given.
    fn loop_through(
        &self,
        alloc: Global,
        trs: &Trs,
        number: usize,
        sides: Sides,
    ) -> Result<Option<LoopFound>, OutOfMemory>
        requires sound { (arities : List ℕ) × IsSound arities self.now }
        requires there { number < length self.now.links.items }
        requires narrow { IsNarrow (tree sides.right) }
        requires sides { (c : Closure) → slice_get (closures_of self.now) number ≡ Some c
            → (tree sides.left ≡ c.left) × (tree sides.right ≡ c.right) }
        ensures { IfOk result (λ found. (c : Closure)
            → slice_get (closures_of self.now) number ≡ Some c
            → MatchOption found (LoopsNot trs.now.rules c) (IsFoundOf trs.now.rules c)) }
    {
        let mut place = Vec::new(alloc);
        if !first_instance(alloc, &sides.left, &sides.right, &mut place)? {
            return Ok(None);
        }
        let path = self.path(alloc, number)?;
        if !leads(alloc, trs, &sides.left, &sides.right, &path)? {
            return Ok(None);
        }
        let start = sides.left.copy(alloc)?;
        let at = Position::of(alloc, &place)?;
        Ok(Some(LoopFound {
            start,
            path,
            place: at,
        }))
    }
}
