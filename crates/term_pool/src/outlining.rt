ghost use Rattle.std.specs.Prelude.{◌≡◌, ◌<◌, ◌≤◌, ◌+◌, ℕ, List, Some, All, map, length, slice_get, IfOk, IfSome, OnOk};
ghost use Rattle.trs_defs.specs.Tree.{app};
ghost use Rattle.trs_defs.specs.Size.{size_of};
ghost use Rattle.trs_defs.specs.System.{RewriteRule};
ghost use Rattle.trs_core.specs.View.{tree, forest};
ghost use Rattle.term_pool.specs.Pooled.{Extends};
ghost use Rattle.term_pool.specs.Outlines.{AreOutlines, IsOutlineOf, part_variable};

use crate::bindings::part;
use crate::nodes::Node;
use crate::outlines::Outlines;
use crate::{PathStep, Pool};
use smallvec::SmallVec;
use std::alloc::Global;
use trs_core::{Args, MOST_VARIABLES, OutOfMemory, Rule, Term, Trs, systems_are_valid};

/// Paths with fewer steps make them by the rules themselves.
const MANY_STEPS: usize = 64;

/// Rules that a path uses less often have no outline.
const MANY_USES: u32 = 8;

impl Pool {
    /// Outlines of the rules that a long path uses often. It adds at most as many ids as the rules
    /// have nodes, one for each part that the pool lacks.
    pub(crate) fn outlines_of(
        &mut self,
        alloc: Global,
        trs: &Trs,
        path: &[PathStep],
    ) -> Result<Outlines, OutOfMemory>
        ensures outlines { IfOk result (AreOutlines trs.now.rules self.new) }
        ensures kept { Extends self.old self.new }
        ensures few { IfOk result (λ _. length self.new ≤ length self.old + 65536) }
    {
        systems_are_valid(trs);
        let mut outlines = Outlines::new(alloc);
        if path.len() < MANY_STEPS {
            return Ok(outlines);
        }
        let rules = trs.rules();
        let uses = uses_of_rules(alloc, rules.len(), path)?;
        for (k, rule) in rules.iter().enumerate() {
            self.add_outline(alloc, rule, k as u32, uses[k], &mut outlines)?;
        }
        Ok(outlines)
    }

    /// Adds the outline of rule `k`, if that is used often.
    fn add_outline(
        &mut self,
        alloc: Global,
        rule: &Rule,
        k: u32,
        uses: u32,
        outlines: &mut Outlines,
    ) -> Result<(), OutOfMemory>
        ensures outlines { (rules : List RewriteRule) → slice_get rules k ≡ Some rule.now
            → AreOutlines rules self.old outlines.old
            → OnOk result (AreOutlines rules self.new outlines.new) }
        ensures kept { Extends self.old self.new }
        ensures few { OnOk result (length self.new
            ≤ length self.old + (size_of rule.now.left + size_of rule.now.right)) }
    {
        if uses < MANY_USES {
            return Ok(());
        }
        let left = self.outline(alloc, &rule.left)?;
        let right = self.outline(alloc, &rule.right)?;
        outlines.by_rule.insert(k, Rule { left, right })?;
        Ok(())
    }

    /// A term in which a variable that no rule has stands for the id of each part with no variable.
    fn outline(&mut self, alloc: Global, t: &Term) -> Result<Term, OutOfMemory>
        ensures outline { IfOk result (λ o. IsOutlineOf self.new (tree t.now) (tree o)) }
        ensures kept { Extends self.old self.new }
        ensures few { IfOk result (λ _. length self.new ≤ length self.old + size_of (tree t.now)) }
    {
        match t {
            Term::Var(v) => Ok(Term::Var(*v)),
            Term::App(f, args) => {
                let mut items = Vec::with_capacity(alloc, args.items.len())?;
                for arg in &args.items {
                    items.push(self.outline(alloc, arg)?)?;
                }
                self.close(alloc, *f, items)
            }
        }
    }

    /// The term of a symbol over these arguments, or the variable for its id where each of them
    /// stands for one.
    fn close(&mut self, alloc: Global, f: u32, items: Vec<Term>) -> Result<Term, OutOfMemory>
        ensures outline { IfOk result (λ o.
            IsOutlineOf self.new (app f (forest items.items)) (tree o)) }
        ensures kept { Extends self.old self.new }
        ensures few { length self.new ≤ length self.old + 1 }
    {
        let Some(ids) = part_ids(alloc, &items, self.len())? else {
            return Ok(Term::App(f, Args { items }));
        };
        let id = self.add(Node::App(f, ids))?;
        variable_for(id)
    }
}

/// The variable that stands for an id. The last ids have none.
fn variable_for(id: u32) -> Result<Term, OutOfMemory>
    ensures { IfOk result (λ t. tree t ≡ part_variable id) }
{
    match MOST_VARIABLES.checked_add(id) {
        Some(v) => Ok(Term::Var(v)),
        None => Err(OutOfMemory),
    }
}

/// The ids for which terms stand, if each of them is a variable for an id below `parts`.
fn part_ids(
    alloc: Global,
    items: &[Term],
    parts: u32,
) -> Result<Option<SmallVec<u32, 4, Global>>, OutOfMemory>
    ensures variables { IfOk result (λ found. IfSome found (λ ids.
        map part_variable ids.items ≡ map tree items.now)) }
    ensures below { IfOk result (λ found. IfSome found (λ ids. All (λ id. id < parts) ids.items)) }
{
    let mut ids = SmallVec::new(alloc);
    for item in items {
        let Term::Var(v) = item else {
            return Ok(None);
        };
        let Some(id) = part(parts, *v) else {
            return Ok(None);
        };
        ids.push(id)?;
    }
    Ok(Some(ids))
}

/// How often a path uses each of so many rules. It stands still at the last `u32`.
fn uses_of_rules(alloc: Global, count: usize, path: &[PathStep]) -> Result<Vec<u32>, OutOfMemory>
    ensures { IfOk result (λ uses. length uses.items ≡ count) }
{
    let mut uses = vec![in alloc; 0u32; count]?;
    for step in path {
        if let Some(times) = uses.get_mut(step.rule as usize) {
            *times = times.saturating_add(1);
        }
    }
    Ok(uses)
}
