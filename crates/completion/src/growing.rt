ghost use Rattle.std.specs.Prelude.{◌≡◌, ◌<◌, ◌↔◌, ◌+◌, ℕ, [], ◌∷◌, ◌++◌, min, All, IfErr, IfOk, IfSome, IsTrue, OnOk, length};
ghost use Rattle.trs_defs.specs.Size.{size_of, within_limits};
ghost use Rattle.trs_defs.specs.System.{IsSystem};
ghost use Rattle.trs_defs.specs.Path.{StepsAt};
ghost use Rattle.trs_core.specs.SystemLimits.{AreBytes, HaveSmallVariables, IsWithinLimits};
ghost use Rattle.trs_core.specs.Valid.{system};
ghost use Rattle.trs_core.specs.View.{tree};
ghost use Rattle.term_pool.specs.Pooled.{Extends, tree_at};
ghost use Rattle.term_pool.specs.Roots.{with_root};
ghost use Rattle.term_pool.specs.Steps.{IsStepFault};
ghost use Rattle.completion.specs.Endings.{with_rules};
ghost use Rattle.completion.specs.Growing.{HasNumber, numbers_at, single};
ghost use Rattle.completion.specs.Treating.{whole, HasRoom};

use std::alloc::Global;
use std::marker::Model;
use term_pool::{Pool, StepFault};
use trs_core::{MOST_NODES, MOST_RULES, OutOfMemory, Position, Rule, Term, Trs, systems_are_valid};

/// A system to which rules are added one by one, each at the cost of its own sides and of the arity
/// table. Contracts see it as the system.
#[derive(Drop)]
pub(crate) struct GrowingTrs {
    arities: Vec<u8>,
    rules: Vec<Rule>,
    /// Each rule as a system of its own, which makes the steps by it.
    singles: Vec<Trs>,
    /// For each symbol the numbers of the rules whose left sides have this root, in order.
    by_root: Vec<Vec<u32>>,
    /// The nodes of all sides.
    nodes: u64,
}

impl Model for GrowingTrs {
    ghost use Rattle.trs_defs.specs.System.{System, system_code};
    ghost use Rattle.trs_core.specs.Valid.{system};
    ghost use Rattle.completion.specs.Growing.{IsGrowing};

    ghost Value = { System };

    ghost coded = { system_code };

    ghost view = { λ a. system a.arities.items a.rules.items };

    ghost invariant = { λ a. IsGrowing a.arities.items a.rules.items a.singles.items
        a.by_root.items a.nodes };
}

impl GrowingTrs {
    /// No rules, over the arity table of a system.
    pub(crate) fn over(alloc: Global, trs: &Trs) -> Result<GrowingTrs, OutOfMemory>
        ensures { IfOk result (λ none. none ≡ with_rules trs.now []) }
    {
        systems_are_valid(trs);
        Ok(GrowingTrs {
            arities: Vec::from_slice(alloc, trs.arities())?,
            rules: Vec::new(alloc),
            singles: Vec::new(alloc),
            by_root: Vec::new(alloc),
            nodes: 0,
        })
    }

    /// The rules, by their numbers from 0.
    pub(crate) fn rules(&self) -> &[Rule]
        ensures rules { result.now ≡ self.now.rules }
        ensures valid { IsSystem self.now }
        ensures limits { IsWithinLimits self.now }
        ensures bytes { AreBytes self.now.arities }
        ensures variables { HaveSmallVariables self.now.rules }
    {
        &self.rules
    }

    /// The numbers of the rules whose left sides have this root, in order.
    pub(crate) fn with_root(&self, f: u32) -> &[u32]
        ensures numbers { result.now ≡ with_root f self.now.rules }
        ensures within { All (λ k. k < length self.now.rules) result.now }
    {
        match self.by_root.get(f as usize) {
            Some(numbers) => numbers,
            None => &[],
        }
    }

    /// With one more rule, behind the others.
    pub(crate) fn with_rule(self, alloc: Global, rule: Rule) -> Result<GrowingTrs, OutOfMemory>
        requires { IsWithinLimits (whole self (rule ∷ [])) }
        ensures { IfOk result (λ grown. grown ≡ whole self (rule ∷ [])) }
    {
        let single = single_rule(alloc, &self.arities, &rule)?;
        systems_are_valid(&single);
        let nodes = with_nodes(self.nodes, &rule);
        let mut by_root = self.by_root;
        put_number(alloc, &mut by_root, &rule.left, self.rules.len() as u32)?;
        let mut singles = self.singles;
        singles.push(single)?;
        let mut rules = self.rules;
        rules.push(rule)?;
        Ok(GrowingTrs {
            arities: self.arities,
            rules,
            singles,
            by_root,
            nodes,
        })
    }

    /// Whether there is room for one more rule.
    pub(crate) fn has_room(&self, rule: &Rule) -> bool
        ensures room { IsTrue result ↔ HasRoom self.now.rules rule.now }
        ensures limits { IsWithinLimits self.now }
    {
        self.rules.len() < MOST_RULES && with_nodes(self.nodes, rule) <= MOST_NODES
    }

    /// The system, where it has one rule: that stands as a system of its own already.
    pub(crate) fn as_single(&self) -> Option<&Trs>
        ensures { IfSome result (λ trs. trs.now ≡ self.now) }
    {
        match self.singles.as_slice() {
            [single] => Some(single),
            _ => None,
        }
    }

    /// The system.
    pub(crate) fn to_trs(&self, alloc: Global) -> Result<Trs, OutOfMemory>
        ensures { IfOk result (λ trs. trs ≡ self.now) }
    {
        let arities = Vec::from_slice(alloc, &self.arities)?;
        valid_system(arities, copied_rules(alloc, &self.rules)?)
    }

    /// The system, of which no rule is copied.
    pub(crate) fn into_trs(self) -> Result<Trs, OutOfMemory>
        ensures { IfOk result (λ trs. trs ≡ self) }
    {
        let mut singles = self.singles;
        if singles.len() == 1 {
            if let Some(single) = singles.pop() {
                return Ok(single);
            }
        }
        valid_system(self.arities, self.rules)
    }

    /// The id of the term one step from that of the given id, by the rule of this number at this
    /// place.
    pub(crate) fn step_at(
        &self,
        alloc: Global,
        pool: &mut Pool,
        id: u32,
        place: &Position,
        rule: u32,
    ) -> Result<u32, StepFault>
        requires { id < length pool.old }
        ensures step { IfOk result (λ new.
            StepsAt self.now.rules place.now rule (tree_at pool.old id) (tree_at pool.new new)) }
        ensures limits { IfOk result (λ new. IsTrue (within_limits (tree_at pool.new new))) }
        ensures there { IfOk result (λ new. new < length pool.new) }
        ensures fault { IfErr result (
            IsStepFault self.now.rules place.now rule (tree_at pool.old id)) }
        ensures kept { Extends pool.old pool.new }
    {
        let Some(single) = self.singles.get(rule as usize) else {
            return Err(StepFault::NoRule);
        };
        pool.step_at(alloc, single, id, place, 0)
    }
}

/// A law, with nothing to run but the reading of the system: by its type it is one, keeps the limits,
/// and has arities that are bytes.
pub(crate) fn growing_systems_are_valid(system: &GrowingTrs)
    ensures valid { IsSystem system.now }
    ensures limits { IsWithinLimits system.now }
    ensures bytes { AreBytes system.now.arities }
    ensures variables { HaveSmallVariables system.now.rules }
{
    let _rules = system.rules();
}

/// The system of one rule.
fn single_rule(alloc: Global, arities: &[u8], rule: &Rule) -> Result<Trs, OutOfMemory>
    ensures { IfOk result (λ trs. trs ≡ single arities.now rule.now) }
{
    let mut rules = Vec::with_capacity(alloc, 1)?;
    rules.push(copied_rule(alloc, rule)?)?;
    valid_system(Vec::from_slice(alloc, arities)?, rules)
}

/// The system of rules that are known to be one, so that only memory may be wanting.
fn valid_system(arities: Vec<u8>, rules: Vec<Rule>) -> Result<Trs, OutOfMemory>
    ensures { IfOk result (λ trs. trs ≡ system arities.items rules.items) }
{
    match Trs::new(arities, rules) {
        Ok(trs) => Ok(trs),
        Err(_) => Err(OutOfMemory),
    }
}

/// Puts the number of a new rule behind those with the root of its left side.
fn put_number(
    alloc: Global,
    by_root: &mut Vec<Vec<u32>>,
    left: &Term,
    number: u32,
) -> Result<(), OutOfMemory>
    ensures { OnOk result (
        HasNumber by_root.old.items by_root.new.items (tree left.now) number) }
{
    match left {
        Term::Var(_) => Ok(()),
        Term::App(f, _) => put_behind(alloc, by_root, *f as usize, number),
    }
}

/// Puts a number behind those of a symbol.
fn put_behind(
    alloc: Global,
    by_root: &mut Vec<Vec<u32>>,
    f: usize,
    number: u32,
) -> Result<(), OutOfMemory>
    ensures here { OnOk result (numbers_at by_root.new.items f
        ≡ numbers_at by_root.old.items f ++ number ∷ []) }
    ensures others { OnOk result ((g : ℕ) → (g ≡ f → ⊥) →
        numbers_at by_root.new.items g ≡ numbers_at by_root.old.items g) }
{
    make_lists(alloc, by_root, f)?;
    let numbers = &mut by_root[f];
    numbers.push(number)?;
    Ok(())
}

/// Makes lists up to that of a symbol, with no numbers in them.
fn make_lists(alloc: Global, by_root: &mut Vec<Vec<u32>>, f: usize) -> Result<(), OutOfMemory>
    ensures there { OnOk result (f < length by_root.new.items) }
    ensures same { OnOk result ((g : ℕ) →
        numbers_at by_root.new.items g ≡ numbers_at by_root.old.items g) }
{
    while by_root.len() <= f {
        by_root.push(Vec::new(alloc))?;
    }
    Ok(())
}

/// So many nodes and those of a rule. It stands still at the last `u64`.
fn with_nodes(nodes: u64, rule: &Rule) -> u64
    ensures { result ≡ min (nodes + (size_of rule.now.left + size_of rule.now.right)) u64.MAX }
{
    let left = nodes.saturating_add(rule.left.size());
    left.saturating_add(rule.right.size())
}

fn copied_rules(alloc: Global, rules: &[Rule]) -> Result<Vec<Rule>, OutOfMemory>
    ensures { IfOk result (λ copies. copies.items ≡ rules.now) }
{
    let mut copies = Vec::with_capacity(alloc, rules.len())?;
    for rule in rules {
        copies.push(copied_rule(alloc, rule)?)?;
    }
    Ok(copies)
}

fn copied_rule(alloc: Global, rule: &Rule) -> Result<Rule, OutOfMemory>
    ensures { IfOk result (λ copy. copy ≡ rule.now) }
{
    Ok(Rule {
        left: rule.left.copy(alloc)?,
        right: rule.right.copy(alloc)?,
    })
}
