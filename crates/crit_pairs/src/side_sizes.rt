//! The nodes of right sides, and which of them are variables: by them the nodes of instances are counted,
//! and the sides are not walked again.
ghost use Rattle.std.specs.Prelude.{IfOk, OnOk};
ghost use Rattle.trs_core.specs.View.{tree};
ghost use Rattle.crit_pairs.specs.SideSizes.{IsSizeOf, AreSizes, CountsTerm};

use std::alloc::Global;
use trs_core::{OutOfMemory, Rule, Term};

/// The nodes of a term.
#[derive(Drop)]
pub(crate) struct SideSize {
    /// How many are no variables.
    pub symbols: u64,
    /// Those that are variables, from left to right: each as often as it occurs.
    pub variables: Vec<u32>,
}

impl SideSize {
    ghost use Rattle.std.specs.Prelude.{IfOk, IsTrue};
    ghost use Rattle.trs_defs.specs.Tree.{Tree};
    ghost use Rattle.trs_core.specs.View.{tree};
    ghost use Rattle.term_pool.specs.LeftSides.{IsGround};
    ghost use Rattle.crit_pairs.specs.SideSizes.{IsSizeOf};

    pub fn of(alloc: Global, t: &Term) -> Result<SideSize, OutOfMemory>
        ensures { IfOk result (IsSizeOf (tree t.now)) }
    {
        let mut size = SideSize {
            symbols: 0,
            variables: Vec::new(alloc),
        };
        count_term(t, &mut size)?;
        Ok(size)
    }

    /// Whether the term has no variable.
    pub fn is_ground(&self) -> bool
        ensures { (t : Tree) → IsSizeOf t self.now → IsTrue result → IsGround t }
    {
        self.variables.is_empty()
    }

    /// How often variables occur.
    pub fn occurrences(&self) -> u64 {
        self.variables.len() as u64
    }
}

/// The nodes of a term are counted too.
fn count_term(t: &Term, size: &mut SideSize) -> Result<(), OutOfMemory>
    ensures { OnOk result (CountsTerm (tree t.now) size.old size.new) }
{
    match t {
        Term::Var(v) => {
            size.variables.push(*v)?;
            Ok(())
        }
        Term::App(_, args) => {
            size.symbols = size.symbols.saturating_add(1);
            for arg in &args.items {
                count_term(arg, size)?;
            }
            Ok(())
        }
    }
}

/// For each rule the size of its right side.
pub(crate) fn side_sizes(alloc: Global, rules: &[Rule]) -> Result<Vec<SideSize>, OutOfMemory>
    ensures { IfOk result (λ sizes. AreSizes rules.now sizes.items) }
{
    let mut sizes = Vec::with_capacity(alloc, rules.len())?;
    for rule in rules {
        sizes.push(SideSize::of(alloc, &rule.right)?)?;
    }
    Ok(sizes)
}
