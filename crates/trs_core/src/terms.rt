ghost use Rattle.std.specs.Prelude.{◌≡◌, ◌↔◌, min, map, length, IfOk, IsTrue};
ghost use Rattle.trs_defs.specs.Size.{size_of, depth_of, within_limits};
ghost use Rattle.trs_defs.specs.Variable.{has_var as occurs};
ghost use Rattle.std.specs.Option.{option_copied, option_map};
ghost use Rattle.std.specs.Cmp.{IsTotalOrder};
ghost use Rattle.std.specs.declared.cmp.Ordering.TheVariants.{Equal};
ghost use Rattle.trs_defs.specs.Order.{tree_cmp};
ghost use Rattle.trs_defs.specs.Position.{argument_at, subterm_at};
ghost use Rattle.trs_core.specs.View.{tree};

use crate::{GREATEST_DEPTH, MOST_NODES, OutOfMemory, Position};
use std::alloc::Global;
use std::cmp::Ordering;
use std::marker::Model;

/// A term: a variable by its number, or a symbol by its number with arguments. Contracts speak of
/// its `tree`. Symbols are numbered from 0, by their places in an arity table.
/// (Baader and Nipkow, definition 3.1.2.)
#[cycle(term)]
#[derive(Drop)]
pub enum Term {
    Var(u32),
    App(u32, Args),
}

/// The arguments of a term. Contracts see the list of their trees.
#[cycle(term)]
#[derive(Drop)]
pub struct Args {
    pub items: Vec<Term>,
}

impl Model for Args {
    ghost use Rattle.std.specs.Prelude.{List, map};
    ghost use Rattle.std.specs.Coded.{coded_list};
    ghost use Rattle.trs_defs.specs.Tree.{Tree, tree_code, trees};
    ghost use Rattle.trs_defs.specs.Size.{size_of_all};

    ghost Value = { List Tree };

    ghost coded = { coded_list tree_code };

    ghost use Rattle.trs_core.specs.View.{tree};

    ghost view = { λ a. map tree a.items.items };

    ghost size = { λ ts. size_of_all (trees ts) };

    ghost use Rattle.std.proofs.Common.{arith};
    ghost use Rattle.trs_core.specs.ViewFalls.{most_le_size_of_all};

    ghost size_decreases = { λ a h. omega (arith, most_le_size_of_all a.items.items) };
}

impl Args {
    /// The arguments, from the left.
    pub fn new(items: Vec<Term>) -> Args
        ensures { result ≡ map tree items.items }
    {
        Args { items }
    }

    /// The terms, from the left. Code that recurses over terms reads `items`.
    pub fn as_slice(&self) -> &[Term]
        ensures { map tree result.now ≡ self.now }
    {
        &self.items
    }

    /// The number of arguments.
    pub fn len(&self) -> usize
        ensures { result ≡ length self.now }
    {
        self.items.len()
    }
}

impl Term {
    /// The number of nodes. It stands still at the last `u64`.
    pub fn size(&self) -> u64
        ensures { result ≡ min (size_of (tree self.now)) u64.MAX }
    {
        match self {
            Term::Var(_) => 1,
            Term::App(_, args) => {
                let mut total: u64 = 1;
                for arg in &args.items {
                    total = total.saturating_add(arg.size());
                }
                total
            }
        }
    }

    /// The number of nodes on the longest branch. It stands still at the last `u64`.
    pub fn depth(&self) -> u64
        ensures { result ≡ min (depth_of (tree self.now)) u64.MAX }
    {
        match self {
            Term::Var(_) => 1,
            Term::App(_, args) => {
                let mut deepest: u64 = 0;
                for arg in &args.items {
                    deepest = deepest.max(arg.depth());
                }
                deepest.saturating_add(1)
            }
        }
    }

    /// Whether the term has at most 65,536 nodes, and a depth of at most 1,024.
    pub fn is_within_limits(&self) -> bool
        ensures { result ≡ within_limits (tree self.now) }
    {
        self.size() <= MOST_NODES && self.depth() <= GREATEST_DEPTH
    }

    /// Whether the variable occurs in the term.
    pub fn has_var(&self, v: u32) -> bool
        ensures { result ≡ occurs v (tree self.now) }
    {
        match self {
            Term::Var(n) => *n == v,
            Term::App(_, args) => {
                for arg in &args.items {
                    if arg.has_var(v) {
                        return true;
                    }
                }
                false
            }
        }
    }

    /// The total order of terms: variables come first, by number; then applications by symbol, by
    /// the number of arguments, and by the arguments from the left.
    pub fn compare(&self, other: &Term) -> Ordering
        ensures order { result ≡ tree_cmp (tree self.now) (tree other.now) }
        ensures total { IsTotalOrder tree_cmp }
        ensures equal { result ≡ Equal ↔ (tree self.now ≡ tree other.now) }
    {
        self.order(other)
    }

    fn order(&self, other: &Term) -> Ordering
        ensures { result ≡ tree_cmp (tree self.now) (tree other.now) }
    {
        match (self, other) {
            (Term::Var(m), Term::Var(n)) => m.cmp(n),
            (Term::Var(_), Term::App(_, _)) => Ordering::Less,
            (Term::App(_, _), Term::Var(_)) => Ordering::Greater,
            (Term::App(f, ts), Term::App(g, us)) => {
                match f.cmp(g).then(ts.items.len().cmp(&us.items.len())) {
                    Ordering::Equal => {}
                    order => return order,
                }
                for (i, t) in ts.items.iter().enumerate() {
                    match t.order(&us.items[i]) {
                        Ordering::Equal => continue,
                        order => return order,
                    }
                }
                Ordering::Equal
            }
        }
    }

    /// Whether both are the same term.
    pub fn same(&self, other: &Term) -> bool
        ensures { IsTrue result ↔ (tree self.now ≡ tree other.now) }
    {
        self.compare(other) == Ordering::Equal
    }

    /// The argument at a place. Places are counted from 1.
    pub fn argument(&self, place: u8) -> Option<&Term>
        ensures { option_map tree (option_copied result) ≡ argument_at (tree self.now) place }
    {
        match self {
            Term::Var(_) => None,
            Term::App(_, args) => {
                if place == 0 {
                    return None;
                }
                args.items.get(usize::from(place - 1))
            }
        }
    }

    /// The subterm at a position. `None` exactly where the position is not in the term.
    /// (Baader and Nipkow, definition 3.1.3.)
    pub fn at(&self, p: &Position) -> Option<&Term>
        ensures { option_map tree (option_copied result) ≡ subterm_at p.now (tree self.now) }
    {
        let mut current = self;
        for place in p.places() {
            match current.argument(*place) {
                None => return None,
                Some(next) => current = next,
            }
        }
        Some(current)
    }

    /// A copy of the term.
    pub fn copy(&self, alloc: Global) -> Result<Term, OutOfMemory>
        ensures { IfOk result (λ t. t ≡ self.now) }
    {
        match self {
            Term::Var(n) => Ok(Term::Var(*n)),
            Term::App(f, args) => {
                let mut copies = Vec::with_capacity(alloc, args.items.len())?;
                for arg in &args.items {
                    copies.push(arg.copy(alloc)?)?;
                }
                Ok(Term::App(*f, Args { items: copies }))
            }
        }
    }
}
