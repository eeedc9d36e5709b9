ghost use Rattle.std.specs.Prelude.{◌≡◌, ◌<◌, Some, IfOk};
ghost use Rattle.trs_core.specs.View.{tree};
ghost use Rattle.pair_theory.specs.Marked.{Marked, plain, mark};
ghost use Rattle.pair_theory.specs.DependencyPair.{DependencyPair};
ghost use Rattle.dp_core.specs.PlacedPairs.{IsPairAt, IsPlacedPair};

use crate::{DpPair, MARK};
use std::alloc::Global;
use std::marker::Model;
use trs_core::{Args, OutOfMemory, Term, Trs};

/// A side of a pair, lent by the system: the number of its root without the mark, and the
/// arguments. Contracts see it as a marked term.
#[derive(Drop)]
pub struct Side<'a> {
    pub symbol: u32,
    pub args: &'a Args,
}

impl<'a> Model for Side<'a> {
    ghost use Rattle.trs_defs.specs.Tree.{trees};
    ghost use Rattle.pair_theory.specs.Marked.{Marked, marked};
    ghost use Rattle.dp_core.specs.PairCodes.{marked_code};

    ghost Value = { Marked };

    ghost coded = { marked_code };

    ghost view = { λ a. marked a.symbol (trees a.args.now) };
}

/// Both sides of a pair.
#[derive(Drop)]
pub struct Sides<'a> {
    pub from: Side<'a>,
    pub to: Side<'a>,
}

impl<'a> Model for Sides<'a> {
    ghost use Rattle.pair_theory.specs.DependencyPair.{DependencyPair};
    ghost use Rattle.dp_core.specs.PairCodes.{pair_code};

    ghost Value = { DependencyPair };

    ghost coded = { pair_code };

    ghost view = { λ a. record { from = a.from; to = a.to } };
}

/// The left side of a pair, with a marked root: the symbol f# has the number of f plus 4,096.
pub fn pair_left(alloc: Global, trs: &Trs, p: &DpPair) -> Result<Term, OutOfMemory>
    requires { IsPlacedPair trs.now.rules p.now }
    ensures { IfOk result (λ t. (pair : DependencyPair) → IsPairAt trs.now.rules p.now pair
        → tree t ≡ mark pair.from) }
{
    let rule = &trs.rules()[p.rule as usize];
    marked_copy(alloc, &rule.left)
}

/// The right side of a pair, with a marked root.
pub fn pair_right(alloc: Global, trs: &Trs, p: &DpPair) -> Result<Term, OutOfMemory>
    requires { IsPlacedPair trs.now.rules p.now }
    ensures { IfOk result (λ t. (pair : DependencyPair) → IsPairAt trs.now.rules p.now pair
        → tree t ≡ mark pair.to) }
{
    let rule = &trs.rules()[p.rule as usize];
    let Some(part) = rule.right.at(&p.place) else {
        unreachable!()
    };
    marked_copy(alloc, part)
}

/// A copy of a term that is no variable, with its root marked.
pub(crate) fn marked_copy(alloc: Global, t: &Term) -> Result<Term, OutOfMemory>
    requires { (m : Marked) → tree t.now ≡ plain m → m.symbol < 4096 }
    ensures { IfOk result (λ copy. (m : Marked) → tree t.now ≡ plain m → tree copy ≡ mark m) }
{
    match t.copy(alloc)? {
        Term::App(f, args) => Ok(Term::App(f + MARK, args)),
        Term::Var(n) => Ok(Term::Var(n)),
    }
}

/// A side as a term, with its root marked.
pub fn marked_term(alloc: Global, side: &Side) -> Result<Term, OutOfMemory>
    requires { side.now.symbol < 4096 }
    ensures { IfOk result (λ t. tree t ≡ mark side.now) }
{
    let args = copy_args(alloc, side.args)?;
    Ok(Term::App(side.symbol + MARK, args))
}

fn copy_args(alloc: Global, args: &Args) -> Result<Args, OutOfMemory>
    ensures { IfOk result (λ copy. copy ≡ args.now) }
{
    let mut copies = Vec::with_capacity(alloc, args.items.len())?;
    for arg in &args.items {
        copies.push(arg.copy(alloc)?)?;
    }
    Ok(Args::new(copies))
}

/// The sides of a pair that stands there.
pub(crate) fn sides_of<'a>(trs: &'a Trs, p: &DpPair) -> Option<Sides<'a>>
    ensures { (pair : DependencyPair) → IsPairAt trs.now.rules p.now pair → result ≡ Some pair }
{
    let rule = trs.rules().get(p.rule as usize)?;
    let from = side_of(&rule.left)?;
    let to = side_of(rule.right.at(&p.place)?)?;
    Some(Sides { from, to })
}

fn side_of<'a>(t: &'a Term) -> Option<Side<'a>>
    ensures { (m : Marked) → tree t.now ≡ plain m → result ≡ Some m }
{
    match t {
        Term::Var(_) => None,
        Term::App(f, args) => Some(Side { symbol: *f, args }),
    }
}
