//! Terms, positions and paths that tests make.
ghost use Rattle.std.specs.Prelude.{◌≡◌, map, IfOk};
ghost use Rattle.trs_defs.specs.Tree.{app, trees};
ghost use Rattle.trs_core.specs.View.{tree};

use rewrite_core::PathStep;
use std::alloc::Global;
use trs_core::{Args, OutOfMemory, Position, Term};

/// A symbol with these arguments.
pub fn term<const N: usize>(
    alloc: Global,
    symbol: u32,
    args: [Term; N],
) -> Result<Term, OutOfMemory>
    ensures { IfOk result (λ t. tree t ≡ app symbol (trees (map tree args.entry))) }
{
    Ok(Term::App(symbol, Args::new(Vec::from_array(alloc, args)?)))
}

/// A symbol as often as asked over a term.
pub fn tower(alloc: Global, symbol: u32, height: u32, top: Term) -> Result<Term, OutOfMemory> {
    let mut made = top;
    for _ in 0..height {
        made = term(alloc, symbol, [made])?;
    }
    Ok(made)
}

/// The position of these places, but for those that are 0.
pub fn position(alloc: Global, places: &[u8]) -> Result<Position, OutOfMemory> {
    let mut made = Position::new(alloc);
    for place in places {
        if *place > 0 {
            made.push(*place)?;
        }
    }
    Ok(made)
}

/// The position of so many ones.
pub fn ones(alloc: Global, count: u32) -> Result<Position, OutOfMemory> {
    let mut made = Position::new(alloc);
    for _ in 0..count {
        made.push(1)?;
    }
    Ok(made)
}

/// Steps by rule 0, each at the same place of so many ones.
pub fn repeat(alloc: Global, count: u32, place: u32) -> Result<Vec<PathStep>, OutOfMemory> {
    let mut path = Vec::new(alloc);
    for _ in 0..count {
        let place = ones(alloc, place)?;
        path.push(PathStep { place, rule: 0 })?;
    }
    Ok(path)
}
