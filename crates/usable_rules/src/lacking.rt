ghost use Rattle.std.specs.Prelude.{◌≡◌, ◌<◌, ◌++◌, All, List, length};
ghost use Rattle.pair_theory.specs.DependencyPair.{DependencyPair};
ghost use Rattle.dp_core.specs.Numbered.{ArePairsOf};
ghost use Rattle.dp_core.specs.Symbols.{symbols_of_all, symbols_below_roots};
ghost use Rattle.dp_core.specs.LeastLacking.{least_lacking};

use dp_core::{ReductionPair, Side, Sides, least_lacking};

/// The least symbol below a root of a side of the problem's pairs with no entry, or the least so
/// far.
pub(crate) fn lacking_below_roots<O: ReductionPair>(
    order: &O,
    least: Option<u32>,
    pairs: &[Sides],
    problem: &[u32],
) -> Option<u32>
    requires { All (λ n. n < length pairs.now) problem.now }
    ensures { (taken : List DependencyPair) → ArePairsOf pairs.now problem.now taken →
        result ≡ least_lacking (O.has order.now) least (symbols_below_roots taken) }
{
    let mut found = least;
    for n in problem {
        let sides = &pairs[*n as usize];
        found = lacking_in_sides(order, found, sides);
    }
    found
}

fn lacking_in_sides<O: ReductionPair>(order: &O, least: Option<u32>, sides: &Sides) -> Option<u32>
    ensures { result ≡ least_lacking (O.has order.now) least
        (symbols_of_all sides.now.from.args ++ symbols_of_all sides.now.to.args) }
{
    let left = lacking_in_arguments(order, least, &sides.from);
    lacking_in_arguments(order, left, &sides.to)
}

fn lacking_in_arguments<O: ReductionPair>(order: &O, least: Option<u32>, side: &Side) -> Option<u32>
    ensures { result ≡ least_lacking (O.has order.now) least (symbols_of_all side.now.args) }
{
    let args = side.args;
    let mut found = least;
    for arg in &args.items {
        found = least_lacking(order, found, arg);
    }
    found
}
