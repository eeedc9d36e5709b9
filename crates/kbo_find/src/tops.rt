//! Which symbols with one argument have to be above which others, if they weigh nothing.
ghost use Rattle.std.specs.Prelude.{◌≡◌, ◌++◌, map, slice_get, IfOk, OnOk, ◌∷◌, [], ◌==◌, if◌then◌else◌};
ghost use Rattle.std.specs.Option.{option_copied};
ghost use Rattle.order_search.specs.OrderSpace.{arity_with_mark, above};
ghost use Rattle.kbo_find.specs.KboSpace.{above_all, kbo_tops};
ghost use Rattle.kbo_find.specs.KboPlaces.{asked_of};

use order_search::arity_of;
use std::alloc::Global;
use trs_core::OutOfMemory;

/// A symbol with one argument, and another symbol.
#[derive(Clone, Copy)]
pub(crate) struct Top {
    pub(crate) unary: u32,
    pub(crate) other: u32,
}

/// Each symbol with one argument with each other symbol, in order.
pub(crate) fn all_tops(
    alloc: Global,
    arities: &[u8],
    symbols: &[u32],
) -> Result<Vec<Top>, OutOfMemory>
    ensures { IfOk result (λ tops. map asked_of tops.items
        ≡ kbo_tops (arity_with_mark arities.now) symbols.now) }
{
    let mut tops = Vec::new(alloc);
    for unary in symbols {
        add_tops(&mut tops, arities, symbols, *unary)?;
    }
    Ok(tops)
}

/// Adds those of one symbol, if it has one argument.
fn add_tops(
    tops: &mut Vec<Top>,
    arities: &[u8],
    symbols: &[u32],
    unary: u32,
) -> Result<(), OutOfMemory>
    ensures { OnOk result (map asked_of tops.new.items ≡ map asked_of tops.old.items
        ++ above_all (arity_with_mark arities.now) symbols.now unary) }
{
    if arity_of(arities, unary) != 1 {
        return Ok(());
    }
    for other in symbols {
        add_top(tops, unary, *other)?;
    }
    Ok(())
}

fn add_top(tops: &mut Vec<Top>, unary: u32, other: u32) -> Result<(), OutOfMemory>
    ensures { OnOk result (map asked_of tops.new.items ≡ map asked_of tops.old.items
        ++ (if other == unary then [] else above unary other ∷ [])) }
{
    if other != unary {
        tops.push(Top { unary, other })?;
    }
    Ok(())
}

/// The one of this number.
pub(crate) fn top_at(tops: &[Top], number: usize) -> Option<&Top>
    ensures { option_copied result ≡ slice_get tops.now number }
{
    tops.get(number)
}
