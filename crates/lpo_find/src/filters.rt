//! The filters of a symbol, by their numbers.
ghost use Rattle.std.specs.Prelude.{◌≡◌, ◌<◌, ◌++◌, [], ◌∷◌, IfOk, OnOk, map};
ghost use Rattle.path_lpo.specs.Plain.{plain_filter};
ghost use Rattle.order_search.specs.OrderSpace.{arity_with_mark};
ghost use Rattle.order_theory.specs.Keeping.{places_from};
ghost use Rattle.lpo_find.specs.LpoSpace.{filter_count, filter_number, all_but};
ghost use Rattle.lpo_find.specs.Filters.{plain_filters, filters_of};

use order_search::arity_of;
use path_lpo::Filter;
use std::alloc::Global;
use trs_core::OutOfMemory;

/// All filters of each symbol, by their numbers.
pub(crate) fn symbol_filters(
    alloc: Global,
    arities: &[u8],
    symbols: &[u32],
) -> Result<Vec<Vec<Filter>>, OutOfMemory>
    ensures { IfOk result (λ filters. map plain_filters filters.items
        ≡ map (λ f. filters_of (arity_with_mark arities.now f)) symbols.now) }
{
    let mut filters = Vec::with_capacity(alloc, symbols.len())?;
    for f in symbols {
        filters.push(arity_filters(alloc, arity_of(arities, *f))?)?;
    }
    Ok(filters)
}

fn arity_filters(alloc: Global, arity: u32) -> Result<Vec<Filter>, OutOfMemory>
    requires { arity < 256 }
    ensures { IfOk result (λ filters. plain_filters filters ≡ filters_of arity) }
{
    let count = filter_count(arity);
    let mut filters = Vec::with_capacity(alloc, count as usize)?;
    for number in 0..count {
        filters.push(filter_number(alloc, arity, number)?)?;
    }
    Ok(filters)
}

/// How many filters there are for so many arguments.
pub(crate) fn filter_count(arity: u32) -> u32
    requires { arity < 256 }
    ensures { result ≡ filter_count arity }
{
    match arity {
        0 => 1,
        1 => 3,
        _ => 2 * arity + 2,
    }
}

/// The filter of this number for so many arguments: all; to a place; all but a place; none.
pub(crate) fn filter_number(alloc: Global, arity: u32, number: u32) -> Result<Filter, OutOfMemory>
    requires { arity < 256 }
    ensures { IfOk result (λ filter. plain_filter filter ≡ filter_number arity number) }
{
    if number == 0 {
        return Ok(Filter::Keep(places_but(alloc, arity, 0)?));
    }
    if number <= arity {
        return Ok(Filter::To(number as u8));
    }
    if number <= 2 * arity && arity >= 2 {
        return Ok(Filter::Keep(places_but(alloc, arity, number - arity)?));
    }
    Ok(Filter::Keep(Vec::new(alloc)))
}

/// The places of so many arguments, without one place.
fn places_but(alloc: Global, arity: u32, left_out: u32) -> Result<Vec<u8>, OutOfMemory>
    requires { arity < 256 }
    ensures { IfOk result (λ places. places.items ≡ all_but left_out (places_from 1 arity)) }
{
    let mut places = Vec::new(alloc);
    for i in 0..arity {
        add_unless(&mut places, i + 1, left_out)?;
    }
    Ok(places)
}

fn add_unless(places: &mut Vec<u8>, place: u32, left_out: u32) -> Result<(), OutOfMemory>
    requires { place < 256 }
    ensures { OnOk result
        (places.new.items ≡ places.old.items ++ all_but left_out (place ∷ [])) }
{
    if place != left_out {
        places.push(place as u8)?;
    }
    Ok(())
}
