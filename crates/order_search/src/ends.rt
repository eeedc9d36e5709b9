//! Where the last of some symbols stands among others.
ghost use Rattle.std.specs.Prelude.{◌≡◌, ◌==◌, ◌||◌, ◌<◌, ◌^◌, length, max};
ghost use Rattle.trs_core.specs.View.{tree};
ghost use Rattle.order_search.specs.Distinct.{AreDistinct};
ghost use Rattle.order_search.specs.Ends.{end_among};
ghost use Rattle.order_search.specs.OrderSpace.{occurs_in};

use crate::LentRule;
use crate::placing::SymbolPlaces;
use trs_core::Term;

/// One more than the last place of a symbol of the rule, or 0 where none has a place.
pub fn end_of_rule(places: &SymbolPlaces, rule: &LentRule) -> u32
    requires distinct { AreDistinct places.now }
    requires few { length places.now < 2 ^ 32 }
    ensures { result ≡ end_among
        (λ f. occurs_in f rule.now.left || occurs_in f rule.now.right) places.now }
{
    later(
        end_of_term(places, rule.left),
        end_of_term(places, rule.right),
    )
}

fn end_of_term(places: &SymbolPlaces, t: &Term) -> u32
    requires distinct { AreDistinct places.now }
    requires few { length places.now < 2 ^ 32 }
    ensures { result ≡ end_among (λ f. occurs_in f (tree t.now)) places.now }
{
    match t {
        Term::Var(_) => 0,
        Term::App(f, args) => {
            let mut end = end_of(places, *f);
            for arg in &args.items {
                end = later(end, end_of_term(places, arg));
            }
            end
        }
    }
}

/// One more than the place of a symbol, or 0 where it has none.
pub fn end_of(places: &SymbolPlaces, f: u32) -> u32
    requires distinct { AreDistinct places.now }
    requires few { length places.now < 2 ^ 32 }
    ensures { result ≡ end_among (λ g. f == g) places.now }
{
    match places.place(f) {
        Some(place) => place + 1,
        None => 0,
    }
}

/// The greater of two numbers.
pub fn later(a: u32, b: u32) -> u32
    ensures { result ≡ max a b }
{
    if a < b { b } else { a }
}
