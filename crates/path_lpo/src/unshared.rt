ghost use Rattle.std.specs.Prelude.{◌≡◌, ◌≤◌, ℕ};
ghost use Rattle.trs_defs.specs.Size.{size_of};
ghost use Rattle.trs_core.specs.View.{tree};
ghost use Rattle.order_theory.specs.ArgumentFilter.{filtered};
ghost use Rattle.path_lpo.specs.Kept.{whole_of, size_of_root, unshared_terms};

use crate::comparison::Comparison;
use crate::equal::are_equal;
use crate::kept::{Kept, argument};
use crate::root::Root;
use crate::terms::Terms;
use crate::{LentFilter, Precedence};
use trs_core::Term;

/// How many nodes are looked at in one comparison to see that arguments are equal.
const MOST_EQUAL_NODES: u64 = 1 << 16;

/// Filtered terms as they are.
#[derive(Drop)]
pub(crate) struct Unshared<'a, P> {
    pub(crate) order: &'a P,
}

/// How many more nodes may be looked at to see that arguments are equal. No comparison is remembered.
#[derive(Drop)]
pub(crate) struct Room {
    nodes: u64,
}

impl Room {
    pub(crate) fn new() -> Room {
        Room {
            nodes: MOST_EQUAL_NODES,
        }
    }
}

impl<'a, P: Precedence> Terms for Unshared<'a, P> {
    type Node = &'a Term;

    type List = Kept<'a>;

    type Memory = Room;

    ghost ranks = { λ terms. P.ranks terms.order.now };

    ghost walked = { λ terms. unshared_terms (P.filters terms.order.now) };

    ghost is_true = { λ terms room. Unit {0} };

    fn rank(&self, symbol: u32) -> u64 {
        self.order.rank(symbol)
    }

    #[tactic(auto, using(crate::proofs::Filtering::root_within))]
    fn root(&self, node: &'a Term) -> Root<Kept<'a>> {
        root(self.order, node)
    }

    #[tactic(auto, using(crate::proofs::Filtering::split_filtered))]
    fn split_first(&self, list: Kept<'a>) -> Option<(&'a Term, Kept<'a>)> {
        list.split_first()
    }

    fn are_same(&self, room: &mut Room, s: &'a Term, t: &'a Term) -> bool {
        are_equal(s, t, &mut room.nodes)
    }

    fn known(&self, _room: &Room, _s: &'a Term, _t: &'a Term) -> Option<Comparison> {
        None
    }

    fn keep(&self, _room: &mut Room, _s: &'a Term, _t: &'a Term, _comparison: Comparison) {}
}

/// The filtered term at its root.
pub(crate) fn root<'a, P: Precedence>(order: &'a P, t: &'a Term) -> Root<Kept<'a>>
    ensures whole { whole_of (P.filters order.now) result
        ≡ filtered (P.filters order.now) (tree t.now) }
    ensures size { size_of_root result ≤ size_of (tree t.now) }
{
    let mut current = t;
    loop {
        match current {
            Term::Var(x) => return Root::Variable(*x),
            Term::App(f, args) => match order.filter(*f) {
                LentFilter::Keep(places) => {
                    let args = &args.items;
                    return Root::Symbol(*f, Kept { places, args });
                }
                LentFilter::To(place) => match argument(&args.items, place) {
                    None => {
                        let args = &args.items;
                        return Root::Symbol(*f, Kept { places: &[], args });
                    }
                    Some(next) => current = next,
                },
            },
        }
    }
}
