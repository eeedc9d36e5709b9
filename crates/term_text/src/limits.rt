//! The limits on terms: 65,536 nodes, and a depth of 1,024.
ghost use Rattle.std.specs.Prelude.{◌≡◌, nat_le};
ghost use Rattle.sexp_core.specs.Items.{view, views};
ghost use Rattle.term_text.specs.Limits.{nodes_left, nodes_of, nodes_of_all, depth_of, depth_of_all, keeps_limits as limits_kept};

use sexp_core::Sexp;
use trs_core::{GREATEST_DEPTH, MOST_NODES};

// How many nodes are left of so many behind one.
fn node_left_behind(room: Option<u32>) -> Option<u32>
    ensures { result ≡ nodes_left 1 room }
{
    room?.checked_sub(1)
}

/// How many nodes are left of so many behind those of a term, as it is written.
#[cycle(nodes)]
#[tactic(auto, using(crate::proofs::NodesLeft::nodes_left_sum, crate::proofs::NodesLeft::nodes_left_nothing, std::proofs::lemmas::Grind::common_steps))]
pub fn nodes_left_behind(term: &Sexp, room: Option<u32>) -> Option<u32>
    ensures { result ≡ nodes_left (nodes_of (view term.now)) room }
{
    let room = node_left_behind(room);
    match term {
        Sexp::Word(_, _) => room,
        Sexp::List(_, members) => {
            let Some((_, args)) = members.split_first() else {
                return room;
            };
            nodes_left_behind_all(args, room)
        }
    }
}

#[cycle(nodes)]
fn nodes_left_behind_all(terms: &[Sexp], room: Option<u32>) -> Option<u32>
    ensures { result ≡ nodes_left (nodes_of_all (views terms.now)) room }
{
    let mut room = room;
    for term in terms {
        room = match term {
            Sexp::Word(_, _) => node_left_behind(room),
            Sexp::List(_, _) => nodes_left_behind(term, room),
        };
    }
    room
}

// Whether a term is at most so deep.
#[cycle(depth)]
#[tactic(auto, using(crate::proofs::Depths::max_within, crate::proofs::Depths::one_more_within, std::proofs::lemmas::Grind::common_steps))]
fn is_within_depth(term: &Sexp, depth: u32) -> bool
    ensures { result ≡ nat_le (depth_of (view term.now)) depth }
{
    let Some(below) = depth.checked_sub(1) else {
        return false;
    };
    match term {
        Sexp::Word(_, _) => true,
        Sexp::List(_, members) => {
            let Some((_, args)) = members.split_first() else {
                return true;
            };
            are_within_depth(args, below)
        }
    }
}

#[cycle(depth)]
#[tactic(auto, using(crate::proofs::Depths::max_within, crate::proofs::Depths::one_more_within, std::proofs::lemmas::Grind::common_steps))]
fn are_within_depth(terms: &[Sexp], depth: u32) -> bool
    ensures { result ≡ nat_le (depth_of_all (views terms.now)) depth }
{
    for term in terms {
        if !is_within_depth(term, depth) {
            return false;
        }
    }
    true
}

/// Whether a term, as it is written, keeps the limits.
#[tactic(auto, using(crate::proofs::Depths::some_left))]
pub fn keeps_limits(term: &Sexp) -> bool
    ensures { result ≡ limits_kept (view term.now) }
{
    nodes_left_behind(term, Some(MOST_NODES as u32)).is_some()
        && is_within_depth(term, GREATEST_DEPTH as u32)
}
