ghost use Rattle.std.specs.Prelude.{◌≡◌, ◌+◌};
ghost use Rattle.sexp_core.specs.Items.{view, views};
ghost use Rattle.ari_text.specs.EntryView.{entry_view, saying_view};
ghost use Rattle.ari_text.specs.Faults.{whole_room, room_after};
ghost use Rattle.term_text.specs.Limits.{nodes_left, nodes_of};
ghost use Rattle.ari_text.specs.Counted.{is_too_many};

use crate::entry::{Entry, Saying};
use sexp_core::Sexp;
use std::marker::Model;
use term_text::nodes_left_behind;
use trs_core::{MOST_NODES, MOST_RULES, MOST_SYMBOLS};

/// How many `fun` and `rule` items come up to the first that is too many, and how many nodes may still come.
#[derive(Drop)]
pub struct Room {
    funs: u32,
    rules: u32,
    nodes: Option<u32>,
}

impl Model for Room {
    ghost use Rattle.ari_text.specs.Faults.{Room as Counts};

    ghost Value = { Counts };

    ghost view = { λ r. record { funs = r.funs; rules = r.rules; nodes = r.nodes } };
}

impl Room {
    pub fn new() -> Room
        ensures { result ≡ whole_room }
    {
        Room {
            funs: MOST_SYMBOLS as u32 + 1,
            rules: MOST_RULES as u32 + 1,
            nodes: Some(MOST_NODES as u32),
        }
    }

    /// Counts an item, and says whether it is too many.
    pub fn count(&mut self, entry: &Entry<'_, '_>) -> bool
        ensures room { self.new ≡ room_after self.old (entry_view entry.now) }
        ensures too_many { result ≡ is_too_many self.old (entry_view entry.now) }
    {
        match &entry.saying {
            Saying::Nothing => false,
            Saying::Declares(_, _, _, _) => {
                let is_last = self.funs == 1;
                self.funs = self.funs.saturating_sub(1);
                is_last
            }
            Saying::Rewrites(left, right) => {
                let is_last = self.rules == 1;
                self.rules = self.rules.saturating_sub(1);
                let nodes = without_sides(left, right, self.nodes);
                let passes = self.nodes.is_some() && nodes.is_none();
                self.nodes = nodes;
                is_last || passes
            }
        }
    }
}

// The nodes that are left behind both sides of a rule.
#[tactic(auto, using(term_text::proofs::NodesLeft::nodes_left_sum))]
fn without_sides(left: &Sexp, right: &Sexp, room: Option<u32>) -> Option<u32>
    ensures { result ≡ nodes_left (nodes_of (view left.now) + nodes_of (view right.now)) room }
{
    nodes_left_behind(right, nodes_left_behind(left, room))
}
