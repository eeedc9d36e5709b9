//! Nodes, counted only as far as needed.
ghost use Rattle.std.specs.Prelude.{◌≡◌, ◌<◌, ◌+◌, IsTrue, IfSome, IfNone};
ghost use Rattle.trs_defs.specs.Size.{size_of};
ghost use Rattle.trs_core.specs.View.{tree};

use crate::writing::MOST_NODES;
use trs_core::Term;

/// The most nodes of a part that are counted.
const MOST_COUNTED: u64 = 512;

/// Whether a side of so many nodes is seen to have too many even without a part of it.
pub(crate) fn is_large_without(size: u64, part: &Term) -> bool
    ensures { IsTrue result → 256 + size_of (tree part.now) < size }
{
    let room = size.saturating_sub(MOST_NODES as u64 + 1).min(MOST_COUNTED);
    room_after(part, room).is_some()
}

/// Whether a term has more nodes than a side of a new closure may have.
pub(crate) fn is_large(t: &Term) -> bool
    ensures { IsTrue result → 256 < size_of (tree t.now) }
{
    room_after(t, MOST_NODES as u64).is_none()
}

/// How many of so many nodes are left after those of a term. `None` where the term has more.
fn room_after(t: &Term, room: u64) -> Option<u64>
    ensures some { IfSome result (λ left. left + size_of (tree t.now) ≡ room) }
    ensures none { IfNone result (room < size_of (tree t.now)) }
{
    let mut left = room.checked_sub(1)?;
    match t {
        Term::Var(_) => Some(left),
        Term::App(_, args) => {
            for arg in &args.items {
                left = room_after(arg, left)?;
            }
            Some(left)
        }
    }
}
