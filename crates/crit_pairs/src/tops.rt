//! The top of one critical peak, where the peak's own is not built.
ghost use Rattle.std.specs.Prelude.{◌≡◌, IfOk};
ghost use Rattle.trs_core.specs.View.{tree};
ghost use Rattle.crit_pairs.specs.PeakList.{IsListed};

use crate::occurrences::OccurrencesInBoth;
use crate::overlapping::overlap;
use crate::sides::BuiltSides;
use confluence_theory::overlaps_unify;
use rewrite_core::{Peak, Top};
use std::alloc::Global;
use trs_core::{MOST_VARIABLES, OutOfMemory, Term, Trs, systems_are_valid};
use trs_unify::rename_apart;

/// The top of a critical peak of the system. It is built anew from the peak's two rules, without the
/// results.
pub fn top_of<T: Top>(alloc: Global, trs: &Trs, peak: &Peak<T>) -> Result<Term, OutOfMemory>
    requires listed { IsListed trs.now.rules peak.now }
    ensures top { IfOk result (λ t. tree t ≡ peak.now.top) }
{
    systems_are_valid(trs);
    let rules = trs.rules();
    let outer = &rules[peak.outer as usize];
    let inner = &rules[peak.inner as usize];
    let inner_left = rename_apart(alloc, &inner.left, MOST_VARIABLES)?;
    let Some(part) = outer.left.at(&peak.place) else {
        unreachable!();
    };
    let mut places = Vec::new(alloc);
    // No variable is counted: the largest numbers take the way that suits all terms.
    let most = OccurrencesInBoth::MOST;
    let found = overlap(alloc, part, &inner_left, most, &mut places)?;
    let Some(unifier) = found else {
        overlaps_unify();
        unreachable!();
    };
    <Term as BuiltSides>::beside_ground(alloc, &unifier, &outer.left)
}
