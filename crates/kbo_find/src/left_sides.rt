//! Left sides of rules, of which each serves the rules that follow one another with it.
ghost use Rattle.std.specs.Prelude.{◌≡◌, IfOk};
ghost use Rattle.std.specs.List.Sorted.{IsNonDecreasing};
ghost use Rattle.trs_core.specs.View.{tree};
ghost use Rattle.kbo_find.specs.Counted.{AreCountsOf};
ghost use Rattle.kbo_find.specs.Occurring.{ListsVariables};

use crate::counts::Counts;
use crate::occurrences::Occurrences;
use std::alloc::Global;
use std::rc::Rc;
use trs_core::{OutOfMemory, Term};

/// A left side with the symbols and the variables in it, and how often they occur.
#[derive(Drop)]
pub(crate) struct LeftSide<'a> {
    pub(crate) term: &'a Term,
    pub(crate) occurrences: Occurrences,
    pub(crate) counts: Rc<Counts>,
    pub(crate) ghost listed: { ListsVariables (tree term.now) occurrences.variables.items },
    pub(crate) ghost ascending: { IsNonDecreasing occurrences.variables.items },
    pub(crate) ghost counted: { AreCountsOf (tree term.now) counts.value },
}

impl<'a> LeftSide<'a> {
    fn of(alloc: Global, term: &'a Term) -> Result<LeftSide<'a>, OutOfMemory>
        ensures { IfOk result (λ left. tree left.term.now ≡ tree term.now) }
    {
        let occurrences = Occurrences::of(alloc, term)?;
        let counts = Counts::of(alloc, &occurrences)?;
        let counts = Rc::new(alloc, counts)?;
        Ok(LeftSide {
            term,
            occurrences,
            counts,
        })
    }
}

/// A term as a left side. The last one is taken again, if it is the same.
pub(crate) fn left_side<'a>(
    alloc: Global,
    last: Option<LeftSide<'a>>,
    term: &'a Term,
) -> Result<LeftSide<'a>, OutOfMemory>
    ensures { IfOk result (λ left. tree left.term.now ≡ tree term.now) }
{
    if let Some(left) = last {
        if left.term.same(term) {
            return Ok(left);
        }
    }
    LeftSide::of(alloc, term)
}
