ghost use Rattle.std.specs.Prelude.{◌≡◌, ◌↔◌, List, false, IfOk, IsTrue};
ghost use Rattle.trs_defs.specs.System.{RewriteRule};
ghost use Rattle.trs_core.specs.View.{tree};
ghost use Rattle.trs_caps.specs.HoledCap.{IsHoledCap};
ghost use Rattle.trs_caps.specs.View.{holed};
ghost use Rattle.pair_theory.specs.Marked.{mark};
ghost use Rattle.pair_theory.specs.DependencyPair.{DependencyPair};
ghost use Rattle.dp_core.specs.PlacedPairs.{IsPairAt, IsPlacedPair};
ghost use Rattle.dp_graph.specs.Edge.{IsEdge};

use dp_core::{DpPair, pair_left, pair_right};
use std::alloc::Global;
use term_pool::RulesByRoot;
use trs_caps::{Cap, cap};
use trs_core::{OutOfMemory, Term, Trs};

/// Whether an edge leads from a pair to a pair in the graph that is estimated by caps. It makes a
/// table of rules and a cap: for many edges of one system, make a `PairGraph`.
pub fn edge(alloc: Global, trs: &Trs, from: &DpPair, to: &DpPair) -> Result<bool, OutOfMemory>
    requires from { IsPlacedPair trs.now.rules from.now }
    requires to { IsPlacedPair trs.now.rules to.now }
    ensures { IfOk result (λ yes. (p q : DependencyPair) → IsPairAt trs.now.rules from.now p
        → IsPairAt trs.now.rules to.now q → (IsTrue yes ↔ IsEdge trs.now.rules p q)) }
{
    let by_root = RulesByRoot::new(alloc, trs)?;
    let end = right_cap(alloc, trs, &by_root, from)?;
    let left = pair_left(alloc, trs, to)?;
    leads(alloc, &end, &left)
}

/// The cap of the marked right side of a pair.
fn right_cap(
    alloc: Global,
    trs: &Trs,
    by_root: &RulesByRoot,
    p: &DpPair,
) -> Result<Cap, OutOfMemory>
    requires system { by_root.now ≡ trs.now }
    requires pair { IsPlacedPair trs.now.rules p.now }
    ensures { IfOk result (λ c. (pair : DependencyPair) → IsPairAt trs.now.rules p.now pair
        → IsHoledCap trs.now.rules false (mark pair.to) (holed c)) }
{
    let right = pair_right(alloc, trs, p)?;
    cap(alloc, by_root, &right, false)
}

/// Whether an edge leads from a pair whose marked right side has this cap, to a pair with this
/// marked left side.
fn leads(alloc: Global, end: &Cap, left: &Term) -> Result<bool, OutOfMemory>
    ensures { IfOk result (λ yes. (rules : List RewriteRule) (p q : DependencyPair)
        → IsHoledCap rules false (mark p.to) (holed end.now) → tree left.now ≡ mark q.from
        → (IsTrue yes ↔ IsEdge rules p q)) }
{
    end.meets(alloc, left)
}
