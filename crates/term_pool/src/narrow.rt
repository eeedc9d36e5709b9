ghost use Rattle.std.specs.Prelude.{List};
ghost use Rattle.trs_defs.specs.Tree.{Tree};
ghost use Rattle.trs_defs.specs.Path.{PlacedRule, Follows};
ghost use Rattle.term_pool.specs.Redexes.{IsNarrow};

use trs_core::{Trs, systems_are_valid};

/// A law, with nothing to run but the reading of the system: a path from a term none of whose
/// symbols has more than 255 arguments leads to such a term.
pub fn paths_keep_narrow(trs: &Trs)
    ensures { (path : List PlacedRule) (t u : Tree) → Follows trs.now.rules path t u
        → IsNarrow t → IsNarrow u }
{
    systems_are_valid(trs);
}
