ghost use Rattle.std.specs.Prelude.{◌≡◌, List, Some, slice_get};
ghost use Rattle.trs_defs.specs.Tree.{Tree};
ghost use Rattle.trs_defs.specs.System.{RewriteRule};
ghost use Rattle.term_pool.specs.Outlines.{AreOutlines, IsOutline};

use std::alloc::Global;
use std::collections::BTreeMap;
use trs_core::Rule;

/// Outlines of some rules, by the numbers of the rules. In an outline a variable that no rule has
/// stands for the id of each part with no variable, so that a step by it costs what the rule has
/// beside these parts.
#[derive(Drop)]
pub(crate) struct Outlines {
    pub(crate) by_rule: BTreeMap<u32, Rule>,
}

impl Outlines {
    /// No rule has an outline. It takes no memory.
    pub(crate) fn new(alloc: Global) -> Outlines
        ensures { (rules : List RewriteRule) (pool : List Tree) → AreOutlines rules pool result }
    {
        Outlines {
            by_rule: BTreeMap::new(alloc),
        }
    }

    /// The outline of rule `k`, which is the rule itself where there is none.
    pub(crate) fn of_rule<'a>(&'a self, rule: &'a Rule, k: u32) -> &'a Rule
        ensures { (rules : List RewriteRule) (pool : List Tree) → AreOutlines rules pool self.now
            → slice_get rules k ≡ Some rule.now → IsOutline pool rule.now result.now }
    {
        match self.by_rule.get(&k) {
            Some(outline) => outline,
            None => rule,
        }
    }
}
