//! Lists of rules along paths, by the ends of the paths.
ghost use Rattle.label_find.specs.RuleList.{AreInOrder};

use crate::rule_list::RulesTo;

/// Lists of rules along paths, each once, in the order of the ends of the paths. The lists of one
/// end stand behind one another: they are its group.
#[derive(Drop)]
pub(crate) struct Groups {
    pub(crate) lists: Vec<RulesTo>,
    pub(crate) ghost in_order: { AreInOrder lists.items },
}
