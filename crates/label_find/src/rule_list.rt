//! The rules along one path, and its end.
ghost use Rattle.std.specs.Prelude.{◌≡◌, ◌≤◌, get_or, length};
ghost use Rattle.label_find.specs.LabelRow.{rules_along};
ghost use Rattle.label_find.specs.RuleList.{rules_listed};

use rewrite_core::PathStep;

/// The most steps that a listed path has.
const MOST_STEPS: usize = 4;

/// The numbers of the rules along a path of at most four steps. It takes no memory besides itself.
#[derive(Clone, Copy, PartialEq, Eq, PartialOrd, Ord)]
pub(crate) struct RuleList {
    count: u8,
    rules: [u32; MOST_STEPS],
}

impl RuleList {
    /// Of the rules along a path.
    pub(crate) fn along(path: &[PathStep]) -> RuleList
        requires { length path.now ≤ 4 }
        ensures { rules_listed result ≡ rules_along path.now }
    {
        RuleList {
            count: path.len() as u8,
            rules: [
                rule_at(path, 0),
                rule_at(path, 1),
                rule_at(path, 2),
                rule_at(path, 3),
            ],
        }
    }

    /// The numbers.
    pub(crate) fn as_slice(&self) -> &[u32]
        ensures { result.now ≡ rules_listed self.now }
    {
        let count = MOST_STEPS.min(self.count as usize);
        &self.rules[..count]
    }
}

/// The rules along a path, with its end.
#[derive(Clone, Copy, PartialEq, Eq, PartialOrd, Ord)]
pub(crate) struct RulesTo {
    pub(crate) end: u32,
    pub(crate) rules: RuleList,
}

/// The rule of the step at a place, 0 past the last step.
fn rule_at(path: &[PathStep], place: usize) -> u32
    ensures { result ≡ get_or (rules_along path.now) place 0 }
{
    match path.get(place) {
        Some(step) => step.rule,
        None => 0,
    }
}
