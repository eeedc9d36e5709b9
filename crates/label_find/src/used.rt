//! The rules that paths use.
ghost use Rattle.std.specs.Prelude.{◌≡◌, ◌<◌, ◌+◌, ◌^◌, [], ◌∷◌, All, IfOk, OnOk};
ghost use Rattle.trs_defs.specs.Variable.{is_listed as is_among};
ghost use Rattle.label_find.specs.LabelRow.{rules_along};
ghost use Rattle.label_find.specs.Lists.{rules_in, end_of, IsWith};

use rewrite_core::PathStep;
use std::alloc::Global;
use trs_core::OutOfMemory;

/// The numbers of all rules along paths, each once and in order.
pub(crate) fn used_rules(
    alloc: Global,
    entries: &[(u32, Vec<PathStep>)],
) -> Result<Vec<u32>, OutOfMemory>
    ensures { IfOk result (λ used. IsWith [] (rules_in entries.now) used.items) }
{
    let mut used = Vec::new(alloc);
    for entry in entries {
        use_path(&entry.1, &mut used)?;
    }
    Ok(used)
}

fn use_path(path: &[PathStep], used: &mut Vec<u32>) -> Result<(), OutOfMemory>
    ensures { OnOk result (IsWith used.old.items (rules_along path.now) used.new.items) }
{
    for step in path {
        use_rule(step.rule, used)?;
    }
    Ok(())
}

/// Puts the rule among these, if it is not there yet. They stay in order, so that one is found by
/// halving.
fn use_rule(rule: u32, used: &mut Vec<u32>) -> Result<(), OutOfMemory>
    ensures { OnOk result (IsWith used.old.items (rule ∷ []) used.new.items) }
{
    match used.binary_search(&rule) {
        Ok(_) => Ok(()),
        Err(place) => {
            used.insert(place, rule)?;
            Ok(())
        }
    }
}

/// Whether the rule is among these.
pub(crate) fn is_listed(rules: &[u32], rule: u32) -> bool
    ensures { result ≡ is_among rule rules.now }
{
    for other in rules {
        if *other == rule {
            return true;
        }
    }
    false
}

/// One more than the greatest of the rules, or 0 where there is none.
pub(crate) fn end_of(rules: &[u32]) -> u32
    requires { All (λ k. k + 1 < 2 ^ 32) rules.now }
    ensures { result ≡ end_of rules.now }
{
    let mut end: u32 = 0;
    for rule in rules {
        end = end.max(*rule + 1);
    }
    end
}
