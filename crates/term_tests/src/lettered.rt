//! Systems of constants that tests make, and lists of numbers that show paths.
use crate::made::term;
use rewrite_core::PathStep;
use std::alloc::Global;
use std::test::Fail;
use trs_core::{OutOfMemory, Rule, Trs};

/// A rule from one constant to another.
fn rule(alloc: Global, from: u32, to: u32) -> Result<Rule, OutOfMemory> {
    let left = term(alloc, from, [])?;
    let right = term(alloc, to, [])?;
    Ok(Rule { left, right })
}

/// So many constants, and a rule from one of them to another for each pair of them.
pub fn constants(alloc: Global, count: usize, pairs: &[(u32, u32)]) -> Result<Trs, Fail> {
    let mut rules = Vec::new(alloc);
    for (from, to) in pairs {
        rules.push(rule(alloc, *from, *to)?)?;
    }
    Ok(Trs::new(vec![in alloc; 0; count]?, rules)?)
}

/// Adds the places and the rule of each step of a path: rules from 100, and 99 behind the path.
pub fn show(path: &[PathStep], shown: &mut Vec<u32>) -> Result<(), OutOfMemory> {
    for step in path {
        for place in step.place.places() {
            shown.push(u32::from(*place))?;
        }
        shown.push(step.rule.saturating_add(100))?;
    }
    shown.push(99)?;
    Ok(())
}
