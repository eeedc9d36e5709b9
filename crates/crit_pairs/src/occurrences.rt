//! How often variables occur in rules. Only time depends on it.
use crate::side_sizes::SideSize;
use crate::skeleton::Skeleton;
use std::alloc::Global;
use trs_core::{OutOfMemory, Rule, Term};

/// How often variables occur in the sides of each rule.
#[derive(Drop)]
pub(crate) struct Occurrences {
    counts: Vec<u64>,
}

/// How often variables occur in the sides of two rules that may overlap.
#[derive(Clone, Copy)]
pub(crate) struct OccurrencesInBoth {
    pub inner: u64,
    pub outer: u64,
}

impl OccurrencesInBoth {
    /// As many as can be, where none is counted.
    pub const MOST: OccurrencesInBoth = OccurrencesInBoth {
        inner: u64::MAX,
        outer: u64::MAX,
    };
}

impl Occurrences {
    /// Those in no rules. It takes no memory.
    pub fn new(alloc: Global) -> Occurrences {
        Occurrences {
            counts: Vec::new(alloc),
        }
    }

    /// Counts those in the rules behind the first ones, which are counted already.
    pub fn count(&mut self, rules: &[Rule]) -> Result<(), OutOfMemory> {
        let known = self.counts.len();
        for k in known..rules.len() {
            self.counts.push(occurrences_in(&rules[k]))?;
        }
        Ok(())
    }

    /// Counts those in rules whose left sides have these skeletons, and whose right sides these sizes.
    pub fn count_sides(
        &mut self,
        rules: &[Rule],
        skeletons: &[Skeleton],
        sizes: &[SideSize],
    ) -> Result<(), OutOfMemory> {
        for ((rule, skeleton), right) in rules.iter().zip(skeletons).zip(sizes) {
            let left = occurrences_on_left(&rule.left, skeleton);
            self.counts.push(left.saturating_add(right.occurrences()))?;
        }
        Ok(())
    }

    /// How often variables occur in rules `i` and `j`, the inner and the outer one.
    pub fn in_both(&self, i: usize, j: usize) -> OccurrencesInBoth {
        match (self.counts.get(i), self.counts.get(j)) {
            (Some(inner), Some(outer)) => OccurrencesInBoth {
                inner: *inner,
                outer: *outer,
            },
            _ => OccurrencesInBoth::MOST,
        }
    }
}

fn occurrences_in(rule: &Rule) -> u64 {
    let left = variables_in(&rule.left);
    left.saturating_add(variables_in(&rule.right))
}

/// Those in a left side, which is not walked where its skeleton shows that there are none.
fn occurrences_on_left(left: &Term, skeleton: &Skeleton) -> u64 {
    if skeleton.is_ground() {
        return 0;
    }
    variables_in(left)
}

fn variables_in(t: &Term) -> u64 {
    match t {
        Term::Var(_) => 1,
        Term::App(_, args) => {
            let mut count: u64 = 0;
            for arg in &args.items {
                count = count.saturating_add(variables_in(arg));
            }
            count
        }
    }
}
