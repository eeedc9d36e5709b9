ghost use Rattle.std.specs.Prelude.{◌≡◌, ◌<◌, ◌-◌, List, [], IfOk, IsTrue, Some, length, slice_get};
ghost use Rattle.trs_defs.specs.System.{RewriteRule};
ghost use Rattle.trs_caps.specs.Clash.{AreDisjoint};
ghost use Rattle.trs_core.specs.SystemLimits.{HaveSmallVariables};
ghost use Rattle.crit_pairs.specs.Skeletons.{opened};
ghost use Rattle.crit_pairs.specs.SkeletonView.{skeleton_view};
ghost use Rattle.crit_pairs.specs.Prepared.{ArePrepared, PreparesFirst};

use crate::equal_rules::EqualRules;
use crate::occurrences::Occurrences;
use crate::skeleton::Skeleton;
use std::alloc::Global;
use trs_core::{MOST_VARIABLES, OutOfMemory, Rule, Term};
use trs_unify::rename_apart;

/// What overlaps of rules are looked for by: a copy of each left side whose variables are renamed apart
/// from those of all rules, the skeletons of the left sides, and how often variables occur.
#[derive(Drop)]
pub(crate) struct PreparedRules {
    pub apart_lefts: Vec<Term>,
    pub skeletons: Vec<Skeleton>,
    /// The roots of the skeletons. They lie close together, and mostly tell them apart.
    pub roots: Vec<Option<u32>>,
    pub equal: EqualRules,
    pub occurrences: Occurrences,
}

impl PreparedRules {
    /// No rule is prepared. It takes no memory.
    pub fn new(alloc: Global) -> PreparedRules
        ensures { ArePrepared [] result }
    {
        PreparedRules {
            apart_lefts: Vec::new(alloc),
            skeletons: Vec::new(alloc),
            roots: Vec::new(alloc),
            equal: EqualRules::new(alloc),
            occurrences: Occurrences::new(alloc),
        }
    }

    /// Prepares the rules behind the first ones, which are prepared already.
    pub fn prepare(self, alloc: Global, rules: &[Rule]) -> Result<PreparedRules, OutOfMemory>
        requires small { HaveSmallVariables rules.now }
        requires first { PreparesFirst rules.now self }
        ensures { IfOk result (ArePrepared rules.now) }
    {
        let known = self.apart_lefts.len();
        let mut apart_lefts = self.apart_lefts;
        let mut skeletons = self.skeletons;
        let mut roots = self.roots;
        let mut equal = self.equal;
        let mut occurrences = self.occurrences;
        equal.add(rules)?;
        occurrences.count(rules)?;
        for k in known..rules.len() {
            let rule = &rules[k];
            apart_lefts.push(rename_apart(alloc, &rule.left, MOST_VARIABLES)?)?;
            let skeleton = Skeleton::of(alloc, &rule.left)?;
            let root = skeleton.root();
            skeletons.push(skeleton)?;
            roots.push(root)?;
        }
        Ok(PreparedRules {
            apart_lefts,
            skeletons,
            roots,
            equal,
            occurrences,
        })
    }

    /// Whether it is seen that no term fits both a skeleton and that of the left side of rule `i`.
    pub fn clashes(&self, i: usize, skeleton: &Skeleton) -> bool
        requires root { i < length self.now.roots.items }
        requires inside { i < length self.now.skeletons.items }
        ensures { IsTrue result → (rules : List RewriteRule) (r : RewriteRule) →
            ArePrepared rules self.now → slice_get rules i ≡ Some r →
            AreDisjoint (skeleton_view skeleton.now) (opened r.left) }
    {
        let root = self.roots[i];
        if skeleton.has_other_root(root) {
            return true;
        }
        let other = &self.skeletons[i];
        skeleton.clashes(other)
    }
}
