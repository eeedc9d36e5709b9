//! Left sides whose variables are renamed apart. Only those that have variables are copied.
ghost use Rattle.std.specs.Prelude.{◌≡◌, IfOk};
ghost use Rattle.trs_defs.specs.Renaming.{shifted};
ghost use Rattle.trs_core.specs.SystemLimits.{HasSmallVariables, HaveSmallVariables};
ghost use Rattle.trs_core.specs.View.{tree};
ghost use Rattle.crit_pairs.specs.Apart.{AreApartLefts, HaveSkeletons};
ghost use Rattle.crit_pairs.specs.Skeletons.{opened};
ghost use Rattle.crit_pairs.specs.SkeletonView.{skeleton_view};

use crate::skeleton::Skeleton;
use std::alloc::Global;
use std::marker::Model;
use trs_core::{MOST_VARIABLES, OutOfMemory, Rule, Term};
use trs_unify::rename_apart;

/// A left side whose variables are renamed apart from those of all rules. Contracts see that term.
#[derive(Drop)]
pub(crate) struct ApartLeft<'a> {
    kept: KeptLeft<'a>,
}

#[derive(Drop)]
enum KeptLeft<'a> {
    /// A term with no variable, as it is: a copy of it would be the same.
    Ground(&'a Term),
    Copied(Term),
}

impl<'a> Model for ApartLeft<'a> {
    ghost use Rattle.trs_defs.specs.Tree.{Tree, tree_code};
    ghost use Rattle.crit_pairs.specs.KeptLefts.{kept_left};

    ghost Value = { Tree };

    ghost coded = { tree_code };

    ghost view = { λ a. kept_left a.kept };
}

impl<'a> ApartLeft<'a> {
    /// A term renamed apart. It is lent where its skeleton shows that it has no variable.
    fn of(alloc: Global, t: &'a Term, skeleton: &Skeleton) -> Result<ApartLeft<'a>, OutOfMemory>
        requires small { HasSmallVariables (tree t.now) }
        requires skeleton { skeleton_view skeleton.now ≡ opened (tree t.now) }
        ensures { IfOk result (λ left. left ≡ shifted 65536 (tree t.now)) }
    {
        if skeleton.is_ground() {
            let kept = KeptLeft::Ground(t);
            return Ok(ApartLeft { kept });
        }
        let kept = KeptLeft::Copied(rename_apart(alloc, t, MOST_VARIABLES)?);
        Ok(ApartLeft { kept })
    }

    /// The term.
    pub fn term(&self) -> &Term
        ensures { tree result.now ≡ self.now }
    {
        match &self.kept {
            KeptLeft::Ground(t) => t,
            KeptLeft::Copied(t) => t,
        }
    }
}

/// The left side of each rule, its variables renamed apart from those of all rules.
pub(crate) fn apart_lefts<'a>(
    alloc: Global,
    rules: &'a [Rule],
    skeletons: &[Skeleton],
) -> Result<Vec<ApartLeft<'a>>, OutOfMemory>
    requires small { HaveSmallVariables rules.now }
    requires skeletons { HaveSkeletons rules.now skeletons.now }
    ensures { IfOk result (λ lefts. AreApartLefts rules.now lefts.items) }
{
    let mut lefts = Vec::with_capacity(alloc, rules.len())?;
    for (k, rule) in rules.iter().enumerate() {
        lefts.push(ApartLeft::of(alloc, &rule.left, &skeletons[k])?)?;
    }
    Ok(lefts)
}
