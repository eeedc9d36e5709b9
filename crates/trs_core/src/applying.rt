ghost use Rattle.std.specs.Prelude.{◌≡◌, min, IfOk};
ghost use Rattle.trs_defs.specs.Size.{size_of, depth_of};
ghost use Rattle.trs_defs.specs.Substitution.{apply, bound};
ghost use Rattle.trs_core.specs.Limits.{Gives, instance};
ghost use Rattle.trs_core.specs.View.{tree};

use crate::{Args, GREATEST_DEPTH, MOST_NODES, OutOfMemory, Subst, Term};
use std::alloc::Global;

/// Why an instance was not made.
#[derive(Clone, Copy, Debug, PartialEq, Eq)]
pub enum ApplySize {
    /// It would have more than 65,536 nodes, or be deeper than 1,024.
    TooLarge,
    OutOfMemory,
}

impl From<OutOfMemory> for ApplySize {
    ghost use Rattle.std.specs.Prelude.{◌≡◌};
    ghost use Rattle.trs_core.specs.declared.applying.ApplySize.TheVariants as size;

    ghost from_gives = { λ _ e. e ≡ size.OutOfMemory };

    fn from(_e: OutOfMemory) -> ApplySize {
        ApplySize::OutOfMemory
    }
}

impl Subst {
    /// The instance of a term. Its size is known before it is built, so that `TooLarge` takes no memory.
    pub fn apply(&self, alloc: Global, t: &Term) -> Result<Term, ApplySize>
        ensures { Gives ApplySize.OutOfMemory result (instance self.now (tree t.now)) }
    {
        if self.instance_size(t) <= MOST_NODES && self.instance_depth(t) <= GREATEST_DEPTH {
            Ok(self.build(alloc, t)?)
        } else {
            Err(ApplySize::TooLarge)
        }
    }

    fn instance_size(&self, t: &Term) -> u64
        ensures { result ≡ min (size_of (apply (bound self.now) (tree t.now))) u64.MAX }
    {
        match t {
            Term::Var(v) => match self.get(*v) {
                None => 1,
                Some(u) => u.size(),
            },
            Term::App(_, args) => {
                let mut total: u64 = 1;
                for arg in &args.items {
                    total = total.saturating_add(self.instance_size(arg));
                }
                total
            }
        }
    }

    fn instance_depth(&self, t: &Term) -> u64
        ensures { result ≡ min (depth_of (apply (bound self.now) (tree t.now))) u64.MAX }
    {
        match t {
            Term::Var(v) => match self.get(*v) {
                None => 1,
                Some(u) => u.depth(),
            },
            Term::App(_, args) => {
                let mut deepest: u64 = 0;
                for arg in &args.items {
                    deepest = deepest.max(self.instance_depth(arg));
                }
                deepest.saturating_add(1)
            }
        }
    }

    #[tactic(auto, using(crate::proofs::Lookups::apply_all_forest))]
    fn build(&self, alloc: Global, t: &Term) -> Result<Term, OutOfMemory>
        ensures { IfOk result (λ u. tree u ≡ apply (bound self.now) (tree t.now)) }
    {
        match t {
            Term::Var(v) => match self.get(*v) {
                None => Ok(Term::Var(*v)),
                Some(u) => u.copy(alloc),
            },
            Term::App(f, args) => {
                let mut built = Vec::with_capacity(alloc, args.items.len())?;
                for arg in &args.items {
                    built.push(self.build(alloc, arg)?)?;
                }
                Ok(Term::App(*f, Args { items: built }))
            }
        }
    }
}
