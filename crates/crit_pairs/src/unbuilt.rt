//! Tops of critical peaks that are not built.
ghost use Rattle.std.specs.Prelude.{◌≡◌, ℕ, IfOk, map};
ghost use Rattle.trs_defs.specs.Substitution.{apply, bound};
ghost use Rattle.trs_core.specs.View.{tree};
ghost use Rattle.crit_pairs.specs.Meeting.{solution};
ghost use Rattle.crit_pairs.specs.InOrder.{in_order};
ghost use Rattle.crit_pairs.specs.Overlapping.{substitution};
ghost use Rattle.crit_pairs.specs.Sides.{AreRenumbered};
ghost use Rattle.crit_pairs.specs.UnbuiltTop.{seen_pair, bound_pair, seen_substitution, seen_tree};

use crate::apart::RulesApart;
use crate::binding_table::{Binding, Bindings};
use crate::names::Names;
use crate::overlapping::OverlapUnifier;
use crate::results::built_sides;
use crate::sides::{BuiltSides, MadeSides, NoTerms, PeakTop, Sides, copied_shared};
use crate::whole_sides::WholeSide;
use crate::{PeakFault, solved};
use rewrite_core::{BuiltTop, SharedSide, Top};
use std::alloc::Global;
use std::marker::PhantomData;
use std::snapshot::Snapshot;
use trs_core::{OutOfMemory, Rule, Term};
use trs_unify::{Unifier, no_names};

/// A binding as proofs see it. It takes no memory.
#[derive(Drop)]
struct SeenBinding {
    variable: Snapshot<u32>,
    term: Snapshot<Term>,
}

/// A most general unifier as proofs see it.
#[derive(Drop)]
enum SeenUnifier {
    /// With the number of bindings that terms are put in through.
    Bound(u32, Vec<SeenBinding>),
    Shared(Snapshot<Unifier>),
}

/// The instance of an outer left side by a unifier, as proofs see it. It takes no memory.
#[derive(Drop)]
struct SeenTop {
    unifier: Snapshot<SeenUnifier>,
    outer_left: Snapshot<Term>,
}

impl SeenTop {
    ghost use Rattle.std.specs.Prelude.{◌≡◌, IfOk};
    ghost use Rattle.trs_defs.specs.Substitution.{apply};
    ghost use Rattle.trs_core.specs.View.{tree};
    ghost use Rattle.crit_pairs.specs.InOrder.{in_order};
    ghost use Rattle.crit_pairs.specs.Overlapping.{substitution};
    ghost use Rattle.crit_pairs.specs.UnbuiltTop.{seen_tree};

    fn of(
        alloc: Global,
        unifier: &OverlapUnifier,
        outer_left: &Term,
    ) -> Result<SeenTop, OutOfMemory>
        ensures { IfOk result (λ top. seen_tree top
            ≡ in_order (apply (substitution unifier.now) (tree outer_left.now))) }
    {
        let seen = seen_unifier(alloc, unifier)?;
        Ok(SeenTop {
            unifier: Snapshot::of(&seen),
            outer_left: Snapshot::of(outer_left),
        })
    }
}

/// The top of a critical peak that is not built, and only proofs know the term. Sides of the peak may
/// be lent.
#[derive(Drop)]
pub struct UnbuiltTop<'a> {
    seen: Seen,
    sides: PhantomData<&'a Term>,
}

/// The term of a top, as it was first seen or seen again.
#[derive(Drop)]
enum Seen {
    First(SeenTop),
    Again(Snapshot<SeenTop>),
}

impl<'a> Top for UnbuiltTop<'a> {
    ghost use Rattle.crit_pairs.specs.UnbuiltTop.{unbuilt_tree};

    type Side = SharedSide<'a>;

    ghost top_tree = { unbuilt_tree };
}

impl<'a> BuiltTop for UnbuiltTop<'a> {
    fn term<'s>(side: &'s SharedSide<'a>) -> &'s Term {
        side.term()
    }
}

impl<'a> UnbuiltTop<'a> {
    ghost use Rattle.std.specs.Prelude.{◌≡◌, IfOk, IfSome};
    ghost use Rattle.trs_defs.specs.Substitution.{apply};
    ghost use Rattle.trs_core.specs.View.{tree};
    ghost use Rattle.crit_pairs.specs.InOrder.{in_order};
    ghost use Rattle.crit_pairs.specs.Overlapping.{substitution};
    ghost use Rattle.crit_pairs.specs.UnbuiltTop.{unbuilt_tree};

    /// The same top once more, if it was not seen again itself.
    pub(crate) fn again(&self) -> Option<UnbuiltTop<'a>>
        ensures { IfSome result (λ copy. unbuilt_tree copy ≡ unbuilt_tree self.now) }
    {
        match &self.seen {
            Seen::First(first) => Some(UnbuiltTop {
                seen: Seen::Again(Snapshot::of(first)),
                sides: PhantomData,
            }),
            Seen::Again(_) => None,
        }
    }

    /// The instance of the outer left side.
    pub(crate) fn of(
        alloc: Global,
        unifier: &OverlapUnifier,
        outer_left: &Term,
    ) -> Result<UnbuiltTop<'a>, OutOfMemory>
        ensures { IfOk result (λ top. unbuilt_tree top
            ≡ in_order (apply (substitution unifier.now) (tree outer_left.now))) }
    {
        let first = SeenTop::of(alloc, unifier, outer_left)?;
        Ok(UnbuiltTop {
            seen: Seen::First(first),
            sides: PhantomData,
        })
    }
}

fn seen_unifier(alloc: Global, unifier: &OverlapUnifier) -> Result<SeenUnifier, OutOfMemory>
    ensures { IfOk result (λ seen. (v : ℕ) →
        seen_substitution seen v ≡ substitution unifier.now v) }
{
    match unifier {
        OverlapUnifier::Bound(bindings) => {
            let seen = seen_bindings(alloc, &bindings.list)?;
            Ok(SeenUnifier::Bound(bindings.levels, seen))
        }
        OverlapUnifier::Shared(found) => Ok(SeenUnifier::Shared(Snapshot::of(found))),
    }
}

fn seen_bindings(alloc: Global, bindings: &[Binding]) -> Result<Vec<SeenBinding>, OutOfMemory>
    ensures { IfOk result (λ seen. map seen_pair seen.items ≡ map bound_pair bindings.now) }
{
    let mut seen = Vec::with_capacity(alloc, bindings.len())?;
    for binding in bindings {
        seen.push(SeenBinding {
            variable: Snapshot::of(&binding.variable),
            term: Snapshot::of(binding.term),
        })?;
    }
    Ok(seen)
}

impl<'a> PeakTop<'a> for UnbuiltTop<'a> {
    type Terms = NoTerms;

    ghost holds = { λ _ _ _. Unit {0} };

    fn no_terms(_alloc: Global, _rules: &RulesApart<'a>) -> Result<NoTerms, OutOfMemory> {
        Ok(NoTerms)
    }

    fn made(
        alloc: Global,
        rules: &RulesApart<'a>,
        j: usize,
        outer: &Rule,
        i: usize,
        inner: &Rule,
        place: &[u8],
        _part: &Term,
        unifier: &OverlapUnifier,
        nodes: u64,
        names: &mut Names,
        _terms: &mut NoTerms,
    ) -> Result<MadeSides<UnbuiltTop<'a>>, PeakFault> {
        built_sides(
            alloc, rules, j, outer, i, inner, place, unifier, nodes, names,
        )
    }

    fn copied(_alloc: Global, top: &UnbuiltTop<'a>) -> Result<Option<UnbuiltTop<'a>>, OutOfMemory> {
        Ok(top.again())
    }

    fn same_sides(
        alloc: Global,
        _n: usize,
        left: &SharedSide<'a>,
        right: &SharedSide<'a>,
        _terms: &mut NoTerms,
    ) -> Result<(SharedSide<'a>, SharedSide<'a>), OutOfMemory> {
        let first = copied_shared(alloc, left)?;
        let second = copied_shared(alloc, right)?;
        Ok((first, second))
    }

    fn sides_beside(
        alloc: Global,
        _rule: u32,
        side: &WholeSide<'a>,
        _n: usize,
        right: &SharedSide<'a>,
        _terms: &mut NoTerms,
    ) -> Result<(SharedSide<'a>, SharedSide<'a>), OutOfMemory> {
        let second = copied_shared(alloc, right)?;
        Ok((SharedSide::Shared(side.term), second))
    }
}

/// The variables of the top get their numbers, and the other two terms are built.
impl<'a> BuiltSides<'a> for UnbuiltTop<'a> {
    fn sides(
        alloc: Global,
        unifier: &OverlapUnifier,
        top: &Term,
        left: &Term,
        right: &Term,
        names: &mut Names,
    ) -> Result<Sides<UnbuiltTop<'a>>, OutOfMemory> {
        let (first, second) = results(alloc, unifier, top, left, right, names)?;
        Ok(Sides {
            top: UnbuiltTop::of(alloc, unifier, top)?,
            left: SharedSide::Own(Box::new(alloc, first)?),
            right: SharedSide::Own(Box::new(alloc, second)?),
        })
    }

    fn beside_ground(
        alloc: Global,
        unifier: &OverlapUnifier,
        top: &Term,
    ) -> Result<UnbuiltTop<'a>, OutOfMemory> {
        UnbuiltTop::of(alloc, unifier, top)
    }

    fn whole(_alloc: Global, side: &WholeSide<'a>) -> Result<SharedSide<'a>, OutOfMemory> {
        Ok(SharedSide::Shared(side.term))
    }
}

/// The instances of the left and the right, with new numbers for their variables: those of the top
/// come first. Names that were given before are taken back.
pub(crate) fn results(
    alloc: Global,
    unifier: &OverlapUnifier,
    top: &Term,
    left: &Term,
    right: &Term,
    names: &mut Names,
) -> Result<(Term, Term), OutOfMemory>
    ensures { IfOk result (λ s. AreRenumbered
        (apply (substitution unifier.now) (tree top.now))
        (apply (substitution unifier.now) (tree left.now))
        (apply (substitution unifier.now) (tree right.now))
        (in_order (apply (substitution unifier.now) (tree top.now))) (tree s.0) (tree s.1)) }
{
    match unifier {
        OverlapUnifier::Bound(bindings) => bound_results(alloc, bindings, top, left, right, names),
        OverlapUnifier::Shared(found) => shared_results(alloc, found, top, left, right),
    }
}

fn bound_results(
    alloc: Global,
    bindings: &Bindings,
    top: &Term,
    left: &Term,
    right: &Term,
    names: &mut Names,
) -> Result<(Term, Term), OutOfMemory>
    ensures { IfOk result (λ s. AreRenumbered
        (apply (solution bindings.now) (tree top.now))
        (apply (solution bindings.now) (tree left.now))
        (apply (solution bindings.now) (tree right.now))
        (in_order (apply (solution bindings.now) (tree top.now)))
        (tree s.0) (tree s.1)) }
{
    names.clear();
    solved::name_instance(bindings, top, bindings.levels, names)?;
    let first = solved::renumber(alloc, bindings, left, bindings.levels, names)?;
    let second = solved::renumber(alloc, bindings, right, bindings.levels, names)?;
    Ok((first, second))
}

fn shared_results(
    alloc: Global,
    unifier: &Unifier,
    top: &Term,
    left: &Term,
    right: &Term,
) -> Result<(Term, Term), OutOfMemory>
    ensures { IfOk result (λ s. AreRenumbered
        (apply (bound unifier.now) (tree top.now))
        (apply (bound unifier.now) (tree left.now))
        (apply (bound unifier.now) (tree right.now))
        (in_order (apply (bound unifier.now) (tree top.now))) (tree s.0) (tree s.1)) }
{
    let mut names = no_names(alloc);
    unifier.name_instance(alloc, top, &mut names)?;
    let first = unifier.renumber(alloc, left, &mut names)?;
    let second = unifier.renumber(alloc, right, &mut names)?;
    Ok((first, second))
}
