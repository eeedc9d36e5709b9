//! Variables that are bound to terms one after another.
ghost use Rattle.std.specs.Prelude.{◌≡◌, IsTrue};
ghost use Rattle.trs_defs.specs.Size.{size_of};
ghost use Rattle.trs_core.specs.View.{tree};
ghost use Rattle.trs_unify.specs.Bindings.{stopped_size};
ghost use Rattle.crit_pairs.specs.Slots.{ArePlaced, bound_variable};

use crate::occurrences::OccurrencesInBoth;
use crate::slots::{note_place, slot};
use std::alloc::Global;
use trs_core::{MOST_VARIABLES, OutOfMemory, Term};

/// For how many bindings room is made at once.
const ROOM: usize = 16;

/// A variable, and the term that it must be equal to.
#[derive(Clone, Copy)]
pub(crate) struct Binding<'a> {
    pub variable: u32,
    pub term: &'a Term,
}

/// Bindings in order, which are found by the slots of their variables.
#[derive(Drop)]
pub(crate) struct Bindings<'a> {
    pub list: Vec<Binding<'a>>,
    /// At the slot of each variable that is bound stands the place of its binding. At the other slots
    /// stands whatever bindings before these left there, so that nothing has to be cleared.
    places: Vec<usize>,
    /// The terms of variables in bound terms are put in too, through so many bindings.
    pub levels: u32,
    /// In all bound terms together that puts in so many nodes at most.
    pub nodes_put_in: u64,
    ghost placed: { ArePlaced bound_variable places.items list.items },
}

impl<'a> Bindings<'a> {
    ghost use Rattle.std.specs.Prelude.{◌≡◌, ◌<◌, ◌++◌, [], ◌∷◌, None, OnOk, vec_len, vec_capacity};
    ghost use Rattle.std.specs.Option.{option_map};
    ghost use Rattle.trs_core.specs.View.{tree};
    ghost use Rattle.crit_pairs.specs.Meeting.{bound_term, SameUnder};

    /// No variable is bound. Places that other bindings had are used anew.
    pub fn none(alloc: Global, places: Vec<usize>) -> Bindings<'a>
        ensures { result.list.items ≡ [] }
    {
        Bindings {
            list: Vec::new(alloc),
            places,
            levels: 0,
            nodes_put_in: 0,
        }
    }

    /// Hands back the places, for other bindings.
    pub fn into_places(self) -> Vec<usize> {
        self.places
    }

    /// The place of a variable's binding.
    pub fn place(&self, v: u32) -> Option<usize> {
        let place = *self.places.get(slot(v))?;
        let binding = self.list.get(place)?;
        if binding.variable == v {
            Some(place)
        } else {
            None
        }
    }

    /// The term that a variable is bound to.
    #[inline(always)]
    pub fn find(&self, v: u32) -> Option<&'a Term>
        ensures { option_map (λ t. tree t.now) result ≡ bound_term self.now.list.items v }
    {
        let place = *self.places.get(slot(v))?;
        let binding = self.list.get(place)?;
        if binding.variable == v {
            Some(binding.term)
        } else {
            None
        }
    }

    /// What a term stands for: the end of the bindings that lead from a variable to others.
    #[inline(always)]
    pub fn resolve(&self, t: &'a Term) -> &'a Term
        ensures { SameUnder self.now.list.items (tree t.now) (tree result.now) }
    {
        let mut current = t;
        for _ in 0..self.list.len() {
            let Term::Var(v) = current else {
                return current;
            };
            match self.find(*v) {
                None => return current,
                Some(next) => current = next,
            }
        }
        current
    }

    /// One more binding, of a variable that is not bound.
    #[inline(always)]
    pub fn add(&mut self, binding: Binding<'a>) -> Result<(), OutOfMemory>
        requires { bound_term self.old.list.items binding.variable ≡ None }
        ensures { OnOk result (self.new.list.items ≡ self.old.list.items ++ binding.entry ∷ []) }
    {
        self.make_room()?;
        let place = self.list.len();
        note_place(&mut self.places, binding.variable, place)?;
        self.list.push_reserved(binding);
        Ok(())
    }

    /// Makes room for one more binding, and for some others: most overlaps bind nothing.
    #[inline(always)]
    fn make_room(&mut self) -> Result<(), OutOfMemory>
        ensures items { self.new.list.items ≡ self.old.list.items }
        ensures room { OnOk result (vec_len self.new.list < vec_capacity self.new.list) }
    {
        if self.list.len() == self.list.capacity() {
            self.list.reserve(ROOM)?;
        }
        Ok(())
    }

    /// The number of nodes of all terms that variables are bound to.
    pub fn nodes(&self) -> u64 {
        let mut total: u64 = 0;
        for binding in &self.list {
            total = total.saturating_add(binding.term.size());
        }
        total
    }

    /// The most nodes that instances of all occurrences of variables have.
    pub fn most_steps(&self, occurrences: OccurrencesInBoth) -> u64 {
        let mut inner: u64 = 1;
        let mut outer: u64 = 1;
        for binding in &self.list {
            if binding.variable < MOST_VARIABLES {
                outer = outer.max(bound_size(binding.term));
            } else {
                inner = inner.max(bound_size(binding.term));
            }
        }
        let in_inner = inner.saturating_add(self.nodes_put_in);
        let in_outer = outer.saturating_add(self.nodes_put_in);
        let steps = occurrences.outer.saturating_mul(in_outer);
        steps.saturating_add(occurrences.inner.saturating_mul(in_inner))
    }
}

/// The number of nodes of a term that a variable is bound to.
#[inline(always)]
pub(crate) fn bound_size(bound: &Term) -> u64
    ensures { result ≡ stopped_size (tree bound.now) }
{
    if is_one_node(bound) {
        return 1;
    }
    bound.size()
}

/// Whether a term has one node. Most that variables are bound to have.
#[inline(always)]
fn is_one_node(t: &Term) -> bool
    ensures { IsTrue result → size_of (tree t.now) ≡ 1 }
{
    match t {
        Term::Var(_) => true,
        Term::App(_, args) => args.items.is_empty(),
    }
}
