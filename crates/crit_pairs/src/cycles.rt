//! Variables that are bound to terms in which they stand themselves.
ghost use Rattle.std.specs.Prelude.{◌<◌, ℕ, IfSome, IsTrue};
ghost use Rattle.trs_defs.specs.Tree.{Tree};
ghost use Rattle.trs_defs.specs.Size.{size_of};
ghost use Rattle.trs_core.specs.View.{tree};
ghost use Rattle.crit_pairs.specs.Meeting.{Solves};
ghost use Rattle.crit_pairs.specs.Cycles.{HaveNoSolution, StandsIn};

use crate::binding_table::Bindings;
use trs_core::Term;

/// Cycles are looked for among so many bindings, the first ones.
const MOST_ON_CYCLES: usize = 16;

/// The bindings that are on no cycle, by their places.
#[derive(Drop)]
struct Ended {
    is_ended: [bool; MOST_ON_CYCLES],
}

impl Ended {
    /// So many bindings, the first ones, are on no cycle.
    fn first(count: usize) -> Ended {
        let mut ended = Ended {
            is_ended: [false; MOST_ON_CYCLES],
        };
        for place in 0..count {
            ended.add(place);
        }
        ended
    }

    fn has(&self, place: usize) -> bool {
        match self.is_ended.get(place) {
            Some(is_ended) => *is_ended,
            None => true,
        }
    }

    fn add(&mut self, place: usize) {
        if let Some(is_ended) = self.is_ended.get_mut(place) {
            *is_ended = true;
        }
    }
}

/// Whether a variable stands below a symbol in what it is bound to, through other bindings too. Its
/// instance would have more nodes than it has. None is looked for from the bindings before the first
/// one. It takes no memory.
pub(crate) fn has_cycle(bindings: &Bindings, first: usize) -> bool
    ensures { IsTrue result → HaveNoSolution bindings.now.list.items }
{
    let mut ended = Ended::first(first);
    for _ in 0..bindings.list.len() {
        let Some(start) = first_but(bindings, &ended) else {
            return false;
        };
        if leads_back(start, bindings, &mut ended) {
            return true;
        }
    }
    false
}

/// The first variable that is bound, but for some.
fn first_but(bindings: &Bindings, ended: &Ended) -> Option<u32> {
    for (place, binding) in bindings.list.iter().enumerate() {
        if !ended.has(place) {
            return Some(binding.variable);
        }
    }
    None
}

/// Whether variables lead from one to the next, each below the symbol that the one before is bound to,
/// and back. Where the answer is no, one more variable has ended: nothing leads on from it. The one
/// that is looked out for is taken anew after 1, 2, 4, 8, .. steps. (Brent, An improved Monte Carlo
/// factorization algorithm, 1980.)
#[tactic(auto, using(crate::proofs::CyclesOfBindings::at_most_itself, crate::proofs::CyclesOfBindings::next_at_most, crate::proofs::CyclesOfBindings::never_below))]
fn leads_back(start: u32, bindings: &Bindings, ended: &mut Ended) -> bool
    ensures { IsTrue result → HaveNoSolution bindings.now.list.items }
{
    let mut passed = start;
    let mut current = start;
    for step in 0..3 * MOST_ON_CYCLES {
        match variable_below(current, bindings, ended) {
            None => {
                end(current, bindings, ended);
                return false;
            }
            Some(next) => current = next,
        }
        if current == passed {
            return true;
        }
        if step.is_power_of_two() {
            passed = current;
        }
    }
    false
}

/// Nothing leads on from the variable.
fn end(v: u32, bindings: &Bindings, ended: &mut Ended) {
    if let Some(place) = bindings.place(v) {
        ended.add(place);
    }
}

/// A variable that is bound, and stands below the symbol that another one is bound to.
#[tactic(auto, using(crate::proofs::CyclesOfBindings::some_bound))]
fn variable_below(v: u32, bindings: &Bindings, ended: &Ended) -> Option<u32>
    ensures { IfSome result (λ w. (θ : ℕ → Tree) → Solves bindings.now.list.items θ
        → size_of (θ w) < size_of (θ v)) }
{
    let bound = bindings.find(v)?;
    let term = bindings.resolve(bound);
    match term {
        Term::Var(_) => None,
        Term::App(_, _) => variable_in(term, bindings, ended),
    }
}

/// A variable that is bound, and occurs in a term.
fn variable_in(t: &Term, bindings: &Bindings, ended: &Ended) -> Option<u32>
    ensures { IfSome result (λ w. StandsIn bindings.now.list.items w (tree t.now)) }
{
    match t {
        Term::Var(v) => {
            let place = bindings.place(*v)?;
            if ended.has(place) {
                return None;
            }
            Some(*v)
        }
        Term::App(_, args) => {
            for arg in &args.items {
                let found = variable_in(arg, bindings, ended);
                if found.is_some() {
                    return found;
                }
            }
            None
        }
    }
}
