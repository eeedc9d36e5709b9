//! The first solution of a finite search, read as what was looked for.
ghost use Rattle.std.specs.Prelude.{◌≡◌, ◌<◌, ℕ, Some, IfOk};
ghost use Rattle.assign_search.specs.Puzzle.{solution_of};
ghost use Rattle.assign_search.specs.Continues.{Continues};
ghost use Rattle.order_search.specs.Outcome.{IsFinding, IsFirst, IsNotThere, IsSpent};

use assign_search::{Anew, Search, Space, Stop, Tester, first_solution_by};
use std::alloc::Global;
use trs_core::OutOfMemory;

/// A finite search whose solutions are read as something, such as an order.
pub trait Readable: Space {
    ghost use Rattle.std.specs.Prelude.{ℕ};

    type Found;

    /// What the first solution is read as, within a budget.
    ghost finds: { Self → ℕ → Self.Found → Type 0 };

    /// What the values of the first solution are read as.
    fn read(&self, alloc: Global, values: &[u32]) -> Result<Self::Found, OutOfMemory>
        requires { solution_of (Self.puzzle self.now) ≡ Some values.now }
        ensures { IfOk result (λ found. (budget : ℕ)
            → IsFirst budget values.now (Self.puzzle self.now) → finds self.now budget found) };
}

/// What the first solution is read as. `budget` and `stop` are those of `first_solution`.
pub fn find_first<S: Readable, P: Stop>(
    alloc: Global,
    space: &S,
    budget: u64,
    stop: &mut P,
) -> Result<Search<S::Found>, OutOfMemory>
    ensures answer { IfOk result (IsFinding (S.finds space.now budget)
        (IsNotThere budget (S.puzzle space.now)) (IsSpent budget (S.puzzle space.now))
        (P.stops stop.old < P.stops stop.new)) }
    ensures continues { Continues P.Stop stop.old stop.new }
{
    find_first_by(alloc, space, &mut Anew, budget, stop)
}

/// `find_first` where this tester tests the constraints.
pub fn find_first_by<S: Readable, T: Tester<S>, P: Stop>(
    alloc: Global,
    space: &S,
    tester: &mut T,
    budget: u64,
    stop: &mut P,
) -> Result<Search<S::Found>, OutOfMemory>
    requires serves { T.serves tester.old space.now }
    ensures answer { IfOk result (IsFinding (S.finds space.now budget)
        (IsNotThere budget (S.puzzle space.now)) (IsSpent budget (S.puzzle space.now))
        (P.stops stop.old < P.stops stop.new)) }
    ensures continues { Continues P.Stop stop.old stop.new }
{
    match first_solution_by(alloc, space, tester, budget, stop) {
        Err(_) => Err(OutOfMemory),
        Ok(Search::Found(values)) => {
            let found = space.read(alloc, &values)?;
            Ok(Search::Found(found))
        }
        Ok(Search::NotThere) => Ok(Search::NotThere),
        Ok(Search::Spent) => Ok(Search::Spent),
        Ok(Search::Stopped) => Ok(Search::Stopped),
    }
}
