/// Why a strategy finds no step for a problem.
#[derive(Clone, Copy, Debug, PartialEq, Eq)]
pub enum Failure {
    /// There is none within its search.
    NotThere,
    /// Its budget was spent.
    Spent,
}
