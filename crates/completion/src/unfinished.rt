/// Why a term was not brought to normal form.
#[derive(Clone, Copy, Debug, PartialEq, Eq)]
pub enum Unfinished {
    /// No unit was left for the next step.
    NoUnit,
    /// The next step passes a limit on computed terms.
    TooLarge,
}
