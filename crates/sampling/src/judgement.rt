/// What became of the question whether a system terminates.
#[derive(Clone, Copy, PartialEq, Eq, Debug)]
pub enum Judgement {
    /// It was proved to terminate.
    Proved,
    /// It was proved not to terminate.
    Refuted,
    /// Neither was proved.
    Open,
}
