use strategies::{NodeStep, Problem, Strategy};

/// What is reported of a goal that was lost.
#[derive(Drop)]
pub struct GoalReport {
    pub goal: u32,
    /// The steps that were found, in the order in which they are made.
    pub steps: Vec<NodeStep>,
    /// The least node that they leave open and for which each strategy failed.
    pub node: u64,
    /// Its problem.
    pub problem: Problem,
    /// The problem's strategies in order, and whether each failed by its budget.
    pub failed: Vec<(Strategy, bool)>,
}

/// What is reported where each goal was lost: a part for each goal, in order.
#[derive(Drop)]
pub struct Report {
    pub goals: Vec<GoalReport>,
}
