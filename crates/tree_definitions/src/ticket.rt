/// A claim of a strategy of a node, by the place of the strategy among those of the node's problem.
#[derive(Clone, Copy, Debug)]
pub struct Ticket {
    pub seat: u32,
    pub node: usize,
    pub place: usize,
    pub is_running: bool,
}
