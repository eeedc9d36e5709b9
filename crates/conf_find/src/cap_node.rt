/// A cap over earlier caps, which it names by their numbers.
#[derive(Drop)]
pub(crate) enum CapNode {
    /// A hole.
    Open,
    /// A variable that counts as a constant.
    Own(u32),
    /// A symbol over the caps of its arguments.
    Symbol(u32, Vec<u32>),
}
