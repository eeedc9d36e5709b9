//! What a history is made of.

/// An entry of a history, with the number of the seat that made it. Only entries from before the lock
/// was made have none.
#[derive(Drop)]
pub struct Signed<E> {
    pub by: Option<u32>,
    pub entry: E,
}
