use crate::entry::Entry;
use turn_lock::Sitting;

/// A watched search, as contracts see it: how often it was told to stop, its ticket, the seat with which
/// it began, and the seat now. No value of it is made.
pub struct Watching {
    pub stops: u64,
    pub ticket: u64,
    pub first: Sitting<Entry>,
    pub seat: Option<Sitting<Entry>>,
}
