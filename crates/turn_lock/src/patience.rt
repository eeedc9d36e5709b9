use crossbeam_utils::Backoff;
use std::cell::Cell;
use std::sync::Wait;
use std::thread::Parker;
use std::time::Duration;

// The first and the longest sleep, in microseconds.
const SHORTEST: u64 = 50;

const LONGEST: u64 = 4_000;

/// How long a thread waits between two tries: it spins and yields a few times, and then sleeps, each
/// time twice as long, up to four thousandths of a second.
#[derive(Drop)]
pub struct Patience {
    backoff: Backoff,
    sleeper: Parker,
    nap: Cell<u64>,
}

impl Patience {
    pub fn new() -> Patience {
        Patience {
            backoff: Backoff::new(),
            sleeper: Parker::new(),
            nap: Cell::new(SHORTEST),
        }
    }

    /// Waits once. Nothing wakes it earlier.
    pub fn wait<R: Wait>(&self, rt: &R) {
        if !self.backoff.is_completed() {
            self.backoff.snooze();
            return;
        }
        let nap = self.nap.get();
        self.sleeper.park_timeout(rt, Duration::from_micros(nap));
        self.nap.set(nap.saturating_mul(2).min(LONGEST));
    }
}
