//! Threads may share a lock where its value may move between threads: the bound of `take_apart` on the
//! value is `Send` alone.
ghost use Rattle.std.specs.Prelude.{◌≡◌};

use crate::chronicle::Chronicle;
use crate::lock::{Held, Seat, TurnLock};
use std::sync::Wait;
use std::thread::{Threads, join};

/// Waits for a turn in each of two threads. (Of one lock, the second turn comes once the first is
/// given back, so this returns for seats of one lock only if somebody else gives it back.)
pub fn take_apart<T: Chronicle + Send, R: Threads + Wait + Sync>(
    rt: &R,
    lock: &TurnLock<T>,
    one: Seat<T>,
    other: Seat<T>,
) -> (Held<T>, Held<T>)
    requires one { one.lock ≡ lock.now }
    requires other { other.lock ≡ lock.now }
{
    join(rt, || lock.take(rt, one), || lock.take(rt, other))
}
