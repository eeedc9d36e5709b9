//! What a `TurnLock` keeps.
ghost use Rattle.std.specs.Prelude.{◌≡◌, List, length};
ghost use Rattle.turn_lock.specs.declared.signed.Signed.{Signed};

/// A value that stands for the list of what happened to it, its history.
pub trait Chronicle {
    /// What an entry of the history holds beside the number of the seat that made it. No value of it
    /// need ever be made.
    type Entry;

    ghost history: { Self → List (Signed Self.Entry) };

    /// How many entries the history has.
    fn length(&self) -> u64
        ensures { result ≡ length (history self.now) };
}
