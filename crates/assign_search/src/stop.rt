ghost use Rattle.std.specs.Prelude.{◌≡◌, ℕ, ◌<◌, ◌≤◌, IsTrue};

/// Tells a search to stop.
pub trait Stop {
    ghost Kept: { Type 0 };

    /// Data that no call changes.
    ghost kept: { Self → Kept };

    /// How many stops there were.
    ghost stops: { Self → ℕ };

    /// Whether the search is to stop now.
    fn stopped(&mut self) -> bool
        ensures kept { kept self.new ≡ kept self.old }
        ensures later { stops self.old ≤ stops self.new }
        ensures rose { IsTrue result → stops self.old < stops self.new };
}

/// It never stops.
#[derive(Drop)]
pub struct Never;

impl Stop for Never {
    ghost Kept = { ℕ };

    ghost kept = { λ _. 0 };

    ghost stops = { λ _. 0 };

    fn stopped(&mut self) -> bool {
        false
    }
}
