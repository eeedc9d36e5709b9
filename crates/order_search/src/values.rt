//! Values of slots.
ghost use Rattle.std.specs.Prelude.{◌≡◌, get_or};

/// The value of the slot of this number, or 0 where it has none yet.
pub fn value_at(values: &[u32], slot: usize) -> u32
    ensures { result ≡ get_or values.now slot 0 }
{
    match values.get(slot) {
        Some(value) => *value,
        None => 0,
    }
}
