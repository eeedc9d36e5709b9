ghost use Rattle.std.specs.Prelude.{◌≡◌, ◌≤◌, ◌<◌, ℕ, List, take, length, IfOk, OnErr};
ghost use Rattle.io_edge.specs.Telling.{Telling, Gives, IsAtEnd, IsAtFault};

/// A file could not be opened, or not be read.
#[derive(Clone, Copy, Debug, PartialEq, Eq)]
pub struct ReadFailed;

/// Bytes that are read in pieces, up to the end or to a fault.
pub trait Source {
    ghost left: { Self → Telling };

    /// Reads bytes into the front of a buffer, and answers how many. None come at the end alone, or
    /// where the buffer has no room.
    fn read(&mut self, buffer: &mut [u8]) -> Result<usize, ReadFailed>
        ensures bound { IfOk result (λ n. n ≤ length buffer.new) }
        ensures given { IfOk result (λ n.
            Gives (left self.old) (take n buffer.new) (left self.new)) }
        ensures end { IfOk result (λ n. n ≡ 0 → 0 < length buffer.new →
            IsAtEnd (left self.new)) }
        ensures fault { OnErr result (IsAtFault (left self.new)) }
        ensures kept { OnErr result (left self.new ≡ left self.old) };
}

/// Files by their names.
pub trait Opener {
    type File: Source + Drop;

    ghost tells: { Self → List ℕ → Telling };

    /// The file of a name, from its first byte.
    fn open(&self, name: &str) -> Result<Self::File, ReadFailed>
        ensures opened { IfOk result (λ file. Self.File.left file ≡ tells self.now name.now) }
        ensures fault { OnErr result (IsAtFault (tells self.now name.now)) };
}
