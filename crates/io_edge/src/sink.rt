ghost use Rattle.std.specs.Prelude.{◌≡◌, [], OnOk, OnErr};
ghost use Rattle.io_edge.specs.Edge.{Rose};
ghost use Rattle.io_edge.specs.Sink.{SinkMeaning, AppendsTo, AppendsPrefix, pieces_in, TakesPieces, IsOnePut, NoSinkCountFell};

use crate::fault::SinkFailed;

/// A place that takes bytes piece by piece, and counts its calls and its faults.
pub trait Sink {
    ghost means: { Self → SinkMeaning };

    /// Puts a piece behind the bytes that were taken. After a failure some front of it was taken.
    fn put(&mut self, piece: &[u8]) -> Result<(), SinkFailed>
        ensures whole { OnOk result (AppendsTo (means self.old) piece.now (means self.new)) }
        ensures part { OnErr result (AppendsPrefix (means self.old) piece.now (means self.new)) }
        ensures piece { OnOk result
            (TakesPieces (means self.old) (pieces_in piece.now) (means self.new)) }
        ensures none { OnErr result (TakesPieces (means self.old) [] (means self.new)) }
        ensures faultless { OnOk result ((means self.new).faults ≡ (means self.old).faults) }
        ensures failed { OnErr result (Rose (means self.old).faults (means self.new).faults) }
        ensures put { IsOnePut (means self.old) (means self.new) }
        ensures counts { NoSinkCountFell (means self.old) (means self.new) };
}
