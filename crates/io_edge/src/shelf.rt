ghost use Rattle.std.specs.Prelude.{◌≤◌, length, IfOk, IsErrOf};
ghost use Rattle.io_edge.specs.Shelf.{ShelfMeaning, MayBe, MayPass, TellsTheSame, CountsRise, CountsFault, ReadPast};
ghost use Rattle.io_edge.specs.declared.fault.FetchFault.TheVariants.{TooLong};

use crate::fault::FetchFault;

/// Texts under names, and for each name a count of faults and one of bytes read. A name that was
/// never asked for has the counts 0.
pub trait Shelf {
    ghost means: { Self → ShelfMeaning };

    /// The whole text under a name, of at most `limit` bytes. A name with no text is a fault: where
    /// the shelf tells that there is none, no text is answered.
    fn fetch(&mut self, name: &str, limit: u64) -> Result<Vec<u8>, FetchFault>
        ensures whole { IfOk result (λ v. MayBe (means self.old) name.now v.items) }
        ensures bound { IfOk result (λ v. length v.items ≤ limit) }
        ensures too_long { IsErrOf result TooLong → MayPass limit (means self.old) name.now }
        ensures told { TellsTheSame (means self.old) (means self.new) }
        ensures faults { CountsRise (means self.old).faults (means self.new).faults name.now }
        ensures read { CountsRise (means self.old).bytes (means self.new).bytes name.now }
        ensures counted { CountsFault result
            (means self.old).faults (means self.new).faults name.now }
        ensures long { IsErrOf result TooLong →
            ReadPast limit (means self.old) (means self.new) name.now };
}
