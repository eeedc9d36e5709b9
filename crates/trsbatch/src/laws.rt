ghost use Rattle.trsbatch.specs.OneText.{WrittenTextsAreOne};

/// A law, with nothing to run: over texts that the shelf tells, and where no block tells of a fault
/// or of want of memory, what is written does not depend on the number of workers, since one worker
/// has one text for each problem.
pub fn written_texts_are_one()
    ensures { WrittenTextsAreOne }
{}
