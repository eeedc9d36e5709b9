ghost use Rattle.conclusion.specs.Laws.{ProvedClaimsAreTrue};

/// A law, with nothing to run: where a text proves a claim of a system, the claim is true of it.
pub fn proved_claims_are_true()
    ensures { ProvedClaimsAreTrue }
{}
