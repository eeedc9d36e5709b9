//! The nodes of a proof and the steps that are made on them: definitions, and the law that steps
//! which are accepted for a claim prove it.

ghost use Rattle.cert_step.specs.NodeLaws.{AcceptedClaimsAreTrue};

/// A law, with nothing to run: where steps are made one after another from the problem of a claim,
/// and no node is left without one, the claim is true of the system.
pub fn accepted_claims_are_true()
    ensures { AcceptedClaimsAreTrue }
{}
