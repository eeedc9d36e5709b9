ghost use Rattle.std.specs.Prelude.{◌≡◌, All, IfOk, map};
ghost use Rattle.sexp_core.specs.Printed.{lines};
ghost use Rattle.cert_text.specs.cert_step.ProofStep.{node_step_of};
ghost use Rattle.cert_text.specs.CertificateText.{certificate_items};
ghost use Rattle.cert_text.specs.step_text.Ranges.{IsPrintable};
ghost use Rattle.cert_text.specs.cert_step.Nodes.{IsAccepted};
ghost use Rattle.conclusion.specs.InOrder.{AreInOrder};
ghost use Rattle.conclusion.specs.ProofOf.{proof_of, Proves};

use cert_text::{Certificate, Claim, NodeStep, claim_headline, print_certificate};
use names_text::NamedTrs;
use std::alloc::Global;
use trs_core::OutOfMemory;

/// The text of a proof: a certificate in version 1, with the headline of its claim.
pub fn print_proof(
    alloc: Global,
    system: &NamedTrs,
    claim: Claim,
    steps: Vec<NodeStep>,
) -> Result<Vec<u8>, OutOfMemory>
    requires printable { All (IsPrintable system.now.system) (map node_step_of steps.items) }
    requires in_order { AreInOrder (map node_step_of steps.items) }
    requires accepted { IsAccepted system.now.system claim (map node_step_of steps.items) }
    ensures text { IfOk result (λ text. text.items
        ≡ lines (certificate_items system.now (proof_of claim (map node_step_of steps.items)))) }
    ensures proves { IfOk result (λ text. Proves system.now claim text.items) }
{
    let certificate = Certificate {
        version: 1,
        headline: claim_headline(claim),
        claim,
        steps,
    };
    print_certificate(alloc, system, &certificate)
}
