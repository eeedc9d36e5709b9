//! Certificates for a problem, by the actions `certify` and `upgrade`.
ghost use Rattle.std.specs.Prelude.{◌≡◌, ◌≤◌, true, Some, IfOk, length, All};
ghost use Rattle.program_edge.specs.conclusion.step_text.Ranges.{IsPrintable};
ghost use Rattle.program_edge.specs.conclusion.cert_text.ProofText.{proof_text_of};
ghost use Rattle.program_edge.specs.conclusion.cert_text.CertificateText.{fits_two};
ghost use Rattle.command_line.specs.Request.{certifies};
ghost use Rattle.program_edge.specs.Fetching.{most_problem_bytes};
ghost use Rattle.trsprove.specs.Verdicts.{Verdict, IsWritten, most_certificate_bytes};
ghost use Rattle.trsprove.specs.Answered.{IsAnswered};
ghost use Rattle.trsprove.specs.Answers.{status_of, text_of};

use crate::answer::{Answer, not_fetched};
use crate::lines::rejected_line;
use certifier::{AcceptedProof, Rejected, accepted_proof};
use command_line::Wanted;
use io_edge::Shelf;
use program_edge::{MOST_PROBLEM_BYTES, fits_version_two, print_version_two};
use std::alloc::{AllocError, Global};
use std::mem::forget;

/// The most bytes of a certificate text.
const MOST_CERTIFICATE_BYTES: u64 = 8_388_608;

/// The answer for the problem and the certificate under two names.
pub(crate) fn certify<'a, S: Shelf>(
    alloc: Global,
    shelf: &mut S,
    wanted: Wanted,
    problem: &'a str,
    certificate: &'a str,
) -> Result<Answer<'a>, AllocError>
    ensures { IsAnswered (Some (certifies wanted problem.now certificate.now))
        (S.means shelf.old) (S.means shelf.new) result }
{
    match shelf.fetch(problem, MOST_PROBLEM_BYTES) {
        Ok(problem_text) => match shelf.fetch(certificate, MOST_CERTIFICATE_BYTES) {
            Ok(certificate_text) => judge(alloc, wanted, &problem_text, &certificate_text),
            Err(fault) => not_fetched(certificate, fault),
        },
        Err(fault) => not_fetched(problem, fault),
    }
}

// The answer for two texts.
fn judge<'a>(
    alloc: Global,
    wanted: Wanted,
    problem: &[u8],
    certificate: &[u8],
) -> Result<Answer<'a>, AllocError>
    requires problem { length problem.now ≤ most_problem_bytes }
    requires certificate { length certificate.now ≤ most_certificate_bytes }
    ensures { IfOk result (λ a.
        Verdict problem.now certificate.now wanted (status_of a) (text_of a)) }
{
    match accepted_proof(alloc, problem, certificate) {
        Ok(proof) => {
            let answer = write_proof(alloc, wanted, &proof);
            // Its memory goes as a whole where the process ends.
            forget(proof);
            answer
        }
        Err(Rejected::Problem(fault)) => Ok(Answer::Refused(fault)),
        Err(Rejected::OutOfMemory) => Err(AllocError),
        Err(rejected) => Ok(Answer::Rejected(rejected_line(alloc, &rejected)?)),
    }
}

// What is written of a proof that is accepted.
fn write_proof<'a>(
    alloc: Global,
    wanted: Wanted,
    proof: &AcceptedProof,
) -> Result<Answer<'a>, AllocError>
    requires printable { All (IsPrintable proof.now.system.system)
        (proof_text_of proof.now.certificate).steps }
    ensures { IfOk result (λ a. IsWritten proof.now.system
        (proof_text_of proof.now.certificate) wanted (status_of a) (text_of a)) }
{
    match wanted {
        Wanted::Claim => Ok(Answer::Accepted(proof.certificate.claim)),
        Wanted::VersionTwo => upgrade(alloc, proof),
    }
}

// A proof that is accepted, in version 2.
fn upgrade<'a>(alloc: Global, proof: &AcceptedProof) -> Result<Answer<'a>, AllocError>
    requires printable { All (IsPrintable proof.now.system.system)
        (proof_text_of proof.now.certificate).steps }
    ensures { IfOk result (λ a. IsWritten proof.now.system
        (proof_text_of proof.now.certificate) Wanted.VersionTwo (status_of a) (text_of a)) }
{
    match fits_version_two(alloc, &proof.certificate) {
        Ok(true) => print_proof(alloc, proof),
        Ok(false) => Ok(Answer::TooHeavy),
        Err(_) => Err(AllocError),
    }
}

// The text in version 2 of a proof that fits it.
fn print_proof<'a>(alloc: Global, proof: &AcceptedProof) -> Result<Answer<'a>, AllocError>
    requires printable { All (IsPrintable proof.now.system.system)
        (proof_text_of proof.now.certificate).steps }
    requires fits { fits_two (proof_text_of proof.now.certificate) ≡ true }
    ensures { IfOk result (λ a. IsWritten proof.now.system
        (proof_text_of proof.now.certificate) Wanted.VersionTwo (status_of a) (text_of a)) }
{
    match print_version_two(alloc, &proof.system, &proof.certificate) {
        Ok(text) => Ok(Answer::Answered(text)),
        Err(_) => Err(AllocError),
    }
}
