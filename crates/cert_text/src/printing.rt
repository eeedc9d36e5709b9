ghost use Rattle.std.specs.Prelude.{◌≡◌, ◌++◌, [], ◌∷◌, true, map, All, OnOk, IfOk};
ghost use Rattle.std.specs.List.{AllByRecursion};
ghost use Rattle.sexp_core.specs.Items.{no_items, item, items_of};
ghost use Rattle.sexp_core.specs.Printed.{text_of, lines};
ghost use Rattle.names_text.specs.VariableNames.{underscores as underscores_of};
ghost use Rattle.step_text.specs.cert_step.ProofStep.{step_of, node_step_of};
ghost use Rattle.step_text.specs.Ranges.{HasNumbersInRange, IsPrintable};
ghost use Rattle.step_text.specs.Steps.{paths_of_step, step_item};
ghost use Rattle.text_reading.specs.Printed.{word_item};
ghost use Rattle.path_text.specs.Paths.{paths_in};
ghost use Rattle.cert_text.specs.Head.{headline_word as word_of_headline, head_item};
ghost use Rattle.cert_text.specs.ProofText.{ProofText, proof_text_of};
ghost use Rattle.cert_text.specs.CertificateText.{SaysCertificate, certificate_items, shared_lines, version_two_items, fits_two};
ghost use Rattle.cert_text.specs.Renumbered.{renumbered};

use crate::Certificate;
use crate::head::{claim_word, headline_word};
use names_text::{NamedTrs, underscores};
use path_text::{PathNames, fits_printed, put_definitions, repeated_paths};
use rewrite_core::PathStep;
use std::alloc::Global;
use step_text::{Claim, NodeStep, push_paths, put_step};
use text_reading::{put, put_number};
use trs_core::OutOfMemory;

/// The text of a certificate in version 1, whatever its own version is: a line with the headline, a
/// line `(certificate 1 claim)`, and a line for each step, with one blank between members and
/// constants without brackets. Variable i, as counted by first occurrences in the step's term, is
/// written as underscores and i in decimal, so that its name is that of no symbol.
pub fn print_certificate(
    alloc: Global,
    system: &NamedTrs,
    certificate: &Certificate,
) -> Result<Vec<u8>, OutOfMemory>
    requires { All (IsPrintable system.now.system) (proof_text_of certificate.now).steps }
    ensures text { IfOk result (λ text.
        text.items ≡ lines (certificate_items system.now (proof_text_of certificate.now))) }

    // It says the certificate, with other numbers of variables, and nothing else.
    ensures read { IfOk result (λ text. SaysCertificate system.now text.items
        (renumbered 1 (proof_text_of certificate.now))) }
    ensures alone { IfOk result (λ text. (other : ProofText)
        → SaysCertificate system.now text.items other
        → other ≡ renumbered 1 (proof_text_of certificate.now)) }
{
    let mut out = Vec::new(alloc);
    put_start(&mut out, certificate.headline, 1, certificate.claim)?;
    put_plain_steps(
        alloc,
        &mut out,
        system,
        underscores(system),
        &certificate.steps,
    )?;
    Ok(out)
}

/// The text of a certificate in version 2, whatever its own version is: as in version 1, but each
/// path of at least one step that occurs more than once is defined once, behind the head, as p0, p1
/// and so on in the order of first occurrences, and used wherever it occurs.
pub fn print_version_two(
    alloc: Global,
    system: &NamedTrs,
    certificate: &Certificate,
) -> Result<Vec<u8>, OutOfMemory>
    requires printable { All (IsPrintable system.now.system) (proof_text_of certificate.now).steps }
    requires fits { fits_two (proof_text_of certificate.now) ≡ true }
    ensures text { IfOk result (λ text.
        text.items ≡ lines (version_two_items system.now (proof_text_of certificate.now))) }

    // It says the certificate, with other numbers of variables, and nothing else.
    ensures read { IfOk result (λ text. SaysCertificate system.now text.items
        (renumbered 2 (proof_text_of certificate.now))) }
    ensures alone { IfOk result (λ text. (other : ProofText)
        → SaysCertificate system.now text.items other
        → other ≡ renumbered 2 (proof_text_of certificate.now)) }
{
    let mut out = Vec::new(alloc);
    put_start(&mut out, certificate.headline, 2, certificate.claim)?;
    put_shared_steps(
        alloc,
        &mut out,
        system,
        underscores(system),
        &certificate.steps,
    )?;
    Ok(out)
}

/// Whether the weights of all paths, as `print_version_two` writes them, are within the weight that
/// a text of version 2 may have, 8,388,608: those of the definitions, and of each path where it
/// occurs.
pub fn fits_version_two(alloc: Global, certificate: &Certificate) -> Result<bool, OutOfMemory>
    ensures { IfOk result (λ fits. fits ≡ fits_two (proof_text_of certificate.now)) }
{
    let paths = paths_of_steps(alloc, &certificate.steps)?;
    fits_printed(alloc, &paths)
}

/// The paths of steps, in the order of the text.
fn paths_of_steps<'c>(
    alloc: Global,
    steps: &'c [NodeStep],
) -> Result<Vec<&'c [PathStep]>, OutOfMemory>
    ensures { IfOk result (λ paths. map (λ p. p.now) paths.items
        ≡ paths_in paths_of_step (map node_step_of steps.now)) }
{
    let mut paths = Vec::new(alloc);
    for step in steps {
        push_paths(&mut paths, &step.step)?;
    }
    Ok(paths)
}

/// Appends the headline and the head.
fn put_start(
    out: &mut Vec<u8>,
    headline: bool,
    version: u64,
    claim: Claim,
) -> Result<(), OutOfMemory>
    ensures { OnOk result (out.new.items ≡ out.old.items
        ++ lines (item (word_item (word_of_headline headline))
        (item (head_item version claim) no_items))) }
{
    put(out, headline_word(headline))?;
    put(out, b"\n")?;
    put_head(out, version, claim)?;
    Ok(())
}

/// Appends the line `(certificate version claim)`.
fn put_head(out: &mut Vec<u8>, version: u64, claim: Claim) -> Result<(), OutOfMemory>
    ensures { OnOk result (out.new.items
        ≡ out.old.items ++ (text_of (head_item version claim) ++ 10 ∷ [])) }
{
    put(out, b"(certificate ")?;
    put_number(out, version)?;
    put(out, b" ")?;
    put(out, claim_word(claim))?;
    put(out, b")\n")?;
    Ok(())
}

/// The text of one step, as `print_certificate` writes it, with no line feed.
pub fn print_step(alloc: Global, system: &NamedTrs, step: &NodeStep) -> Result<Vec<u8>, OutOfMemory>
    requires { IsPrintable system.now.system (node_step_of step.now) }
    ensures { IfOk result (λ text.
        text.items ≡ text_of (step_item system.now [] (node_step_of step.now))) }
{
    let mut out = Vec::new(alloc);
    put_step(
        alloc,
        &mut out,
        system,
        &PathNames::new(alloc),
        underscores(system),
        step,
    )?;
    Ok(out)
}

/// Appends a line for each step, with no path that has a name.
fn put_plain_steps(
    alloc: Global,
    out: &mut Vec<u8>,
    system: &NamedTrs,
    underscores: usize,
    steps: &[NodeStep],
) -> Result<(), OutOfMemory>
    requires { underscores ≡ underscores_of system.now.names }
    ensures text { OnOk result (out.new.items ≡ out.old.items
        ++ lines (items_of (map (step_item system.now []) (map node_step_of steps.now)))) }
    ensures range { OnOk result
        (AllByRecursion (λ s. HasNumbersInRange (step_of s.step)) steps.now) }
{
    let no_names = PathNames::new(alloc);
    put_steps(alloc, out, system, &no_names, underscores, steps)?;
    Ok(())
}

/// Appends a line with a definition for each path that occurs more than once, and a line for each
/// step.
fn put_shared_steps(
    alloc: Global,
    out: &mut Vec<u8>,
    system: &NamedTrs,
    underscores: usize,
    steps: &[NodeStep],
) -> Result<(), OutOfMemory>
    requires { underscores ≡ underscores_of system.now.names }
    ensures text { OnOk result (out.new.items ≡ out.old.items
        ++ lines (items_of (shared_lines system.now (map node_step_of steps.now)))) }
    ensures range { OnOk result
        (AllByRecursion (λ s. HasNumbersInRange (step_of s.step)) steps.now) }
{
    let paths = paths_of_steps(alloc, steps)?;
    let names = repeated_paths(alloc, &paths)?;
    put_definitions(out, &names)?;
    put_steps(alloc, out, system, &names, underscores, steps)?;
    Ok(())
}

/// Appends a line for each step.
fn put_steps(
    alloc: Global,
    out: &mut Vec<u8>,
    system: &NamedTrs,
    names: &PathNames<'_>,
    underscores: usize,
    steps: &[NodeStep],
) -> Result<(), OutOfMemory>
    requires { underscores ≡ underscores_of system.now.names }
    ensures text { OnOk result (out.new.items ≡ out.old.items
        ++ lines (items_of (map (step_item system.now names.now) (map node_step_of steps.now)))) }
    ensures range { OnOk result
        (AllByRecursion (λ s. HasNumbersInRange (step_of s.step)) steps.now) }
{
    for step in steps {
        put_step(alloc, out, system, names, underscores, step)?;
        put(out, b"\n")?;
    }
    Ok(())
}
