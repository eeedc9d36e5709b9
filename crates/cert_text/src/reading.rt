ghost use Rattle.std.specs.Prelude.{◌≡◌, ◌≤◌, ◌^◌, length, map, All, IfOk, IfErr, MatchResult};
ghost use Rattle.sexp_core.specs.Items.{view, views};
ghost use Rattle.names_text.specs.Named.{NamedSystem};
ghost use Rattle.step_text.specs.cert_step.ProofStep.{IsWellMade, node_step_of};
ghost use Rattle.text_reading.specs.Seen.{seen};
ghost use Rattle.path_text.specs.Sharing.{nothing_defined};
ghost use Rattle.path_text.specs.Paths.{in_turn};
ghost use Rattle.step_text.specs.Ranges.{IsPrintable};
ghost use Rattle.step_text.specs.Steps.{step, paths_of_step};
ghost use Rattle.cert_text.specs.ProofText.{ProofText, proof_text_of};
ghost use Rattle.cert_text.specs.Answers.{Answers};
ghost use Rattle.cert_text.specs.Renumbered.{renumbered};
ghost use Rattle.cert_text.specs.CertificateText.{steps_alone, steps_behind, behind_head, behind_headline, certificate, SaysCertificate, IsCertificateRefused};

use crate::certificate::Certificate;
use crate::fault::CertFault;
use crate::head::{Head, read_head, read_headline};
use bumpalo::Bump;
use names_text::{NamedTrs, systems_are_named};
use path_text::{Shared, begins_with, read_define};
use sexp_core::{Sexp, read_all};
use std::alloc::Global;
use step_text::{NodeStep, read_step};
use text_reading::{Read, both};
use trs_core::OutOfMemory;

/// How many lists may be open at once.
const MOST_OPEN_LISTS: u32 = 1_040;

/// What a certificate text says over the symbols of a system. Places are byte offsets from 0. The
/// text is refused for its fault as a list of items, else for its headline, its head, a version
/// other than 1 and 2, or the least place of what can't stand where it does.
#[tactic(auto, using(crate::proofs::Certificates::refused_text, crate::proofs::Certificates::refused_items))]
pub fn read_certificate(
    alloc: Global,
    system: &NamedTrs,
    text: &[u8],
) -> Result<Certificate, CertFault>
    requires size { length text.now ≤ 2 ^ 31 }
    ensures found { IfOk result (λ c. SaysCertificate system.now text.now (proof_text_of c)) }
    ensures refused { IfErr result (IsCertificateRefused system.now text.now) }
    ensures well_made { IfOk result (λ c.
        All (λ s. IsWellMade system.now.system s.step) (proof_text_of c).steps) }

    // So it can be printed.
    ensures printable { IfOk result (λ c.
        All (IsPrintable system.now.system) (proof_text_of c).steps) }

    // The variables of its terms are numbered in the order of their first occurrences, so that what
    // is printed of it says the same.
    ensures in_order { IfOk result (λ c.
        renumbered c.version (proof_text_of c) ≡ proof_text_of c) }

    // What a text says is read, unless memory runs out.
    ensures only { (says : ProofText) → SaysCertificate system.now text.now says
        → MatchResult result (λ c. proof_text_of c ≡ says) (λ e. e ≡ CertFault.OutOfMemory) }
{
    systems_are_named(system);
    let arena = Bump::new(alloc);
    let items = read_all(&arena, alloc, text, MOST_OPEN_LISTS)?;
    read_items(alloc, system, text.len() as u32, &items)
}

/// The items of a text of this length.
fn read_items(
    alloc: Global,
    system: &NamedTrs,
    size: u32,
    items: &[Sexp],
) -> Result<Certificate, CertFault>
    ensures { Answers result (certificate system.now size (views items.now)) }
{
    let Some((first, later)) = items.split_first() else {
        return Err(CertFault::Text(size));
    };
    match read_headline(first) {
        Ok(headline) => read_behind_headline(alloc, system, size, headline, later),
        Err(at) => Err(CertFault::Text(at)),
    }
}

/// The items behind a headline, in a text of this length.
fn read_behind_headline(
    alloc: Global,
    system: &NamedTrs,
    size: u32,
    headline: bool,
    items: &[Sexp],
) -> Result<Certificate, CertFault>
    ensures { Answers result (behind_headline system.now size headline (views items.now)) }
{
    let Some((head, steps)) = items.split_first() else {
        return Err(CertFault::Text(size));
    };
    match read_head(head) {
        Ok(head) => read_behind_head(alloc, system, headline, head, steps),
        Err(at) => Err(CertFault::Text(at)),
    }
}

/// The items behind a head.
fn read_behind_head(
    alloc: Global,
    system: &NamedTrs,
    headline: bool,
    head: Head,
    items: &[Sexp],
) -> Result<Certificate, CertFault>
    ensures { Answers result (behind_head system.now headline head (views items.now)) }
{
    let steps = match head.version {
        1 => read_steps_alone(alloc, system, items)?,
        2 => read_behind_definitions(alloc, system, items)?,
        version => return Err(CertFault::Version(version)),
    };
    match both(head.claim, steps) {
        Ok((claim, steps)) => Ok(Certificate {
            version: head.version,
            headline,
            claim,
            steps,
        }),
        Err(at) => Err(CertFault::Text(at)),
    }
}

/// Steps that share nothing.
fn read_steps_alone(
    alloc: Global,
    system: &NamedTrs,
    items: &[Sexp],
) -> Result<Read<Vec<NodeStep>>, OutOfMemory>
    ensures { IfOk result (λ r. seen (λ v. map node_step_of v.items) r
        ≡ steps_alone system.now (views items.now)) }
{
    let mut sharing = None;
    let steps = read_steps(alloc, system, &mut sharing, items)?;
    Ok(steps)
}

/// Definitions, as far as items begin with their word, and the steps behind them.
fn read_behind_definitions(
    alloc: Global,
    system: &NamedTrs,
    items: &[Sexp],
) -> Result<Read<Vec<NodeStep>>, OutOfMemory>
    ensures { IfOk result (λ r. seen (λ v. map node_step_of v.items) r
        ≡ steps_behind system.now nothing_defined (views items.now)) }
{
    let mut shared = Shared::new(alloc);
    for (i, item) in items.iter().enumerate() {
        if !begins_with(b"define", item) {
            let mut sharing = Some(shared);
            let steps = read_steps(alloc, system, &mut sharing, &items[i..])?;
            return Ok(steps);
        }
        if let Err(at) = read_define(alloc, &mut shared, item)? {
            return Ok(Err(at));
        }
    }
    Ok(Ok(Vec::new(alloc)))
}

fn read_steps(
    alloc: Global,
    system: &NamedTrs,
    sharing: &mut Option<Shared>,
    items: &[Sexp],
) -> Result<Read<Vec<NodeStep>>, OutOfMemory>
    ensures { IfOk result (λ r. seen (λ v. map node_step_of v.items) r
        ≡ in_turn (step system.now) paths_of_step sharing.old (views items.now)) }
{
    let mut steps = Vec::new(alloc);
    for item in items {
        match read_step(alloc, system, sharing, item)? {
            Ok(step) => steps.push(step)?,
            Err(at) => return Ok(Err(at)),
        }
    }
    Ok(Ok(steps))
}
