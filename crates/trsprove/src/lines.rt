ghost use Rattle.std.specs.Prelude.{◌≡◌, ◌++◌, ◌∷◌, [], IfOk, OnOk};
ghost use Rattle.program_edge.specs.Numbers.{fields_text};
ghost use Rattle.trsprove.specs.Lines.{accepted_line, rejected_words, rejected_numbers, rejected_fields, rejected_line};

use certifier::{Claim, Rejected};
use itoa::Buffer;
use std::alloc::{AllocError, Global};

/// The line of a claim that is accepted.
pub(crate) fn accepted_line(claim: Claim) -> &'static [u8]
    ensures { result.now ≡ accepted_line claim }
{
    match claim {
        Claim::Terminating => b"ACCEPTED terminating\n",
        Claim::Nonterminating => b"ACCEPTED nonterminating\n",
        Claim::Confluent => b"ACCEPTED confluent\n",
        Claim::Nonconfluent => b"ACCEPTED nonconfluent\n",
        Claim::Unique => b"ACCEPTED unique\n",
        Claim::Nonunique => b"ACCEPTED nonunique\n",
    }
}

/// The line of a rejection.
pub(crate) fn rejected_line(alloc: Global, rejected: &Rejected) -> Result<Vec<u8>, AllocError>
    ensures { IfOk result (λ line. line.items ≡ rejected_line rejected.now) }
{
    let mut line = Vec::from_slice(alloc, words_of(rejected))?;
    push_numbers(&mut line, rejected)?;
    push_reason(&mut line, rejected)?;
    line.push(b'\n')?;
    Ok(line)
}

fn words_of(rejected: &Rejected) -> &'static [u8]
    ensures { result.now ≡ rejected_words rejected.now }
{
    match rejected {
        Rejected::Problem(_) => b"REJECTED problem",
        Rejected::Text(_) => b"REJECTED text",
        Rejected::Version(_) => b"REJECTED version",
        Rejected::Headline => b"REJECTED headline",
        Rejected::NoNode(_) => b"REJECTED no-node",
        Rejected::Decided(_) => b"REJECTED decided",
        Rejected::Step(_, _) => b"REJECTED step",
        Rejected::Open(_) => b"REJECTED open",
        Rejected::OutOfMemory => b"REJECTED memory",
    }
}

// The numbers of a rejection behind its words, those of a reason aside.
fn push_numbers(line: &mut Vec<u8>, rejected: &Rejected) -> Result<(), AllocError>
    ensures { OnOk result
        (line.new.items ≡ line.old.items ++ fields_text (rejected_numbers rejected.now)) }
{
    match rejected {
        Rejected::Text(at) => push_fields(line, &[*at as u64]),
        Rejected::Version(n) | Rejected::NoNode(n) | Rejected::Decided(n) | Rejected::Open(n) =>
            push_fields(line, &[*n]),
        Rejected::Step(i, reason) => push_fields(line, &[*i, reason.number() as u64]),
        Rejected::Problem(_) | Rejected::Headline | Rejected::OutOfMemory => push_fields(line, &[]),
    }
}

// The fields of the reason, of a step that is refused.
fn push_reason(line: &mut Vec<u8>, rejected: &Rejected) -> Result<(), AllocError>
    ensures { OnOk result
        (line.new.items ≡ line.old.items ++ fields_text (rejected_fields rejected.now)) }
{
    match rejected {
        Rejected::Step(_, reason) => push_fields(line, reason.fields().as_slice()),
        _ => push_fields(line, &[]),
    }
}

// Numbers, with a blank before each.
fn push_fields(line: &mut Vec<u8>, fields: &[u64]) -> Result<(), AllocError>
    ensures { OnOk result (line.new.items ≡ line.old.items ++ fields_text fields.now) }
{
    match fields.split_first() {
        None => Ok(()),
        Some((field, rest)) => {
            let mut buffer = Buffer::new();
            line.push(b' ')?;
            line.extend_from_slice(buffer.format(*field).as_bytes())?;
            push_fields(line, rest)
        }
    }
}
