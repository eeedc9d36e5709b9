//! The words of the command line.
//!
//! `trsprove <action> <problem> [certificate] [--workers N] [--budget B]` is one simple `clap`
//! command without subcommands, help or version flags. The action `complete` has an order text in
//! place of a certificate, and the action `sample` a size, a number, in place of a problem.
#![tactic(auto)]

ghost use Rattle.std.specs.Prelude.{◌≡◌, ◌≤◌, IfOk, IfSome, map, option_map};
ghost use Rattle.std.specs.Option.{option_copied};
ghost use Rattle.clap.specs.Words.{app_of, found_of, rows_of};
ghost use Rattle.clap.specs.declared.error.kind.ErrorKind.TheVariants.{OutOfMemory as NoMemory};
ghost use Rattle.command_line.specs.Request.{command_app, request_of, request_view, asked_by, requested, action_of, positive, number_or, IsFrom1To, IsInRange, Answers};
ghost use Rattle.command_line.specs.declared.Refused.TheVariants.{OutOfMemory};

use clap::error::ErrorKind;
use clap::{Arg, ArgMatches, Command};
use numerals::numeral_value;
use std::alloc::{AllocError, Global};

/// What is to be written of a certificate that is accepted.
#[derive(Clone, Copy, Debug, PartialEq, Eq)]
pub enum Wanted {
    /// Its claim, by the action `certify`.
    Claim,
    /// The certificate in version 2, by the action `upgrade`.
    VersionTwo,
}

/// A question about a system, which is proved or refuted.
#[derive(Clone, Copy, Debug, PartialEq, Eq)]
pub enum Question {
    /// Whether it terminates.
    Termination,
    /// Whether it is confluent.
    Confluence,
    /// Whether no term reaches two different normal forms.
    Unique,
}

/// What an action does.
#[derive(Clone, Copy, Debug, PartialEq, Eq)]
pub enum Action {
    /// It certifies, and writes what is wanted.
    Certify(Wanted),
    /// It looks for a proof or a refutation.
    Prove(Question),
    /// It completes equations by an order.
    Complete,
    /// It looks for a proof about a sample system, which no text says.
    Sample,
}

/// What the words ask for. There are 1 to 16 workers, and a budget is from 1 to 1,000,000.
#[derive(Clone, Copy, Debug)]
pub enum Request<'a> {
    /// To certify the text under the second name for the problem under the first.
    Certify {
        wanted: Wanted,
        problem: &'a str,
        certificate: &'a str,
    },
    /// To answer a question about the problem under a name.
    Prove {
        question: Question,
        problem: &'a str,
        workers: u32,
        budget: u64,
    },
    /// To complete the rules of the problem under the first name, read as equations, by the order
    /// under the second.
    Complete {
        problem: &'a str,
        order: &'a str,
        budget: u64,
    },
    /// To look for a proof about the sample system of a size, from 1 to 512.
    Sample {
        size: u32,
        workers: u32,
        budget: u64,
    },
}

/// Why words ask for nothing.
#[derive(Clone, Copy, Debug, PartialEq, Eq)]
pub enum Refused {
    /// `clap` refuses them, or a rule of the product does.
    Usage,
    OutOfMemory,
}

impl From<AllocError> for Refused {
    ghost from_gives = { λ _ e. e ≡ OutOfMemory };

    fn from(_e: AllocError) -> Refused {
        Refused::OutOfMemory
    }
}

// The command as clap reads it.
fn command<'a>(alloc: Global) -> Result<Command<'a>, AllocError>
    ensures { IfOk result (λ c. app_of c ≡ command_app) }
{
    let action = Arg::new(alloc, "action").required(true);
    let problem = Arg::new(alloc, "problem").required(true);
    let certificate = Arg::new(alloc, "certificate");
    let workers = Arg::new(alloc, "workers").long("workers");
    let budget = Arg::new(alloc, "budget").long("budget");
    let plain = Command::new(alloc, "trsprove")
        .no_binary_name(true)
        .disable_help_flag(true)
        .disable_version_flag(true);
    let first = plain.arg(action)?;
    let second = first.arg(problem)?;
    let third = second.arg(certificate)?;
    let fourth = third.arg(workers)?;
    let fifth = fourth.arg(budget)?;
    Ok(fifth)
}

// How the refusal of a kind is answered.
fn refusal(kind: ErrorKind) -> Refused
    ensures memory { kind ≡ NoMemory → result ≡ OutOfMemory }
{
    match kind {
        ErrorKind::OutOfMemory => Refused::OutOfMemory,
        _ => Refused::Usage,
    }
}

const MOST_WORKERS: u64 = 16;

/// The number of workers where the option is left out.
const WORKERS: u64 = 1;

const MOST_BUDGET: u64 = 1_000_000;

/// The budget where the option is left out.
const BUDGET: u64 = 20_000;

const MOST_SIZE: u64 = 512;

// A whole number from 1 to a limit.
#[tactic(auto, using(numerals::proofs::Limits::numeral_within))]
fn positive(text: &str, limit: u64) -> Option<u64>
    ensures value { result ≡ positive limit text.now }
    ensures within { IfSome result (λ n. n ≤ limit) }
    ensures low { IfSome result (λ n. 1 ≤ n) }
{
    match numeral_value(text.as_bytes(), limit) {
        None => None,
        Some(0) => None,
        Some(number) => Some(number),
    }
}

// The value of an option, or what stands for it where it is left out.
fn number_or(value: Option<&str>, limit: u64, default: u64) -> Option<u64>
    requires within { default ≤ limit }
    requires low { 1 ≤ default }
    ensures value { result ≡ number_or limit default (option_copied value.entry) }
    ensures within { IfSome result (λ n. n ≤ limit) }
    ensures low { IfSome result (λ n. 1 ≤ n) }
{
    match value {
        None => Some(default),
        Some(text) => positive(text, limit),
    }
}

// The action of a word.
fn action_of(word: &str) -> Option<Action>
    ensures { result ≡ action_of word.now }
{
    if word == "certify" {
        Some(Action::Certify(Wanted::Claim))
    } else if word == "upgrade" {
        Some(Action::Certify(Wanted::VersionTwo))
    } else if word == "termination" {
        Some(Action::Prove(Question::Termination))
    } else if word == "confluence" {
        Some(Action::Prove(Question::Confluence))
    } else if word == "unique" {
        Some(Action::Prove(Question::Unique))
    } else if word == "complete" {
        Some(Action::Complete)
    } else if word == "sample" {
        Some(Action::Sample)
    } else {
        None
    }
}

// What an action asks for with a problem, or a size of samples, and a certificate, or an order text,
// if there is one.
fn request_for<'a>(
    action: Action,
    problem: &'a str,
    certificate: Option<&'a str>,
    workers: u32,
    budget: u64,
) -> Option<Request<'a>>
    requires workers { IsFrom1To 16 workers }
    requires budget { IsFrom1To 1000000 budget }
    ensures request { option_map request_view result
        ≡ requested action problem.now (option_copied certificate.entry) workers budget }
    ensures range { IfSome result IsInRange }
{
    match (action, certificate) {
        (Action::Certify(wanted), Some(certificate)) => Some(Request::Certify {
            wanted,
            problem,
            certificate,
        }),
        (Action::Prove(question), None) => Some(Request::Prove {
            question,
            problem,
            workers,
            budget,
        }),
        (Action::Complete, Some(order)) => Some(Request::Complete {
            problem,
            order,
            budget,
        }),
        (Action::Sample, None) => {
            let size = positive(problem, MOST_SIZE)?;
            Some(Request::Sample {
                size: size as u32,
                workers,
                budget,
            })
        }
        _ => None,
    }
}

// What the matches ask for.
#[tactic(auto, using(crate::proofs::Refusing::row_value))]
fn request_from<'a>(matches: &ArgMatches<'a>) -> Option<Request<'a>>
    ensures request { option_map request_view result ≡ asked_by (rows_of (found_of matches.now)) }
    ensures range { IfSome result IsInRange }
{
    let workers = number_or(matches.get_str("workers"), MOST_WORKERS, WORKERS)?;
    let budget = number_or(matches.get_str("budget"), MOST_BUDGET, BUDGET)?;
    let action = action_of(matches.get_str("action")?)?;
    let problem = matches.get_str("problem")?;
    let certificate = matches.get_str("certificate");
    request_for(action, problem, certificate, workers as u32, budget)
}

/// What the words ask for, the program's name left out. `Usage` comes exactly where they ask for
/// nothing: where `clap`'s rules for the simple command refuse them; the action is none of
/// `certify`, `upgrade`, `termination`, `confluence`, `unique`, `complete` and `sample`; the first
/// two have no certificate or `complete` no order, or another has a third word; the second word of
/// `sample` is no size from 1 to 512; or `--workers` is not from 1 to 16, or `--budget` not from 1
/// to 1,000,000. A certificate is judged with no look at the two numbers, and equations are
/// completed with no look at the first.
pub fn parse<'a>(alloc: Global, words: &'a [&'a str]) -> Result<Request<'a>, Refused>
    ensures answer { Answers result (request_of (map (λ w. w.now) words.now)) }
    ensures range { IfOk result IsInRange }
{
    let command = command(alloc)?;
    match command.try_get_matches_from(words) {
        Ok(matches) => match request_from(&matches) {
            Some(request) => Ok(request),
            None => Err(Refused::Usage),
        },
        Err(error) => Err(refusal(error.kind())),
    }
}
