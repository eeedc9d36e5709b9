ghost use Rattle.std.specs.Prelude.{◌≡◌, IfOk};
ghost use Rattle.program_edge.specs.Fetching.{IsUnfetched};
ghost use Rattle.trsprove.specs.Answers.{status_of, text_of};

use ari_text::AriFault;
use certifier::Claim;
use io_edge::FetchFault;
use program_edge::{Status, Unfetched, name_fault};
use std::alloc::AllocError;

/// What is to be written.
#[derive(Drop)]
pub(crate) enum Answer<'a> {
    /// The claim of an accepted certificate.
    Accepted(Claim),
    /// The text of an answer: an accepted certificate in version 2, what answers a question, how
    /// completion ends, or the line of a sample.
    Answered(Vec<u8>),
    /// The line of a rejection.
    Rejected(Vec<u8>),
    /// An accepted certificate weighs too much in version 2.
    TooHeavy,
    Usage,
    Refused(AriFault),
    /// The order text is refused at a place.
    OrderRefused(u32),
    Unfetched(Unfetched<'a>),
}

impl<'a> Answer<'a> {
    pub(crate) fn status(&self) -> Status
        ensures { result ≡ status_of self.now }
    {
        match self {
            Answer::Accepted(_) | Answer::Answered(_) => Status::Answered,
            Answer::Rejected(_) | Answer::TooHeavy => Status::Rejected,
            Answer::Usage => Status::Usage,
            Answer::Refused(_) | Answer::OrderRefused(_) => Status::Refused,
            Answer::Unfetched(unfetched) => unfetched.status(),
        }
    }
}

/// The answer where the text under a name could not be fetched.
pub(crate) fn not_fetched<'a>(name: &'a str, fault: FetchFault) -> Result<Answer<'a>, AllocError>
    ensures { IfOk result (λ a. IsUnfetched fault name.now (status_of a) (text_of a)) }
{
    Ok(Answer::Unfetched(name_fault(name, fault)?))
}
