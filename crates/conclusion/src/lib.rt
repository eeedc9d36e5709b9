//! The answer to a question about a system: what the proof tree found out, as a text. A proof that
//! was found is printed as a certificate.
#![tactic(auto)]

mod answering;
mod in_order;
mod laws;
mod printing;
mod tree_text;

pub use answering::{answer_question, answer_question_with};
pub use cert_text::{fits_version_two, print_version_two};
pub use in_order::{found_steps_are_in_order, steps_apply_in_order};
pub use laws::proved_claims_are_true;
pub use printing::print_proof;
pub use report_text::Question;
pub use worker_pool::{Gate, OpenGate};
