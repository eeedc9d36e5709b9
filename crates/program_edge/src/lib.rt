//! What both programs do at their edge. They end with a status; they put lines into a sink, those
//! that name a fault among them; they take the words of a host; and they answer a question about a
//! problem text.
#![tactic(auto)]

mod asking;
mod fetching;
mod lines;
mod pieces;
mod status;
mod words;

pub use asking::{Conclusion, conclude, conclude_last, conclude_with};
pub use conclusion::{Gate, OpenGate, fits_version_two, print_version_two};
pub use fetching::{MOST_PROBLEM_BYTES, Unfetched, name_fault};
pub use lines::put_refused;
pub use pieces::{put_fields, put_lines, put_one};
pub use status::Status;
pub use words::words_of;
