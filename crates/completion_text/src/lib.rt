//! Texts of completion: an order text is read as the path order that it says, one that keeps all
//! arguments; and a problem text is completed by it, and the ending written.
#![tactic(auto)]

mod answering;
mod completing;
mod entries;
mod laws;
mod printing;
mod reading;
mod refused;

pub use answering::{CompletionAnswer, complete_texts};
pub use laws::order_texts_say_one_order;
pub use reading::read_order;
pub use refused::OrderRefused;
