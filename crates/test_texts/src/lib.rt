//! Lines, texts and answers as the tests of all crates write them down.
#![tactic(auto)]

mod answers;
mod lines;
mod texts;

pub use answers::again;
pub use lines::{line, texts_of};
pub use texts::{GREETING, OFFER, begins, joined};
