//! The settings file that `bnc setup` writes: what it asks, which answers it takes, and the file's
//! text.
#![tactic(auto)]

mod answers;
mod interview;
mod password;
mod question;
mod writing;

pub use answers::Answers;
pub use interview::{Interview, Step};
pub use password::password_lines;
pub use question::Question;
pub use writing::settings_text;
