//! What `bnc` does except serving: `view`, `attach`, `check`, `setup`, `log`, `password` and
//! `control`; the words of its command line; and how faults are reported.
#![tactic(auto)]

mod arguments;
mod attach;
mod caps_list;
mod check;
mod control;
mod fault;
mod input;
mod kept;
mod profiled;
mod report;
mod setup;
mod telling;
mod view;
mod warning;
mod words;

pub use attach::{Attaching, attach_input, run_attach, run_attach_by};
pub use caps_list::explain_caps;
pub use check::{check_file, run_check, settings_text};
pub use control::send_control;
pub use fault::Fault;
pub use kept::{log_file, run_log};
pub use profiled::{attach_file, run_attach_profiled};
pub use report::report_text;
pub use setup::{print_password, setup_file};
pub use telling::{tell_bad_words, tell_fault};
pub use view::{Viewing, report_input, run_view};
pub use warning::{warn_of_readers, warn_of_salts};
pub use words::{Command, Control, WordsFault, explain_words, read_words};
