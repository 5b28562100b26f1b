//! Lines of IRC: one line by its grammar, read, made and written, and a stream of bytes cut into
//! lines.
#![tactic(auto)]

mod input;
pub mod laws;
mod line;
mod param_list;
mod scan;
mod splitter;
mod tags;
mod writing;

pub use input::{InputEnd, LineTaker, READ_LIMIT, ReadPoint, read_from_start, read_lines};
pub use line::{Line, MakeError};
pub use param_list::Params;
pub use scan::{place_of, split_byte};
pub use splitter::{FeedError, LINE_LIMIT, Splitter, lines_in};
pub use std::alloc::AllocError as OutOfMemory;
pub use writing::write_line;
