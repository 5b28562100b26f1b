//! Tests alone: the readers, the pace and the writer of the shell, over streams in memory that come
//! in pieces and fail.
#![tactic(auto)]

#[cfg(test)]
mod after_connect;
#[cfg(test)]
mod clients;
#[cfg(test)]
mod last_lines;
#[cfg(test)]
mod last_words;
#[cfg(test)]
mod line_by_line;
#[cfg(test)]
mod memory;
#[cfg(test)]
mod networks;
#[cfg(test)]
mod nicks;
#[cfg(test)]
mod pace;
#[cfg(test)]
mod regain;
#[cfg(test)]
mod watched;
