//! Tests alone: networks that are begun anew, what is given back, lines of the log, and the parts of
//! `serving` by themselves.
#![tactic(auto)]

#[cfg(test)]
mod begun_anew;
#[cfg(test)]
mod given_back;
#[cfg(test)]
mod log_lines;
#[cfg(test)]
mod log_writing;
#[cfg(test)]
mod outgrown;
#[cfg(test)]
mod rejoining;
#[cfg(test)]
mod session;
