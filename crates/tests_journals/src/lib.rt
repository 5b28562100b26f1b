//! Tests alone: a journal between a hub and a disk that fails, or that finds no memory.
#![tactic(auto)]

#[cfg(test)]
mod crashes;
#[cfg(test)]
mod failing_disks;
#[cfg(test)]
mod long_file;
#[cfg(test)]
mod once_refused;
#[cfg(test)]
mod written;
