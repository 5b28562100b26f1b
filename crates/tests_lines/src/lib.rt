//! Tests alone: lines, names and network settings as they come, lines of proxies, logins to an
//! account, the messages that are kept, journals with their files, and what a client has received.
#![tactic(auto)]

#[cfg(test)]
mod file_faults;
#[cfg(test)]
mod journal_changes;
#[cfg(test)]
mod journals;
#[cfg(test)]
mod kept_bytes;
#[cfg(test)]
mod kept_messages;
#[cfg(test)]
mod kept_targets;
#[cfg(test)]
mod lines;
#[cfg(test)]
mod logins;
#[cfg(test)]
mod names;
#[cfg(test)]
mod proxies;
#[cfg(test)]
mod receipts_of_sessions;
#[cfg(test)]
mod settings;
