//! Tests alone: logins of clients and registrations at networks, line by line and over streams in
//! memory, also ones that fail, calls made again after an allocation failed, and a network that is
//! served under another nick.
#![tactic(auto)]

#[cfg(test)]
mod dialling;
#[cfg(test)]
mod login;
#[cfg(test)]
mod once_refused;
#[cfg(test)]
mod registration;
#[cfg(test)]
mod served;
#[cfg(test)]
mod settings;
