//! Tests alone: events for a steward, one after another, and what it answers to each; refusals that
//! are logged; the numbers of texts and addresses.
#![tactic(auto)]

#[cfg(test)]
mod clients;
#[cfg(test)]
mod networks;
#[cfg(test)]
mod numbers;
#[cfg(test)]
mod refusals;
#[cfg(test)]
mod rows;
