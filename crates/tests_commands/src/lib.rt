//! Tests only: settings, the words of the command line, and inputs and outputs that fail.
#![tactic(auto)]

#[cfg(test)]
mod answers;
#[cfg(test)]
mod profile;
#[cfg(test)]
mod settings;
#[cfg(test)]
mod streams;
#[cfg(test)]
mod words;
