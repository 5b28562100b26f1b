//! Tests alone: the bouncer of `test_bouncer` between a small network and clients of the test.
#![tactic(auto)]

#[cfg(test)]
mod budget;
#[cfg(test)]
mod coming_back;
#[cfg(test)]
mod connections;
#[cfg(test)]
mod control;
#[cfg(test)]
mod pacing;
#[cfg(test)]
mod pasting;
#[cfg(test)]
mod proxied;
#[cfg(test)]
mod strangers;
