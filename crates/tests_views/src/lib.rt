//! Tests alone: transcripts as servers send them, with what the views show of them and what clients
//! that attach get; and calls whose allocations are refused one after another.
#![tactic(auto)]

#[cfg(test)]
mod arrivals;
#[cfg(test)]
mod clients;
#[cfg(test)]
mod long_rows;
#[cfg(test)]
mod moments;
#[cfg(test)]
mod playback;
#[cfg(test)]
mod quick;
#[cfg(test)]
mod read_back;
#[cfg(test)]
mod refused;
#[cfg(test)]
mod refusing;
#[cfg(test)]
mod said;
#[cfg(test)]
mod times;
#[cfg(test)]
mod views;
#[cfg(test)]
mod visits;
