//! Tests alone: scripts of events over a hub whose ends are in memory, late attach from both sides,
//! rings of persons, a hub that goes on from what was before, and a hub's calls made again after an
//! allocation failed.
#![tactic(auto)]

#[cfg(test)]
mod hub_rows;
#[cfg(test)]
mod late_attach;
#[cfg(test)]
mod once_refused;
#[cfg(test)]
mod persons;
#[cfg(test)]
mod restarts;
