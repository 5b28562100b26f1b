//! Tests alone: hubs between threads, with writers that are held, slow or broken, readers whose
//! input breaks off, and pumps that find no memory; and clients that are served over streams in
//! memory from their login to their end. Each wait has a limit.
#![tactic(auto)]

#[cfg(test)]
mod beside;
#[cfg(test)]
mod bulk;
#[cfg(test)]
mod diary;
#[cfg(test)]
mod ending;
#[cfg(test)]
mod held;
#[cfg(test)]
mod narrow;
#[cfg(test)]
mod once_refused;
#[cfg(test)]
mod pumping;
#[cfg(test)]
mod reading;
#[cfg(test)]
mod rings;
#[cfg(test)]
mod served;
#[cfg(test)]
mod slow;
#[cfg(test)]
mod vanished;
#[cfg(test)]
mod watched;
