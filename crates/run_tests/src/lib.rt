//! Tests of what a run is made of, and of whole calls: trees, melds and rollers; simulated runs; the list that threads
//! share, and hubs; a stream in pieces; and `hyder_call` over sources, sinks and devices in memory, with what a failure of
//! each of their calls leaves. Texts, statuses and files are tried on the program itself, by `tests/rows`. It promises
//! nothing to a crate above.
#![tactic(auto)]

#[cfg(test)]
mod calls;
#[cfg(test)]
mod compactions;
#[cfg(test)]
mod courses;
#[cfg(test)]
mod failures;
#[cfg(test)]
mod history;
#[cfg(test)]
mod hub;
#[cfg(test)]
mod logs;
#[cfg(test)]
mod meld;
#[cfg(test)]
mod roller;
#[cfg(test)]
mod runs;
#[cfg(test)]
mod signals;
#[cfg(test)]
mod simulated_stops;
#[cfg(test)]
mod simulations;
#[cfg(test)]
mod slow;
#[cfg(test)]
mod slow_disk;
#[cfg(test)]
mod stopped_log;
#[cfg(test)]
mod streams;
#[cfg(test)]
mod tree;
