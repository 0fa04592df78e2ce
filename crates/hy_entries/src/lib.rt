//! The entries of a log, read from its bodies.
//!
//! It promises to the crates above, for every device: [`read_into`] hands over the entries that the log's bodies spell past a
//! position, which are lawful, one after another, or tells the first position that is refused and why. [`entries_past`] and
//! [`shared_entries_of`] keep them in a list, and [`judge_entries`] keeps none. All only look: the log and what the device
//! holds stay as they were, each body is read once, and the device is blamed only where its count of faults rose.
#![tactic(auto)]

mod listing;
mod reading;
mod receiving;

pub use reading::{EntriesError, entries_past, judge_entries, read_into, shared_entries_of};
pub use receiving::{KeepsNone, Receiver};
