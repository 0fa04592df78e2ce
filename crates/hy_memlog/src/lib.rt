//! A log over a device in memory, which can be stopped in an append and opened again.
//!
//! It promises to the crates above: a [`MemLog`] is a list of bodies. [`MemLog::append`] fails only when out of
//! memory or broken. [`MemLog::stop`] is a real failure of the device in the midst of an append, a crash, and a new opening:
//! what is left are the bodies before, and the new one exactly where the stop keeps it.
#![tactic(auto)]

mod memlog;
mod pages;

pub use memlog::MemLog;
