//! A device that is read ahead.
//!
//! It promises to the crates above: a [`ReadAhead`] is the device that it is made of, byte for byte and crash for crash, as the
//! trait `Disk` says it. Small reads in order are served from one larger read. A write forgets what was read ahead.
#![tactic(auto)]

mod device;
mod piece;

pub use device::ReadAhead;
