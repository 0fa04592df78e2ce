//! A device in memory, which tells all that a device can tell.
//!
//! It promises to the crates above: a [`MemDisk`] meets the traits `Disk` and `Tuned`, with content that is told. Its calls
//! fail exactly as planned: by their numbers, from an ordered failure on, and past the room. A write that finds room is
//! done also where it fails, and isn't synced. `stop` gives exactly the bytes that a crash leaves by one of three
//! patterns, and they are an image of that moment. Only making a device and `room` take memory.
#![tactic(auto)]

mod buffers;
mod calls;
mod mark;
mod memory;
mod room;
mod store;

pub use memory::MemDisk;
pub use room::Room;
