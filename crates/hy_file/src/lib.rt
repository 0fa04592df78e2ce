//! A real file as a device.
//!
//! It promises to the crates above: a [`FileDisk`] meets the trait `Disk`. Its file is opened in its first call, and made
//! there where it is missing. A call that fails, also by opening, counts a fault, and a later one tries again. It tells
//! nothing of what the file holds: what a real file keeps through a crash is proved of nothing here, and tests read
//! back what was written.
#![tactic(auto)]

mod disk;
mod late;
mod preallocated;

pub use disk::FileDisk;
