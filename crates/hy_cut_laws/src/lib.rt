//! What a run on a log that was cut comes to. Each law is the contract of a function that does nothing.
#![tactic(auto)]

mod laws;

pub use laws::{moves_are_blind, serial_from_base, serial_from_found};
