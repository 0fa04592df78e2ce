//! A simulated run over one log: its state, one event after another.
//!
//! It promises to the crates above: a [`Core`] is a script, a state that a run of the script reaches, and the programs that
//! ended. [`Core::step`] moves by an event only where it may happen, and else changes nothing, but that out of memory once a
//! stop has happened breaks it; [`Core::run`] stops before the first that may not. [`Core::next`] is the tail rule, and
//! [`Core::finish`] runs it to its end; then [`Core::outcomes`] are the replies to all programs. Each server's board is a
//! roller, and so are the boards before it that the server keeps: a program that asks for a position begins on the newest of
//! them that hasn't passed it, rolled on to there. Steps copy neither log nor tree. The log is on a device in memory. An
//! ordered stop happens in the next append or pad, as a failure of the device, a crash and a new opening.
#![tactic(auto)]

mod copies;
mod earlier;
mod moves;
mod parts;
mod replies;
mod restarting;
mod running;
mod simulation;
mod starting;
mod tail;

pub use simulation::{Core, RunError, StepError};
