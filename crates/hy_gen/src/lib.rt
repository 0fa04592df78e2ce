//! Scripts and schedules that are made from two numbers.
//!
//! It promises to the crates above: [`generate`] gives exactly the script and the schedule that `specs/` define, over the
//! words of the generator XSH RR 64/32 of PCG. No event of a load's schedule is disabled in its turn, so that the run of a
//! load never stops for another cause than memory; and its log has at most four entries for each program.
#![tactic(auto)]

mod drawing;
mod laws;
mod load;
mod programs;
mod rounds;

pub use laws::{schedule_is_enabled, schedule_leads};
pub use load::{Load, generate};
