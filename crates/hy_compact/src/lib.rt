//! Compaction: a log's entries past a position are copied to a spare device, which is then a log that was cut there.
//!
//! It promises to the crate above, for every device: after [`copy_past`] answers, each image of the spare device holds a log
//! with that cut and exactly these entries. A crash at any moment of it, with nothing pending before, leaves an unborn device,
//! one without records, or the first of the entries behind the cut.
#![tactic(auto)]

mod compacting;
mod copying;
mod error;

pub use compacting::copy_past;
pub use error::{CopyError, RefusedCopy};
