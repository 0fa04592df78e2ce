//! The texts that `hyder` prints, byte for byte.
//!
//! It promises to the crate above: the trace of a run's events, the report of its results, the dump of a log, what became of
//! its entries, the summary of a load and the line of a copy are exactly the texts that `hy_formats` defines, and so is the one
//! line of a call that failed, but for that of a wrong command line (`hy_cli`). It refuses only where it is out of memory, and
//! the lines for source, memory and a spare device in use take none.
#![tactic(auto)]

mod log_texts;
mod summary;
mod texts;

pub use log_texts::{
    ahead_line, behind_line, compact_fault_line, config_line, device_line, entry_line, frame_line,
    page_line, point_line, put_entry, put_header, spare_line, table_line, write_check,
    write_compact, write_dump,
};
pub use summary::{EndedLoad, write_summary};
pub use texts::{memory_line, script_line, source_line, write_report, write_trace};
