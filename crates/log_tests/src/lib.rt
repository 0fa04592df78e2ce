//! Tests of the log, its devices, and all that is read and written: values, the plain fold, sources and sinks; words, scripts
//! and generated loads; bytes of entries, pages and saved points, and texts; devices in memory and in files; the log on them,
//! and saves of points, with what a stop in each device call leaves. Bytes and answers, but for loads, were counted by hand.
//! It promises nothing to a crate above.
#![tactic(auto)]

#[cfg(test)]
mod base;
#[cfg(test)]
mod batches;
#[cfg(test)]
mod calls;
#[cfg(test)]
mod codec;
#[cfg(test)]
mod cut_logs;
#[cfg(test)]
mod damaged_devices;
#[cfg(test)]
mod entries;
#[cfg(test)]
mod file_device;
#[cfg(test)]
mod input;
#[cfg(test)]
mod io;
#[cfg(test)]
mod loads;
#[cfg(test)]
mod log_in_memory;
#[cfg(test)]
mod log_on_file;
#[cfg(test)]
mod memory_device;
#[cfg(test)]
mod pages;
#[cfg(test)]
mod pipelines;
#[cfg(test)]
mod point_format;
#[cfg(test)]
mod rules;
#[cfg(test)]
mod saving;
#[cfg(test)]
mod script;
#[cfg(test)]
mod text;
#[cfg(test)]
mod words;
