//! Marks: up to which position the writers of the keys that an intention touches are known.
//!
//! It promises to the crates above: [`cover`] cuts a span into at most 128 blocks, which are disjoint and have just the
//! span's keys. [`Marks::of`] knows each key that an intention touches up to its snapshot; `raise` makes each dependency
//! the greater of itself and a base, `merge` has the pairs and the writes of two, and `view` lends both lists.
#![tactic(auto)]

mod covering;
mod marks;
mod pairs;
mod written;

pub use covering::cover;
pub use marks::Marks;
