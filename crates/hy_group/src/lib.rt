//! A group: its members join one after another, unless an earlier one writes what they touch.
//!
//! It promises to the crates above: [`Group::join`] takes a member's marks into the group's, of each key with the lesser
//! dependency, or names the least key that the member touches and an earlier one writes, and then leaves the group as it was.
#![tactic(auto)]

mod group;

pub use group::{Group, Join};
