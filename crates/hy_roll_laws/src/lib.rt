//! Rolling on lists: groups validated one after another by the last writers of keys, without the history.
//!
//! It promises to the crates above, by laws, each the contract of a public function: validation by marks and last writers
//! gives the refusals, the fate and the rows of the definitions, and rolling, however it is cut, stands for the log's first
//! entries. `hy_pipe` and the crates below it compute the definitions of `specs` on trees.
#![tactic(auto)]

mod laws;

pub use laws::{
    advance_is_pre, any_cut_rolls_the_same, commits_give_rows, commits_move_on, empty_group,
    finish_is_fate, finish_is_rows, group_marks_are_own, join_is_mate, joined_group,
    last_writers_are_enough, new_roller_stands, raised_know, roll_extends, roll_keeps_later,
    skipped_group, staged_are_standings, standing_is_later, standing_is_one, tree_follows,
};
