//! The command line of the program, read by `clap`.
//!
//! It promises to the crates above: [`parse`] obeys all words that are a line of the definition, and never calls them a wrong
//! command; where the word after the program's name is no command there is never a line. Other words are refused only where
//! `clap` refuses them for another cause than memory, and mean what its matches say where it takes them; words that are a line
//! ask for just that line ([`line_asks_for_itself`]), and no words for two. Numbers are in their ranges. Nothing is printed
//! here, a word for help is a wrong command, and the table of commands and options is a definition.
#![tactic(auto)]

mod commands;
mod laws;
mod options;
mod parsing;
mod words;

pub use commands::{Line, Report, usage_line};
pub use laws::{line_asks_for_itself, words_ask_for_one, words_ask_or_are_refused};
pub use parsing::{CliError, parse};
pub use words::Words;
