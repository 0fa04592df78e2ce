//! From the words of a command line to what they ask for.
ghost use Rattle.std.specs.Prelude.{◌≡◌, Some, false, map, IsErr, IfErr, IfOk, MatchResult, slice_get};
ghost use Rattle.hy_cli.specs.CommandLine.{IsInOptionRange, command_word, line_of, names_command};
ghost use Rattle.hy_cli.specs.Matches.{Asks, refuses};
ghost use Rattle.hy_cli.specs.declared.commands.Line.{Line};
ghost use Rattle.hy_cli.specs.declared.parsing.CliError.TheVariants.{Memory};

use crate::commands::{hyder_command, line_from};
use crate::{Line, Words};
use clap::error::ErrorKind;
use std::alloc::{AllocError, AllocFailed, Global};
use thiserror::Error;

/// Why a command line asks for nothing.
#[derive(Clone, Copy, Debug, PartialEq, Eq, Error)]
pub enum CliError {
    /// The words are no command of the program, or its options are wrong.
    #[error("the words are no command line")]
    Usage,
    /// Out of memory.
    #[error("out of memory")]
    Memory,
}

impl From<AllocError> for CliError {
    ghost from_gives = { λ _ error. error ≡ Memory };

    fn from(_: AllocError) -> Self {
        Self::Memory
    }
}

impl<T: Drop> From<AllocFailed<T>> for CliError {
    ghost from_gives = { λ _ error. error ≡ Memory };

    fn from(_: AllocFailed<T>) -> Self {
        Self::Memory
    }
}

/// What the words ask for, by the command that the word after the program's name is.
///
/// `Usage`: they ask for nothing that the program does. Words that are a line never are refused so.
/// `Memory`: out of memory.
pub fn parse(alloc: Global, words: &Words) -> Result<Line, CliError>
    ensures obeyed { (l : Line) → line_of words.now ≡ Some l → MatchResult result (λ r. r ≡ l) (λ e. e ≡ CliError.Memory) }
    ensures unknown { names_command words.now ≡ false → IsErr result }
    ensures refused { IfErr result (λ e. e ≡ CliError.Usage → refuses words.now) }
    ensures meaning { IfOk result (Asks words.now) }
    ensures word { IfOk result (λ line. slice_get words.now 1 ≡ Some (command_word line)) }
    ensures range { IfOk result IsInOptionRange }
{
    let texts = texts_of(alloc, words)?;
    parse_texts(alloc, texts.as_slice())
}

// The words, lent.
fn texts_of<'a>(alloc: Global, words: &'a Words) -> Result<Vec<&'a str>, AllocError>
    ensures { IfOk result (λ texts. map (λ t. t.now) texts.items ≡ words.now) }
{
    let mut texts = Vec::new(alloc);
    for at in 0..words.len() {
        if let Some(word) = words.word(at) {
            texts.push(word)?;
        }
    }
    Ok(texts)
}

fn parse_texts(alloc: Global, words: &[&str]) -> Result<Line, CliError>
    ensures obeyed { (l : Line) → line_of (map (λ t. t.now) words.now) ≡ Some l
        → MatchResult result (λ r. r ≡ l) (λ e. e ≡ CliError.Memory) }
    ensures unknown { names_command (map (λ t. t.now) words.now) ≡ false → IsErr result }
    ensures refused { IfErr result (λ e. e ≡ CliError.Usage → refuses (map (λ t. t.now) words.now)) }
    ensures meaning { IfOk result (Asks (map (λ t. t.now) words.now)) }
    ensures word { IfOk result (λ line. slice_get (map (λ t. t.now) words.now) 1 ≡ Some (command_word line)) }
    ensures range { IfOk result IsInOptionRange }
{
    let command = hyder_command(alloc)?;
    match command.try_get_matches_from(words) {
        Ok(matches) => match matches.subcommand() {
            Some((name, found)) => Ok(line_from(name, found)),
            None => Err(CliError::Usage),
        },
        Err(error) => match error.kind() {
            ErrorKind::OutOfMemory => Err(CliError::Memory),
            _ => Err(CliError::Usage),
        },
    }
}
