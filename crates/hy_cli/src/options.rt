//! The options: what `clap` is told of each, and what its matches say of it.
ghost use Rattle.std.specs.Prelude.{◌≡◌, codes, false, true};
ghost use Rattle.hy_base.specs.Limits.{IsLoadSize, IsThreadCount};
ghost use Rattle.hy_cli.specs.CommandLine.{flag, seed_option, size_option, threads_option};
ghost use Rattle.hy_cli.specs.Matches.{choices_found, is_accepted, rule_for};
ghost use Rattle.clap.specs.Words.{found_of, rows_of, rule_of};

use clap::{Arg, ArgAction, ArgMatches};
use hy_base::{LARGEST_LOAD, MOST_THREADS};
use std::alloc::Global;

pub(crate) fn threads_arg<'a>(alloc: Global) -> Arg<'a>
    ensures rule { rule_of result ≡ rule_for threads_option }
    ensures local { result.global ≡ false }
{
    Arg::new(alloc, "threads")
        .long("threads")
        .action(ArgAction::Set)
        .value_parser(clap::value_parser!(u64).range(1..=MOST_THREADS as i64))
}

/// The number of threads.
pub(crate) fn threads_of(found: &ArgMatches<'_>) -> u8
    requires { is_accepted (rows_of (found_of found.now)) threads_option ≡ true }
    ensures range { IsThreadCount result }
    ensures value { result ≡ (choices_found (rows_of (found_of found.now))).number_or 2 (codes "threads") }
{
    found.get_one::<u64>("threads").unwrap_or(2) as u8
}

pub(crate) fn seed_arg<'a>(alloc: Global) -> Arg<'a>
    ensures rule { rule_of result ≡ rule_for seed_option }
    ensures local { result.global ≡ false }
{
    Arg::new(alloc, "seed")
        .long("seed")
        .action(ArgAction::Set)
        .required(true)
        .value_parser(clap::value_parser!(u64))
}

/// Any seed.
pub(crate) fn seed_of(found: &ArgMatches<'_>) -> u64
    requires { is_accepted (rows_of (found_of found.now)) seed_option ≡ true }
    ensures { result ≡ (choices_found (rows_of (found_of found.now))).number_or 0 (codes "seed") }
{
    found.get_one::<u64>("seed").unwrap_or(0)
}

pub(crate) fn size_arg<'a>(alloc: Global) -> Arg<'a>
    ensures rule { rule_of result ≡ rule_for size_option }
    ensures local { result.global ≡ false }
{
    Arg::new(alloc, "size")
        .long("size")
        .action(ArgAction::Set)
        .required(true)
        .value_parser(clap::value_parser!(u64).range(1..=LARGEST_LOAD as i64))
}

/// The number of programs.
pub(crate) fn size_of(found: &ArgMatches<'_>) -> u32
    requires { is_accepted (rows_of (found_of found.now)) size_option ≡ true }
    ensures range { IsLoadSize result }
    ensures value { result ≡ (choices_found (rows_of (found_of found.now))).number_or 1 (codes "size") }
{
    found.get_one::<u64>("size").unwrap_or(1) as u32
}

pub(crate) fn flag_arg<'a>(alloc: Global, name: &'a str) -> Arg<'a>
    ensures rule { rule_of result ≡ rule_for (record { name = name.entry.now; kind = flag; needed = false }) }
    ensures local { result.global ≡ false }
{
    Arg::new(alloc, name).long(name).action(ArgAction::SetTrue)
}

/// Whether a flag was given.
pub(crate) fn flag_of(found: &ArgMatches<'_>, name: &str) -> bool
    requires { is_accepted (rows_of (found_of found.now)) (record { name = name.now; kind = flag; needed = false }) ≡ true }
    ensures { result ≡ (choices_found (rows_of (found_of found.now))).has name.now }
{
    found.get_flag(name)
}
