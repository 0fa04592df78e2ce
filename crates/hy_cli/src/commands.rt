//! The commands, each in one place: what it asks for, what `clap` is told of it, and what the matches of `clap` mean.
ghost use Rattle.std.specs.Prelude.{◌≡◌, IfOk, Some, [], false, fold, is_some, map, true};
ghost use Rattle.std.specs.List.{find};
ghost use Rattle.std.specs.Str.{bytes_eq};
ghost use Rattle.hy_cli.specs.CommandLine.{CliCommand, IsInOptionRange, command_named, command_word, follow_command};
ghost use Rattle.hy_cli.specs.CommandLine.{load_command, report_command, report_word, reports, run_command, sim_command};
ghost use Rattle.hy_cli.specs.CommandLine.{usage_text};
ghost use Rattle.hy_cli.specs.Matches.{app_for, has_accepted, hyder_app, line_found, program, with_command};
ghost use Rattle.clap.specs.Words.{app_of, found_of, rows_of};
ghost use Rattle.clap.specs.declared.builder.command.Command.TheViews.{out-Command};

use crate::options::{
    flag_arg, flag_of, seed_arg, seed_of, size_arg, size_of, threads_arg, threads_of,
};
use clap::{ArgMatches, Command};
use std::alloc::{AllocError, Global};

/// What is told of a log, each by a command of its own without options.
#[derive(Clone, Copy, PartialEq, Eq)]
pub enum Report {
    /// By `recover`: its shape, the position up to which it was cut, and its entries.
    Dump,
    /// By `check`: what became of its entries, and the rows that they leave.
    Verdicts,
    /// By `ship`: its stream, as a follower takes it.
    Stream,
}

// All of them.
const REPORTS: [Report; 3] = [Report::Dump, Report::Verdicts, Report::Stream];

// The word for the command of a report.
fn report_word<'a>(report: Report) -> &'a str
    ensures { result.now ≡ report_word report }
{
    match report {
        Report::Dump => "recover",
        Report::Verdicts => "check",
        Report::Stream => "ship",
    }
}

/// What a command line asks for.
#[derive(Clone, Copy, PartialEq, Eq)]
pub enum Line {
    /// Run the clients concurrently over the log, rolling it on 1 to 16 threads, from the saved point where `point` says
    /// so; and save a point once the run is finished, where `save` says so.
    Run {
        threads: u8,
        point: bool,
        save: bool,
    },
    /// Run a schedule, on 1 to 16 threads.
    Sim {
        threads: u8,
    },
    /// Tell of the log.
    Tell(Report),
    /// Copy the log past the saved point's base to the spare device.
    Compact,
    /// Take the stream of a log, rolling it on 1 to 16 threads, and print what the log means.
    Follow {
        threads: u8,
    },
    /// Run a generated load of 1 to 80,000 programs, on 1 to 16 threads. Any seed is lawful.
    Load {
        seed: u64,
        size: u32,
        threads: u8,
    },
}

/// The line for a command line that asks for nothing that the program does.
pub fn usage_line() -> &'static [u8]
    ensures { result.now ≡ usage_text }
{
    b"hyder: usage: run|sim|recover|check|load|compact|ship|follow\n"
}

fn run_command<'a>(alloc: Global) -> Result<Command<'a>, AllocError>
    ensures { IfOk result (λ c. (app_of c ≡ app_for run_command.name run_command.options)
        × ((out-Command c).has_globals ≡ false)) }
{
    Command::new(alloc, "run")
        .arg(threads_arg(alloc))?
        .arg(flag_arg(alloc, "point"))?
        .arg(flag_arg(alloc, "save"))
}

fn sim_command<'a>(alloc: Global) -> Result<Command<'a>, AllocError>
    ensures { IfOk result (λ c. (app_of c ≡ app_for sim_command.name sim_command.options)
        × ((out-Command c).has_globals ≡ false)) }
{
    Command::new(alloc, "sim").arg(threads_arg(alloc))
}

fn follow_command<'a>(alloc: Global) -> Result<Command<'a>, AllocError>
    ensures { IfOk result (λ c. (app_of c ≡ app_for follow_command.name follow_command.options)
        × ((out-Command c).has_globals ≡ false)) }
{
    Command::new(alloc, "follow").arg(threads_arg(alloc))
}

fn load_command<'a>(alloc: Global) -> Result<Command<'a>, AllocError>
    ensures { IfOk result (λ c. (app_of c ≡ app_for load_command.name load_command.options)
        × ((out-Command c).has_globals ≡ false)) }
{
    Command::new(alloc, "load")
        .arg(seed_arg(alloc))?
        .arg(size_arg(alloc))?
        .arg(threads_arg(alloc))
}

// The program before its commands. It has no help of its own: a word for help is a word like others.
fn program<'a>(alloc: Global) -> Command<'a>
    ensures { app_of result ≡ program }
{
    Command::new(alloc, "hyder")
        .disable_help_flag(true)
        .disable_help_subcommand(true)
        .subcommand_required(true)
}

// The program with a further command, if there was memory to make it.
fn with_command<'a>(
    app: Command<'a>,
    command: Result<Command<'a>, AllocError>,
) -> Result<Command<'a>, AllocError>
    ensures { IfOk result (λ r. (added : CliCommand)
        → IfOk command.entry (λ c. (app_of c ≡ app_for added.name added.options) × ((out-Command c).has_globals ≡ false))
        → app_of r ≡ with_command (app_of app.entry) added) }
{
    app.subcommand(command?)
}

fn report_command<'a>(alloc: Global, report: Report) -> Command<'a>
    ensures { (app_of result ≡ app_for (report_word report) []) × ((out-Command result).has_globals ≡ false) }
{
    Command::new(alloc, report_word(report))
}

// The program with the commands that tell of the log, too.
fn with_reports<'a>(alloc: Global, app: Command<'a>) -> Result<Command<'a>, AllocError>
    ensures { IfOk result (λ r. app_of r ≡ fold with_command (app_of app.entry) (map report_command reports)) }
{
    let mut app = app;
    for at in 0..REPORTS.len() {
        app = app.subcommand(report_command(alloc, REPORTS[at]))?;
    }
    Ok(app)
}

/// The program with its commands.
pub(crate) fn hyder_command<'a>(alloc: Global) -> Result<Command<'a>, AllocError>
    ensures { IfOk result (λ c. app_of c ≡ hyder_app) }
{
    let app = with_command(program(alloc), run_command(alloc))?;
    let app = with_command(app, sim_command(alloc))?.subcommand(Command::new(alloc, "compact"))?;
    let app = with_command(app, follow_command(alloc))?;
    let app = with_command(app, load_command(alloc))?;
    with_reports(alloc, app)
}

// What the command of this name tells of the log.
fn report_named(name: &str) -> Report
    requires { is_some (find (λ c. bytes_eq c.name name.now) (map report_command reports)) ≡ true }
    ensures { find (λ c. bytes_eq c.name name.now) (map report_command reports) ≡ Some (report_command result) }
{
    for at in 0..REPORTS.len() {
        if report_word(REPORTS[at]) == name {
            return REPORTS[at];
        }
    }
    unreachable!()
}

/// The line that a subcommand with its matches stands for.
pub(crate) fn line_from(name: &str, found: &ArgMatches<'_>) -> Line
    requires known { is_some (command_named name.now) ≡ true }
    requires accepted { has_accepted name.now (rows_of (found_of found.now)) ≡ true }
    ensures range { IsInOptionRange result }
    ensures word { command_word result ≡ name.now }
    ensures line { line_found name.now (rows_of (found_of found.now)) ≡ Some result }
{
    match name {
        "run" => Line::Run {
            threads: threads_of(found),
            point: flag_of(found, "point"),
            save: flag_of(found, "save"),
        },
        "sim" => Line::Sim {
            threads: threads_of(found),
        },
        "compact" => Line::Compact,
        "follow" => Line::Follow {
            threads: threads_of(found),
        },
        "load" => Line::Load {
            seed: seed_of(found),
            size: size_of(found),
            threads: threads_of(found),
        },
        _ => Line::Tell(report_named(name)),
    }
}
