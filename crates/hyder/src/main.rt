//! The program `hyder`: bytes in, text out, and a status.
//!
//! `hyder run` reads a script from the standard input and runs its clients over the log in the file `hyder.log` of the working
//! directory, from the point saved in `hyder.points` where `--point` asks for it, and saves one there where `--save` does;
//! `hyder sim` runs a script with its schedule, and touches no file. Both write the trace and the report to the standard
//! output. A command for each `Report` of `hy_cli`, as `hyder recover`, writes what is told of the log. `hyder compact` copies
//! the log past the base of the saved point to `hyder.spare`, which no other command touches. `hyder follow` writes what became
//! of the entries of a stream that `hyder ship` wrote; it touches no file. `hyder load` runs a generated script and writes its
//! summary. The status is 0 where all of that text is written, 1 for a fault of usage, 2 for a script that is refused, 3 and 4
//! where the input or the output fails, 5 where a file fails, 6 for a log that is refused, 7 for one of another shape, 8 for a
//! saved point that is refused or further than the log, or a log cut past its base (0 without one), 9 where memory is out, 10
//! for a log of which nothing is to be cut, 11 where `hyder.spare` is in use, 12 for a stream that is refused, and 13 for a log
//! whose tables aren't sound; all but 0, 4, and a 9 while the words are read have one line. Nothing goes to the standard error.
#![tactic(auto)]

ghost use Rattle.std.specs.Prelude.{◌≡◌, ℕ, IfOk, map, string_bytes};
ghost use Rattle.std.specs.Vec.Iter.{into_iter_items};
ghost use Rattle.std.specs.Process.{exit_status};
ghost use Rattle.hy_run.specs.Answering.{IsCall, ends_at};
ghost use Rattle.hy_run.specs.Output.{status_number};
ghost use Rattle.hy_run.specs.Over.{over};

use hy_cli::Words;
use hy_disk::Disk;
use hy_file::FileDisk;
use hy_io::{Sink, Source, StdSink, StdSource};
use hy_pipe::{Gate, OpenGate};
use hy_readahead::ReadAhead;
use hy_run::{Status, hyder_call};
use std::alloc::{AllocError, Global};
use std::fs::OpenOptions;
use std::process::ExitCode;
use std::rt::Files;
use std::sync::Wait;
use std::thread::Threads;
use std::{env, io};

// The words that a list of arguments holds.
fn words_from(alloc: Global, args: env::Args) -> Result<Words, AllocError>
    ensures { IfOk result (λ words. words ≡ map string_bytes (into_iter_items args)) }
{
    let mut words = Words::new(alloc);
    for arg in args {
        words.push(arg.as_str())?;
    }
    Ok(words)
}

// The words of the process. Where one of them isn't text there are none, which is a fault of usage.
fn words_of(rt: &HostRuntime) -> Result<Words, AllocError> {
    match env::args(rt) {
        Ok(args) => words_from(rt.alloc(), args),
        Err(error) if error.kind() == io::ErrorKind::OutOfMemory => Err(AllocError),
        Err(_) => Ok(Words::new(rt.alloc())),
    }
}

// The exit status of an answer.
fn exit_code(status: Status) -> ExitCode
    ensures { exit_status result ≡ status_number status }
{
    ExitCode::from(status.number())
}

// Does what the words ask for, and says by the exit status how it ended.
fn call<R: Threads + Wait + Sync, S: Source, K: Sink, D: Disk + Drop + Send, G: Gate + Sync>(
    rt: &R,
    alloc: Global,
    words: &Words,
    source: &mut S,
    sink: &mut K,
    log: D,
    points: D,
    spare: D,
    gate: &G,
) -> ExitCode
    // The exit status is that of an answer which is right, and what the ends are left with is what it says.
    ensures { (answer : Status) × (log_left points_left spare_left : D) × (acked : ℕ)
        × (exit_status result ≡ status_number answer)
        × IsCall words.now (ends_at (S.left source.old) (S.faults source.old) (K.taken sink.old) (K.faults sink.old))
        (ends_at (S.left source.new) (S.faults source.new) (K.taken sink.new) (K.faults sink.new))
        (over D.tells D.content D.moment D.left_since D.faults_of log log_left)
        (over D.tells D.content D.moment D.left_since D.faults_of points points_left)
        (over D.tells D.content D.moment D.left_since D.faults_of spare spare_left) answer acked }
{
    let done = hyder_call(rt, alloc, words, source, sink, log, points, spare, gate);
    exit_code(done.status)
}

// A folder, opened to be read: neither a read nor a write of it succeeds.
fn folder<R: Files>(files: &R) -> Option<R::File> {
    let mut how = OpenOptions::new();
    how.read(true);
    how.open(files, "/").ok()
}

fn main(rt: HostRuntime) -> ExitCode {
    // A process that was started with an end closed would give its number to the next file that it opens, which is the log, and
    // the text would go there. So the numbers of the three ends are taken before any device is made: a closed end then fails.
    let ends = [folder(&rt), folder(&rt), folder(&rt)];
    let code = match words_of(&rt) {
        Ok(words) => call(
            &rt,
            rt.alloc(),
            &words,
            &mut StdSource::new(rt.stdin()),
            &mut StdSink::new(rt.stdout()),
            ReadAhead::new(rt.alloc(), FileDisk::preallocated(&rt, "hyder.log")),
            ReadAhead::new(rt.alloc(), FileDisk::new(&rt, "hyder.points")),
            ReadAhead::new(rt.alloc(), FileDisk::preallocated(&rt, "hyder.spare")),
            &OpenGate,
        ),
        Err(_) => exit_code(Status::Memory),
    };
    drop(ends);
    code
}
