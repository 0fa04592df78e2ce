use hy_cli::{CliError, Line, Report, Words, parse};
use std::alloc::{AllocError, Global};
use std::process::Abort;
use std::test::Fail;

// The words, with a space between them.
fn read(alloc: Global, line: &str) -> Result<Result<Line, CliError>, AllocError> {
    let mut words = Words::new(alloc);
    for word in line.split(' ') {
        words.push(word)?;
    }
    Ok(parsed(alloc, &words))
}

// Without its contract.
fn parsed(alloc: Global, words: &Words) -> Result<Line, CliError> {
    parse(alloc, words)
}

fn run(threads: u8, point: bool, save: bool) -> Line {
    Line::Run {
        threads,
        point,
        save,
    }
}

fn load(seed: u64, size: u32, threads: u8) -> Line {
    Line::Load {
        seed,
        size,
        threads,
    }
}

#[test]
fn lines_are_obeyed(rt: HostRuntime) -> Result<(), Fail> {
    let alloc = rt.alloc();
    let table = [
        ("hyder run", run(2, false, false)),
        ("hyder run --threads 16", run(16, false, false)),
        ("hyder run --point", run(2, true, false)),
        ("hyder run --save --threads 1 --point", run(1, true, true)),
        ("hyder sim", Line::Sim { threads: 2 }),
        ("hyder sim --threads 1", Line::Sim { threads: 1 }),
        ("hyder recover", Line::Tell(Report::Dump)),
        ("hyder check", Line::Tell(Report::Verdicts)),
        ("hyder ship", Line::Tell(Report::Stream)),
        ("hyder compact", Line::Compact),
        ("hyder load --seed 0 --size 1", load(0, 1, 2)),
        (
            "hyder load --threads 16 --size 80000 --seed 18446744073709551615",
            load(18446744073709551615, 80000, 16),
        ),
    ];
    for (line, wanted) in table {
        assert!(rt; read(alloc, line)? == Ok(wanted));
    }
    Ok(())
}

fn check_refused(rt: &impl Abort, alloc: Global, lines: &[&str]) -> Result<(), Fail> {
    for line in lines {
        assert!(rt; read(alloc, line)? == Err(CliError::Usage), "{line}");
    }
    Ok(())
}

#[test]
fn other_words_are_refused(rt: HostRuntime) -> Result<(), Fail> {
    let alloc = rt.alloc();
    assert!(rt; parsed(alloc, &Words::new(alloc)) == Err(CliError::Usage));
    let lines = [
        "hyder",
        "hyder frob",
        "hyder Sim",
        "hyder --help",
        "hyder help",
        "hyder --version",
        "hyder sim --help",
        "hyder -- sim",
        "hyder run --help",
        "hyder run --threads 0",
        "hyder run --threads 17",
        "hyder run --save --save",
        "hyder run --size 1",
        "hyder sim --threads 0",
        "hyder sim --threads 17",
        "hyder sim --threads",
        "hyder sim --threads 2 --threads 2",
        "hyder sim --point",
        "hyder sim sim",
        "hyder recover --threads 2",
        "hyder check now",
        "hyder load --seed 7",
        "hyder load --size 7",
        "hyder load --seed 7 --size 0",
        "hyder load --seed 7 --size 80001",
        "hyder load --seed 18446744073709551616 --size 1",
        "hyder load --seed 7 --size 1 --save",
    ];
    check_refused(&rt, alloc, &lines)
}
