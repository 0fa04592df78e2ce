//! The summary of a load.
ghost use Rattle.std.specs.Prelude.{◌≡◌, ◌++◌, ◌∷◌, [], codes, count_by, decimal, length, IfOk, OnOk};
ghost use Rattle.hy_base.specs.Spelling.{line};
ghost use Rattle.hy_base.specs.Verdicts.{is_commit};
ghost use Rattle.hy_formats.specs.Texts.{is_filler, is_final, is_mate, is_pre, summary_text};

use crate::texts::{Word, put_line};
use hy_base::{Entry, EntryKind, Row, Shared, Verdict};
use std::alloc::{AllocError, Global};

fn is_filler(entry: &Entry) -> bool
    ensures { result ≡ is_filler entry.now }
{
    matches!(entry.kind(), EntryKind::Filler { .. })
}

fn fillers(entries: &[Shared<Entry>]) -> usize
    ensures { result ≡ count_by is_filler entries.now }
{
    let mut count = 0;
    for entry in entries {
        if is_filler(entry.get()) {
            count += 1;
        }
    }
    count
}

fn commits(verdicts: &[Option<Verdict>]) -> usize
    ensures { result ≡ count_by is_commit verdicts.now }
{
    verdicts
        .iter()
        .filter(|verdict| matches!(verdict, Some(Verdict::Commit)))
        .count()
}

fn pres(verdicts: &[Option<Verdict>]) -> usize
    ensures { result ≡ count_by is_pre verdicts.now }
{
    verdicts
        .iter()
        .filter(|verdict| matches!(verdict, Some(Verdict::Pre(_))))
        .count()
}

fn mates(verdicts: &[Option<Verdict>]) -> usize
    ensures { result ≡ count_by is_mate verdicts.now }
{
    verdicts
        .iter()
        .filter(|verdict| matches!(verdict, Some(Verdict::Mate(_))))
        .count()
}

fn finals(verdicts: &[Option<Verdict>]) -> usize
    ensures { result ≡ count_by is_final verdicts.now }
{
    verdicts
        .iter()
        .filter(|verdict| matches!(verdict, Some(Verdict::Final(_))))
        .count()
}

// How a load was made, and how many entries it left.
fn put_counts(
    out: &mut Vec<u8>,
    seed: u64,
    size: u32,
    entries: &[Shared<Entry>],
) -> Result<(), AllocError>
    ensures { OnOk result (out.new.items ≡ out.old.items
        ++ (line (codes "load" ∷ codes "seed" ∷ decimal seed ∷ codes "size" ∷ decimal size ∷ []) ++ line (codes "entries"
        ∷ decimal (length entries.now) ∷ codes "fillers" ∷ decimal (count_by is_filler entries.now) ∷ []))) }
{
    let made = [
        Word::Plain(b"seed"),
        Word::Number(seed),
        Word::Plain(b"size"),
        Word::Number(size as u64),
    ];
    put_line(out, b"load", &made)?;
    let left = [
        Word::Number(entries.len() as u64),
        Word::Plain(b"fillers"),
        Word::Number(fillers(entries) as u64),
    ];
    put_line(out, b"entries", &left)
}

// The commits, the aborts by the kind of conflict, and how many programs only read.
fn put_verdicts(
    out: &mut Vec<u8>,
    verdicts: &[Option<Verdict>],
    reads: u64,
) -> Result<(), AllocError>
    ensures { OnOk result (out.new.items ≡ out.old.items ++ line (codes "commit" ∷ decimal (count_by is_commit verdicts.now)
        ∷ codes "pre" ∷ decimal (count_by is_pre verdicts.now) ∷ codes "mate" ∷ decimal (count_by is_mate verdicts.now)
        ∷ codes "final" ∷ decimal (count_by is_final verdicts.now) ∷ codes "read" ∷ decimal reads ∷ [])) }
{
    let words = [
        Word::Number(commits(verdicts) as u64),
        Word::Plain(b"pre"),
        Word::Number(pres(verdicts) as u64),
        Word::Plain(b"mate"),
        Word::Number(mates(verdicts) as u64),
        Word::Plain(b"final"),
        Word::Number(finals(verdicts) as u64),
        Word::Plain(b"read"),
        Word::Number(reads),
    ];
    put_line(out, b"commit", &words)
}

/// A load that was made of a seed and a size, at its end.
#[derive(Clone, Copy)]
pub struct EndedLoad<'a> {
    pub seed: u64,
    pub size: u32,
    pub entries: &'a [Shared<Entry>],
    pub verdicts: &'a [Option<Verdict>],
    /// How many of its programs only read.
    pub reads: u64,
    /// The rows that are live at the end of its log.
    pub live: &'a [Row],
}

/// The summary of a load: its entries and the fillers among them, the commits and the aborts by the kind of conflict with the
/// number of programs that only read, and the number of rows that are live. An abort for an old snapshot isn't counted: the log
/// of a load has no horizon.
pub fn write_summary(alloc: Global, load: &EndedLoad) -> Result<Vec<u8>, AllocError>
    ensures { IfOk result (λ text. text.items ≡ summary_text load.now.seed load.now.size load.now.entries.now
        load.now.verdicts.now load.now.reads load.now.live.now) }
{
    let mut out = Vec::new(alloc);
    put_counts(&mut out, load.seed, load.size, load.entries)?;
    put_verdicts(&mut out, load.verdicts, load.reads)?;
    let state = [
        Word::Number(load.entries.len() as u64),
        Word::Plain(b"rows"),
        Word::Number(load.live.len() as u64),
    ];
    put_line(&mut out, b"state", &state)?;
    Ok(out)
}
