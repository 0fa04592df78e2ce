//! The texts on a log: its dump, what became of its entries, and the one line where the log or its device failed.
//!
//! Each `put` function adds its text to what was written before. Where memory runs out, a part of it may have been added.
ghost use Rattle.std.specs.Prelude.{◌≡◌, ◌∷◌, ◌+◌, ◌-◌, ◌++◌, [], length, codes, decimal, flat_map, IfOk, OnOk};
ghost use Rattle.std.specs.List.{enumerate_from};
ghost use Rattle.hy_base.specs.Spelling.{line};
ghost use Rattle.hy_formats.specs.EntryFormat.{isolation_code};
ghost use Rattle.hy_formats.specs.Texts.{ahead_fault_text, behind_fault_text, check_text, compact_fault_text, compact_text};
ghost use Rattle.hy_formats.specs.Texts.{config_fault_text, device_fault_text, dump_text, entry_fault_text, entry_text};
ghost use Rattle.hy_formats.specs.Texts.{frame_fault_text, from_words, isolation_words, judged_text, page_fault_text};
ghost use Rattle.hy_formats.specs.Texts.{point_fault_text, row_text, shape_words, spare_fault_text, table_fault_text};
ghost use Rattle.hy_formats.specs.Texts.{version_words, waiting_text};
ghost use Rattle.hy_text.specs.LineWords.{spaced};

use crate::texts::{Word, put_line, put_rows, put_verdict, put_words};
use hy_base::{
    Entry, EntryKind, Intention, Isolation, Key, Pos, Row, Shape, Verdict, tells_isolation,
};
use hy_formats::Header;
use std::alloc::{AllocError, Global};

fn put_filler(out: &mut Vec<u8>, pos: u64, server: u8) -> Result<(), AllocError>
    ensures { OnOk result (out.new.items ≡ out.old.items
        ++ line (codes "entry" ∷ decimal pos ∷ codes "server" ∷ decimal server ∷ codes "filler" ∷ [])) }
{
    let words = [
        Word::Number(pos),
        Word::Plain(b"server"),
        Word::Number(server as u64),
        Word::Plain(b"filler"),
    ];
    put_line(out, b"entry", &words)
}

// The number that tells an isolation.
fn isolation_code(isolation: Isolation) -> u64
    ensures { result ≡ isolation_code isolation }
{
    match isolation {
        Isolation::Serializable => 0,
        Isolation::Snapshot => 1,
    }
}

// The words for the isolation of an entry, which is told from version 2 on.
#[tactic(auto, unfolding(crate::specs::LineWords::spaced))]
fn put_isolation(out: &mut Vec<u8>, version: u8, isolation: Isolation) -> Result<(), AllocError>
    ensures { OnOk result (out.new.items ≡ out.old.items ++ spaced (isolation_words version isolation)) }
{
    if tells_isolation(version) {
        let words = [Word::Plain(b"iso"), Word::Number(isolation_code(isolation))];
        put_words(out, &words)?;
    }
    Ok(())
}

fn put_transaction(
    out: &mut Vec<u8>,
    version: u8,
    pos: u64,
    intention: &Intention,
) -> Result<(), AllocError>
    ensures { OnOk result (out.new.items ≡ out.old.items ++ entry_text version (pos, EntryKind.Txn intention.now)) }
{
    let words = [
        Word::Number(pos),
        Word::Plain(b"server"),
        Word::Number(intention.server as u64),
        Word::Plain(b"client"),
        Word::Number(intention.client as u64),
        Word::Plain(b"snap"),
        Word::Number(intention.snap as u64),
        Word::Plain(b"points"),
        Word::Number(intention.points.len() as u64),
        Word::Plain(b"spans"),
        Word::Number(intention.spans.len() as u64),
        Word::Plain(b"writes"),
        Word::Number(intention.writes.len() as u64),
    ];
    out.extend_from_slice(b"entry")?;
    put_words(out, &words)?;
    put_isolation(out, version, intention.isolation)?;
    out.push(b'\n')?;
    Ok(())
}

/// Adds the line of the entry at a position to the dump of a log of this version. Where memory runs out, a part of it
/// may have been added.
pub fn put_entry(out: &mut Vec<u8>, version: u8, pos: u64, entry: &Entry) -> Result<(), AllocError>
    ensures { OnOk result (out.new.items ≡ out.old.items ++ entry_text version (pos, entry.now)) }
{
    match entry.kind() {
        EntryKind::Filler { server } => put_filler(out, pos, *server),
        EntryKind::Txn(intention) => put_transaction(out, version, pos, intention),
    }
}

// The entries past a position.
fn put_entries(
    out: &mut Vec<u8>,
    version: u8,
    from: Pos,
    entries: &[Entry],
) -> Result<(), AllocError>
    ensures { OnOk result (out.new.items ≡ out.old.items
        ++ flat_map (entry_text version) (enumerate_from (from + 1) entries.now)) }
{
    let first = from as u64 + 1;
    for (at, entry) in entries.iter().enumerate() {
        put_entry(out, version, at as u64 + first, entry)?;
    }
    Ok(())
}

// The words for the version of a log, which is told from 2 on, and for its horizon, where it has one.
#[tactic(auto, unfolding(crate::specs::LineWords::spaced))]
fn put_version(out: &mut Vec<u8>, shape: Shape) -> Result<(), AllocError>
    ensures { OnOk result (out.new.items ≡ out.old.items ++ spaced (version_words shape)) }
{
    if shape.version == 1 {
        return Ok(());
    }
    let version = [Word::Plain(b"version"), Word::Number(shape.version as u64)];
    put_words(out, &version)?;
    if let Some(horizon) = shape.horizon {
        let words = [Word::Plain(b"horizon"), Word::Number(horizon as u64)];
        put_words(out, &words)?;
    }
    Ok(())
}

// The words for the position up to which a log was cut, which is told where it was.
#[tactic(auto, unfolding(crate::specs::LineWords::spaced))]
fn put_from(out: &mut Vec<u8>, from: Pos) -> Result<(), AllocError>
    ensures { OnOk result (out.new.items ≡ out.old.items ++ spaced (from_words from)) }
{
    if from == 0 {
        return Ok(());
    }
    let words = [Word::Plain(b"from"), Word::Number(from as u64)];
    put_words(out, &words)
}

/// Adds the first line of a log's dump: what its header tells, and how many entries it has. Where memory runs out, a part of it
/// may have been added.
pub fn put_header(out: &mut Vec<u8>, header: Header, count: usize) -> Result<(), AllocError>
    ensures { OnOk result (out.new.items ≡ out.old.items
        ++ line (codes "log" ∷ shape_words header.shape ++ (from_words header.from ++ codes "entries" ∷ decimal count ∷ []))) }
{
    let shape = header.shape;
    let size = [
        Word::Plain(b"group"),
        Word::Number(shape.group as u64),
        Word::Plain(b"window"),
        Word::Number(shape.window as u64),
        Word::Plain(b"cap"),
        Word::Number(shape.cap as u64),
    ];
    let entries = [Word::Plain(b"entries"), Word::Number(count as u64)];
    out.extend_from_slice(b"log")?;
    put_words(out, &size)?;
    put_version(out, shape)?;
    put_from(out, header.from)?;
    put_words(out, &entries)?;
    out.push(b'\n')?;
    Ok(())
}

/// The text of a log: its shape, and each entry in its line with its position, the first past the position up to which
/// the log was cut. From version 2 on the version is told behind the cap, then the horizon of a log that has one, and the
/// isolation of each transaction at the end of its line; of a log that was cut, the position stands behind its shape.
/// Where there is no header, the text is `empty`.
pub fn write_dump(
    alloc: Global,
    header: Option<Header>,
    entries: &[Entry],
) -> Result<Vec<u8>, AllocError>
    ensures { IfOk result (λ text. text.items ≡ dump_text header entries.now) }
{
    let mut out = Vec::new(alloc);
    match header {
        None => put_line(&mut out, b"empty", &[])?,
        Some(header) => {
            put_header(&mut out, header, entries.len())?;
            put_entries(&mut out, header.shape.version, header.from, entries)?;
        }
    }
    Ok(out)
}

// What became of an entry. A filler has no verdict.
fn put_judged(out: &mut Vec<u8>, pos: u64, verdict: Option<Verdict>) -> Result<(), AllocError>
    ensures { OnOk result (out.new.items ≡ out.old.items ++ judged_text (pos, verdict)) }
{
    match verdict {
        Some(verdict) => put_verdict(out, pos, verdict),
        None => {
            let words = [Word::Number(pos), Word::Plain(b"filler")];
            put_line(out, b"at", &words)
        }
    }
}

// What became of the entries of whole groups, from position 1 on.
fn put_all_judged(out: &mut Vec<u8>, verdicts: &[Option<Verdict>]) -> Result<(), AllocError>
    ensures { OnOk result (out.new.items ≡ out.old.items ++ flat_map judged_text (enumerate_from 1 verdicts.now)) }
{
    for (at, verdict) in verdicts.iter().enumerate() {
        put_judged(out, at as u64 + 1, *verdict)?;
    }
    Ok(())
}

fn put_wait(out: &mut Vec<u8>, pos: u64) -> Result<(), AllocError>
    ensures { OnOk result (out.new.items ≡ out.old.items ++ line (codes "at" ∷ decimal pos ∷ codes "waits" ∷ [])) }
{
    let words = [Word::Number(pos), Word::Plain(b"waits")];
    put_line(out, b"at", &words)
}

// The positions past the judged ones, whose group isn't whole.
#[tactic(auto, using(crate::proofs::Waits::waits_go_on))]
fn put_waits(out: &mut Vec<u8>, judged: usize, count: usize) -> Result<(), AllocError>
    ensures { OnOk result (out.new.items ≡ out.old.items ++ waiting_text judged (count - judged)) }
{
    for at in judged..count {
        put_wait(out, at as u64 + 1)?;
    }
    Ok(())
}

// The live rows, the position that they stand at, and how many they are.
fn put_state(out: &mut Vec<u8>, judged: usize, live: &[Row]) -> Result<(), AllocError>
    ensures { OnOk result (out.new.items ≡ out.old.items ++ (line
        (codes "state" ∷ decimal judged ∷ codes "rows" ∷ decimal (length live.now) ∷ []) ++ flat_map row_text live.now)) }
{
    let words = [
        Word::Number(judged as u64),
        Word::Plain(b"rows"),
        Word::Number(live.len() as u64),
    ];
    put_line(out, b"state", &words)?;
    put_rows(out, live)
}

/// The text of a judged log of `count` entries: what became of each, from position 1 on, and the live rows that the
/// judged ones leave. Those past the last verdict wait for their group. Where there is no shape, the device has no
/// header, and the text is `empty`.
pub fn write_check(
    alloc: Global,
    shape: Option<Shape>,
    count: usize,
    verdicts: &[Option<Verdict>],
    live: &[Row],
) -> Result<Vec<u8>, AllocError>
    ensures { IfOk result (λ text. text.items ≡ check_text shape count verdicts.now live.now) }
{
    let mut out = Vec::new(alloc);
    if shape.is_none() {
        put_line(&mut out, b"empty", &[])?;
        return Ok(out);
    }
    put_all_judged(&mut out, verdicts)?;
    put_waits(&mut out, verdicts.len(), count)?;
    put_state(&mut out, verdicts.len(), live)?;
    Ok(out)
}

/// The line for a device that failed, by its name.
pub fn device_line(alloc: Global, device: &str) -> Result<Vec<u8>, AllocError>
    ensures { IfOk result (λ text. text.items ≡ device_fault_text device.now) }
{
    let mut out = Vec::new(alloc);
    let words = [Word::Plain(device.as_bytes())];
    put_line(&mut out, b"hyder: device", &words)?;
    Ok(out)
}

/// The line for a log with a page that is refused: which page, from 0 on, and why.
pub fn page_line(alloc: Global, page: u64, why: &str) -> Result<Vec<u8>, AllocError>
    ensures { IfOk result (λ text. text.items ≡ page_fault_text page why.now) }
{
    let mut out = Vec::new(alloc);
    let words = [Word::Number(page), Word::Plain(why.as_bytes())];
    put_line(&mut out, b"hyder: log page", &words)?;
    Ok(out)
}

/// The line for a log with an entry that is refused: its position, and why.
pub fn entry_line(alloc: Global, pos: Pos, why: &str) -> Result<Vec<u8>, AllocError>
    ensures { IfOk result (λ text. text.items ≡ entry_fault_text pos why.now) }
{
    let mut out = Vec::new(alloc);
    let words = [Word::Number(pos as u64), Word::Plain(why.as_bytes())];
    put_line(&mut out, b"hyder: log entry", &words)?;
    Ok(out)
}

/// The line for a log of another shape: the field in which it differs, as the log has it and as the script asks for it.
pub fn config_line(alloc: Global, field: &str, log: u32, script: u32) -> Result<Vec<u8>, AllocError>
    ensures { IfOk result (λ text. text.items ≡ config_fault_text field.now log script) }
{
    let mut out = Vec::new(alloc);
    let words = [
        Word::Plain(field.as_bytes()),
        Word::Plain(b"log"),
        Word::Number(log as u64),
        Word::Plain(b"script"),
        Word::Number(script as u64),
    ];
    put_line(&mut out, b"hyder: config", &words)?;
    Ok(out)
}

/// The line for a saved point that is refused: at which byte of its device, from 0 on, and why.
pub fn point_line(alloc: Global, byte: u64, why: &str) -> Result<Vec<u8>, AllocError>
    ensures { IfOk result (λ text. text.items ≡ point_fault_text byte why.now) }
{
    let mut out = Vec::new(alloc);
    let words = [Word::Number(byte), Word::Plain(why.as_bytes())];
    put_line(&mut out, b"hyder: point byte", &words)?;
    Ok(out)
}

/// The line for a saved point that is further than the log: its position, and how many entries the log has.
pub fn ahead_line(alloc: Global, point: Pos, log: Pos) -> Result<Vec<u8>, AllocError>
    ensures { IfOk result (λ text. text.items ≡ ahead_fault_text point log) }
{
    let mut out = Vec::new(alloc);
    let words = [
        Word::Number(point as u64),
        Word::Plain(b"log"),
        Word::Number(log as u64),
    ];
    put_line(&mut out, b"hyder: point", &words)?;
    Ok(out)
}

/// The line for a log that was cut past the base of the saved point, or was cut where there is no point: the point's base,
/// 0 without one, and the position up to which the log was cut.
pub fn behind_line(alloc: Global, base: Pos, from: Pos) -> Result<Vec<u8>, AllocError>
    ensures { IfOk result (λ text. text.items ≡ behind_fault_text base from) }
{
    let mut out = Vec::new(alloc);
    let words = [
        Word::Number(base as u64),
        Word::Plain(b"log from"),
        Word::Number(from as u64),
    ];
    put_line(&mut out, b"hyder: point base", &words)?;
    Ok(out)
}

/// The line for a log of which nothing can be left out: the position up to which it was cut, 0 where it wasn't, and the
/// base of the saved point, 0 where there is none.
pub fn compact_fault_line(alloc: Global, from: Pos, base: Pos) -> Result<Vec<u8>, AllocError>
    ensures { IfOk result (λ text. text.items ≡ compact_fault_text from base) }
{
    let mut out = Vec::new(alloc);
    let words = [
        Word::Number(from as u64),
        Word::Plain(b"base"),
        Word::Number(base as u64),
    ];
    put_line(&mut out, b"hyder: compact from", &words)?;
    Ok(out)
}

/// The line for a stream that is refused: the place of its first field that is, and why.
pub fn frame_line(alloc: Global, place: u64, why: &str) -> Result<Vec<u8>, AllocError>
    ensures { IfOk result (λ text. text.items ≡ frame_fault_text place why.now) }
{
    let mut out = Vec::new(alloc);
    let words = [Word::Number(place), Word::Plain(why.as_bytes())];
    put_line(&mut out, b"hyder: frame at", &words)?;
    Ok(out)
}

/// The line for a log whose tables aren't sound as a run opens: the least key at fault.
pub fn table_line(alloc: Global, key: Key) -> Result<Vec<u8>, AllocError>
    ensures { IfOk result (λ text. text.items ≡ table_fault_text key) }
{
    let mut out = Vec::new(alloc);
    put_line(&mut out, b"hyder: table key", &[Word::Number(key)])?;
    Ok(out)
}

/// The line for a spare device that holds something already.
pub fn spare_line() -> &'static [u8]
    ensures { result.now ≡ spare_fault_text }
{
    b"hyder: spare in use\n"
}

/// The text of a copy: the base past which the log was copied, and how many entries.
pub fn write_compact(alloc: Global, base: Pos, count: usize) -> Result<Vec<u8>, AllocError>
    ensures { IfOk result (λ text. text.items ≡ compact_text base count) }
{
    let mut out = Vec::new(alloc);
    let words = [
        Word::Number(base as u64),
        Word::Plain(b"entries"),
        Word::Number(count as u64),
    ];
    put_line(&mut out, b"compact from", &words)?;
    Ok(out)
}
