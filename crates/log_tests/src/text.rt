//! Texts of a log with an open group, and lines that no whole call writes. The other texts are those of whole calls.
ghost use Rattle.std.specs.Prelude.{◌≡◌, None};

use crate::entries::{letter, one_write};
use hy_base::{
    Clash, Entry, Intention, Isolation, Items, Pos, Row, Shape, Shared, Span, Verdict, Write,
};
use hy_formats::Header;
use hy_text::{EndedLoad, memory_line, page_line, write_check, write_dump, write_summary};
use std::alloc::{AllocError, Global};
use std::test::Fail;

// A transaction that writes the value `a` to key 1.
fn one_put(alloc: Global) -> Result<Entry, AllocError> {
    one_write(alloc, 0, 1, letter(alloc)?)
}

// A transaction of client 128 on server 8 that read a key and two spans, and deletes three keys.
fn three_deletes(alloc: Global) -> Result<Entry, Fail> {
    let spans = vec![in alloc; Span { lo: 1, hi: 9 }, Span { lo: 2, hi: 9 }]?;
    let writes = vec![in alloc; gone(1), gone(2), gone(3)]?;
    Ok(Entry::transaction(Intention {
        server: 8,
        client: 128,
        isolation: Isolation::Serializable,
        snap: 7,
        points: Items::from_vec(vec![in alloc; 5]?),
        spans: Items::from_vec(spans),
        writes: Items::from_vec(writes),
    }))
}

// The deletion of a key.
fn gone(key: u64) -> Write
    ensures { result ≡ record { key = key; value = None } }
{
    Write { key, value: None }
}

const SHAPE: Shape = Shape {
    group: 2,
    window: 3,
    cap: 64,
    version: 1,
    horizon: None,
};

fn three_entries(alloc: Global) -> Result<Vec<Entry>, Fail> {
    let first = three_deletes(alloc)?;
    let last = one_put(alloc)?;
    Ok(vec![in alloc; first, Entry::filler(4), last]?)
}

// The dump of these entries in a log of a version that was cut at a position.
fn dump_of_three(
    alloc: Global,
    version: u8,
    horizon: Option<Pos>,
    from: Pos,
) -> Result<Vec<u8>, Fail> {
    let entries = three_entries(alloc)?;
    let shape = Shape {
        version,
        horizon,
        ..SHAPE
    };
    let dump = write_dump(alloc, Some(Header { shape, from }), &entries);
    drop(entries);
    Ok(dump?)
}

#[test]
fn a_log_with_an_open_group_is_dumped(rt: HostRuntime) -> Result<(), Fail> {
    let rows = [
        (
            1,
            None,
            0,
            "log group 2 window 3 cap 64 entries 3\nentry 1 server 8 client 128 snap 7 points 1 spans 2 writes 3\n\
             entry 2 server 4 filler\nentry 3 server 1 client 1 snap 0 points 0 spans 0 writes 1\n",
        ),
        (
            2,
            None,
            0,
            "log group 2 window 3 cap 64 version 2 entries 3\n\
             entry 1 server 8 client 128 snap 7 points 1 spans 2 writes 3 iso 0\nentry 2 server 4 filler\n\
             entry 3 server 1 client 1 snap 0 points 0 spans 0 writes 1 iso 0\n",
        ),
        (
            3,
            Some(2147483648),
            0,
            "log group 2 window 3 cap 64 version 3 horizon 2147483648 entries 3\n\
             entry 1 server 8 client 128 snap 7 points 1 spans 2 writes 3 iso 0\nentry 2 server 4 filler\n\
             entry 3 server 1 client 1 snap 0 points 0 spans 0 writes 1 iso 0\n",
        ),
        (
            1,
            None,
            12,
            "log group 2 window 3 cap 64 from 12 entries 3\nentry 13 server 8 client 128 snap 7 points 1 spans 2 writes 3\n\
             entry 14 server 4 filler\nentry 15 server 1 client 1 snap 0 points 0 spans 0 writes 1\n",
        ),
    ];
    for (version, horizon, from, wanted) in rows {
        let dump = dump_of_three(rt.alloc(), version, horizon, from)?;
        assert!(rt; dump.as_slice() == wanted.as_bytes(), "version {version}");
    }
    Ok(())
}

fn check_of_three(alloc: Global, verdicts: &[Option<Verdict>]) -> Result<Vec<u8>, Fail> {
    Ok(write_check(alloc, Some(SHAPE), 3, verdicts, &[])?)
}

#[test]
fn an_open_group_waits(rt: HostRuntime) -> Result<(), Fail> {
    let rows = [
        (
            Verdict::Pre(Clash { key: 1, by: 7 }),
            "at 1 abort pre 1 by 7\nat 2 filler\nat 3 waits\nstate 2 rows 0\n",
        ),
        (
            Verdict::Old { snap: 2147483640 },
            "at 1 abort old 2147483640\nat 2 filler\nat 3 waits\nstate 2 rows 0\n",
        ),
    ];
    for (verdict, wanted) in rows {
        let check = check_of_three(rt.alloc(), &[Some(verdict), None])?;
        assert!(rt; check.as_slice() == wanted.as_bytes());
    }
    Ok(())
}

// An entry, and a filler behind it.
fn one_and_a_filler(alloc: Global) -> Result<Vec<Shared<Entry>>, Fail> {
    let one = Shared::new(alloc, one_put(alloc)?)?;
    let filler = Shared::new(alloc, Entry::filler(1))?;
    Ok(vec![in alloc; one, filler]?)
}

// The summary of the greatest load, with these verdicts.
fn summary(alloc: Global, verdicts: &[Option<Verdict>]) -> Result<Vec<u8>, Fail> {
    let entries = one_and_a_filler(alloc)?;
    let row = Row {
        key: 1,
        writer: 1,
        value: None,
    };
    let load = EndedLoad {
        seed: 18446744073709551615,
        size: 80000,
        entries: &entries,
        verdicts,
        reads: 3,
        live: &[row],
    };
    let summary = write_summary(alloc, &load);
    drop(entries);
    Ok(summary?)
}

#[test]
fn a_load_is_summed_up(rt: HostRuntime) -> Result<(), Fail> {
    let clash = Clash { key: 1, by: 7 };
    let verdicts = [
        Some(Verdict::Commit),
        None,
        Some(Verdict::Mate(clash)),
        Some(Verdict::Final(clash)),
        Some(Verdict::Final(clash)),
    ];
    let summary = summary(rt.alloc(), &verdicts)?;
    let wanted =
        "load seed 18446744073709551615 size 80000\nentries 2 fillers 1\ncommit 1 pre 0 mate 1 final 2 read 3\n\
         state 2 rows 1\n"
            .as_bytes();
    assert!(rt; summary.as_slice() == wanted);
    Ok(())
}

// The line of a damaged page.
fn page(alloc: Global) -> Result<Vec<u8>, AllocError> {
    page_line(alloc, 5000000000, "length")
}

#[test]
fn lines_of_refusals_are_written(rt: HostRuntime) -> Result<(), Fail> {
    let wanted = "hyder: log page 5000000000 length\n".as_bytes();
    assert!(rt; page(rt.alloc())?.as_slice() == wanted);
    assert!(rt; memory_line() == "hyder: memory\n".as_bytes());
    Ok(())
}
