//! Entries as bytes, both ways, and damaged fields.
ghost use Rattle.std.specs.Prelude.{◌≤◌};
ghost use Rattle.hy_base.specs.Limits.{IsServerNumber};
ghost use Rattle.hy_base.specs.Shape.{IsGoodShape};

use crate::calls::{PUT, PUT_2, front};
use hy_base::{Entry, Pos, Shape};
use hy_codec::{DecodeError, decode, decode_at, encode};
use hy_formats::{BadEntry, Damage};
use std::alloc::Global;
use std::process::Abort;
use std::test::Fail;

// Points 4 and 9, the span from 2 to 3, and a deletion of key 7.
const READS: &[u8] = &[
    1, 8, 128, 0, 2, 0, 0, 2, 1, 1, // the head
    4, 0, 0, 0, 0, 0, 0, 0, 9, 0, 0, 0, 0, 0, 0, 0, // the points, from byte 10
    2, 0, 0, 0, 0, 0, 0, 0, 3, 0, 0, 0, 0, 0, 0, 0, // the span, from byte 26
    7, 0, 0, 0, 0, 0, 0, 0, 0, // the write, from byte 42
];

// The spans from 2 to 3 and from 2 to 5, and a deletion of key 7.
const SPANS: &[u8] = &[
    1, 8, 128, 0, 2, 0, 0, 0, 2, 1, // the head
    2, 0, 0, 0, 0, 0, 0, 0, 3, 0, 0, 0, 0, 0, 0, 0, // from byte 10
    2, 0, 0, 0, 0, 0, 0, 0, 5, 0, 0, 0, 0, 0, 0, 0, // from byte 26
    7, 0, 0, 0, 0, 0, 0, 0, 0, // from byte 42
];

// A filler of server 3.
const FILLER: &[u8] = &[0, 3, 0, 0, 0, 0, 0, 0, 0, 0];

// The same in version 2.
const FILLER_2: &[u8] = &[0, 3, 0, 0, 0, 0, 0, 0, 0, 0, 0];

// A put of `a` at key 1 by a program at Snapshot isolation, on the empty snapshot.
const SNAPSHOT_PUT: &[u8] = &[
    1, 1, 1, 1, 0, 0, 0, 0, 0, 0, 1, 1, 0, 0, 0, 0, 0, 0, 0, 1, 1, 0, b'a',
];

// Where the bytes are refused, and why.
fn refusal(alloc: Global, version: u8, bytes: &[u8]) -> Option<(usize, Damage)> {
    match decode(alloc, bytes, version) {
        Err(DecodeError::BadEntry(bad)) => Some((bad.place, bad.why)),
        _ => None,
    }
}

// The same where one byte is changed.
fn refusal_of_changed(
    alloc: Global,
    version: u8,
    bytes: &[u8],
    place: usize,
    byte: u8,
) -> Result<Option<(usize, Damage)>, Fail> {
    let mut bytes = bytes.to_vec(alloc)?;
    if let Some(cell) = bytes.get_mut(place) {
        *cell = byte;
    }
    Ok(refusal(alloc, version, &bytes))
}

// Each case is a changed byte, its new value, and the place and the cause of the damage.
fn check_damage(
    rt: &impl Abort,
    alloc: Global,
    version: u8,
    bytes: &[u8],
    cases: &[(usize, u8, usize, Damage)],
) -> Result<(), Fail> {
    for (place, byte, at, damage) in cases {
        let refused = refusal_of_changed(alloc, version, bytes, *place, *byte)?;
        assert!(rt; refused == Some((*at, *damage)), "{byte} at {place}");
    }
    Ok(())
}

// Whether the bytes are read, and written again.
fn is_respelled(alloc: Global, version: u8, bytes: &[u8]) -> Result<bool, Fail> {
    let entry = decode(alloc, bytes, version)?;
    let again = encode(alloc, &entry, version);
    drop(entry);
    let again = again?;
    let is_same = again.as_slice() == bytes;
    drop(again);
    Ok(is_same)
}

// The spelling of a filler.
fn filler(alloc: Global, version: u8, server: u8) -> Result<Vec<u8>, Fail>
    requires { IsServerNumber server }
{
    Ok(encode(alloc, &Entry::filler(server), version)?)
}

#[test]
fn what_is_read_is_written(rt: HostRuntime) -> Result<(), Fail> {
    for bytes in [PUT.as_slice(), READS, FILLER] {
        assert!(rt; is_respelled(rt.alloc(), 1, bytes)?);
    }
    for bytes in [PUT_2.as_slice(), SNAPSHOT_PUT, FILLER_2] {
        assert!(rt; is_respelled(rt.alloc(), 2, bytes)?);
    }
    assert!(rt; filler(rt.alloc(), 1, 3)?.as_slice() == FILLER);
    assert!(rt; filler(rt.alloc(), 2, 3)?.as_slice() == FILLER_2);
    Ok(())
}

#[test]
fn damage_in_a_put_is_named(rt: HostRuntime) -> Result<(), Fail> {
    check_damage(
        &rt,
        rt.alloc(),
        1,
        &PUT,
        &[
            (0, 2, 0, Damage::Kind),
            (0, 0, 2, Damage::Client),
            (1, 0, 1, Damage::Server),
            (1, 9, 1, Damage::Server),
            (2, 0, 2, Damage::Client),
            (2, 129, 2, Damage::Client),
            (7, 65, 7, Damage::Count),
            (7, 2, 18, Damage::Short),
            (8, 65, 8, Damage::Count),
            (8, 1, 10, Damage::Short),
            (9, 0, 9, Damage::Count),
            (9, 65, 9, Damage::Count),
            (9, 2, 22, Damage::Short),
            (18, 2, 18, Damage::Tag),
            (18, 0, 19, Damage::Long),
            (19, 0, 19, Damage::Length),
            (20, 2, 19, Damage::Length),
            (20, 1, 19, Damage::Length),
            (19, 2, 21, Damage::Short),
            (21, 32, 21, Damage::Byte),
            (21, 127, 21, Damage::Byte),
        ],
    )
}

// In version 2 each field behind the client stands a byte further.
#[test]
fn damage_in_a_put_of_version_2_is_named(rt: HostRuntime) -> Result<(), Fail> {
    check_damage(
        &rt,
        rt.alloc(),
        2,
        &PUT_2,
        &[
            (0, 2, 0, Damage::Kind),
            (0, 0, 2, Damage::Client),
            (1, 9, 1, Damage::Server),
            (2, 129, 2, Damage::Client),
            (3, 2, 3, Damage::Iso),
            (3, 255, 3, Damage::Iso),
            (8, 65, 8, Damage::Count),
            (8, 2, 19, Damage::Short),
            (9, 65, 9, Damage::Count),
            (9, 1, 11, Damage::Short),
            (10, 0, 10, Damage::Count),
            (10, 2, 23, Damage::Short),
            (19, 2, 19, Damage::Tag),
            (19, 0, 20, Damage::Long),
            (20, 0, 20, Damage::Length),
            (21, 2, 20, Damage::Length),
            (20, 2, 22, Damage::Short),
            (22, 127, 22, Damage::Byte),
        ],
    )
}

// At Snapshot isolation nothing is recorded of what was read.
#[test]
fn damage_in_a_snapshot_put_is_named(rt: HostRuntime) -> Result<(), Fail> {
    check_damage(
        &rt,
        rt.alloc(),
        2,
        SNAPSHOT_PUT,
        &[
            (3, 2, 3, Damage::Iso),
            (8, 1, 8, Damage::Count),
            (9, 1, 9, Damage::Count),
            (10, 0, 10, Damage::Count),
        ],
    )
}

#[test]
fn damage_in_a_filler_of_version_2_is_named(rt: HostRuntime) -> Result<(), Fail> {
    check_damage(
        &rt,
        rt.alloc(),
        2,
        FILLER_2,
        &[
            (2, 1, 2, Damage::Client),
            (3, 1, 3, Damage::Iso),
            (4, 1, 4, Damage::Snap),
            (7, 1, 4, Damage::Snap),
            (8, 1, 8, Damage::Count),
            (9, 1, 9, Damage::Count),
            (10, 1, 10, Damage::Count),
        ],
    )
}

// A filler's fields besides the server are 0.
#[test]
fn damage_in_a_filler_is_named(rt: HostRuntime) -> Result<(), Fail> {
    check_damage(
        &rt,
        rt.alloc(),
        1,
        &[0, 8, 0, 0, 0, 0, 0, 0, 0, 0],
        &[
            (2, 1, 2, Damage::Client),
            (3, 1, 3, Damage::Snap),
            (6, 1, 3, Damage::Snap),
            (7, 1, 7, Damage::Count),
            (8, 1, 8, Damage::Count),
            (9, 1, 9, Damage::Count),
        ],
    )
}

// A point below or beside the one before it, and a span that ends below its first key.
#[test]
fn lists_are_in_order(rt: HostRuntime) -> Result<(), Fail> {
    check_damage(
        &rt,
        rt.alloc(),
        1,
        READS,
        &[
            (10, 10, 18, Damage::Order),
            (18, 4, 18, Damage::Order),
            (18, 3, 18, Damage::Order),
            (34, 1, 26, Damage::Span),
            (8, 2, 42, Damage::Short),
        ],
    )
}

// Two spans from one key, of which the later isn't the longer.
#[test]
fn spans_are_in_order(rt: HostRuntime) -> Result<(), Fail> {
    assert!(rt; refusal(rt.alloc(), 1, SPANS).is_none());
    check_damage(
        &rt,
        rt.alloc(),
        1,
        SPANS,
        &[
            (34, 3, 26, Damage::Order),
            (34, 2, 26, Damage::Order),
            (34, 1, 26, Damage::Span),
            (26, 1, 26, Damage::Order),
        ],
    )
}

// Each cut of an entry is short, at the first field that isn't whole.
#[test]
fn a_cut_is_short(rt: HostRuntime) -> Result<(), Fail> {
    for (size, at) in [
        (0, 0),
        (1, 1),
        (2, 2),
        (3, 3),
        (6, 3),
        (9, 9),
        (10, 10),
        (17, 10),
        (25, 18),
        (41, 26),
        (49, 42),
        (50, 50),
    ] {
        let refused = refusal(rt.alloc(), 1, front(READS, size));
        assert!(rt; refused == Some((at, Damage::Short)), "{size} bytes");
    }
    Ok(())
}

// Groups of two.
const PAIRS: Shape = Shape {
    group: 2,
    window: 1,
    cap: 8,
    version: 1,
    horizon: None,
};

// The same in version 2.
const PAIRS_2: Shape = Shape {
    version: 2,
    ..PAIRS
};

// Where the snapshot of these bytes is refused at a position of a log.
fn snap_refusal(alloc: Global, shape: Shape, bytes: &[u8], pos: Pos) -> Option<usize>
    requires good { IsGoodShape shape }
    requires first { 1 ≤ pos }
{
    match decode_at(alloc, bytes, pos, shape) {
        Err(
            DecodeError::BadEntry(
                BadEntry {
                    place,
                    why: Damage::Snap,
                },
            ),
        ) => Some(place),
        _ => None,
    }
}

// Where the snapshot of the put in version 1 is refused.
fn refusal_in_first(alloc: Global, snap: u8, pos: Pos) -> Option<usize>
    requires { 1 ≤ pos }
{
    let mut bytes = PUT;
    bytes[3] = snap;
    snap_refusal(alloc, PAIRS, &bytes, pos)
}

// The same in version 2.
fn refusal_in_second(alloc: Global, snap: u8, pos: Pos) -> Option<usize>
    requires { 1 ≤ pos }
{
    let mut bytes = PUT_2;
    bytes[4] = snap;
    snap_refusal(alloc, PAIRS_2, &bytes, pos)
}

// The snapshot begins at byte 3 of version 1, and at byte 4 of version 2.
#[test]
fn a_snapshot_is_judged_by_its_position(rt: HostRuntime) {
    for (snap, pos, lawful) in [
        (0, 1, true),
        (2, 1, false),
        (2, 2, false),
        (2, 3, true),
        (1, 3, false),
        (4, 4, false),
    ] {
        assert!(rt; pos >= 1);
        let (first, second) = if lawful {
            (None, None)
        } else {
            (Some(3), Some(4))
        };
        assert!(rt;
            refusal_in_first(rt.alloc(), snap, pos) == first,
            "{snap} at {pos}"
        );
        assert!(rt;
            refusal_in_second(rt.alloc(), snap, pos) == second,
            "{snap} at {pos}"
        );
    }
}
