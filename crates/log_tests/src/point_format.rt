//! The format of a saved point, by worked bytes and a table of damage.
ghost use Rattle.hy_base.specs.Shape.{IsGoodShape};

use hy_base::{Items, Pos, Shape};
use hy_formats::Damage;
use hy_points::{Point, PointError, decode_point, encode_point};
use hy_tree::Tree;
use std::alloc::Global;
use std::test::Fail;

/// Groups of two, windows of two.
pub const TWO_BY_TWO: Shape = Shape {
    group: 2,
    window: 2,
    cap: 8,
    version: 1,
    horizon: None,
};

/// Groups of one, windows of one.
pub const ONE_BY_ONE: Shape = Shape {
    group: 1,
    window: 1,
    ..TWO_BY_TWO
};

// The same with a horizon of one position.
const NEAR: Shape = Shape {
    version: 3,
    horizon: Some(1),
    ..ONE_BY_ONE
};

// And of two.
const FAR: Shape = Shape {
    horizon: Some(2),
    ..NEAR
};

// A point at position 2 without rows: a commit, and a filler.
pub const FIRST_GROUP: [u8; 29] = [
    0x47, 20, 0, 0, 0, 0, 0, 0, 0, // the gate and the length of the body
    2, 2, 2, 0, 0, 0, 0, 0, 0, 0, // group size, window, position, base
    0, 0, 0, 0, 0, 0, 0, 0, // no rows
    1, 0, // the flags
];

// A point at position 3, with the rows at 2: a deletion of key 4 at 1, and "ab" at key 9 by 2.
const ROWS: [u8; 58] = [
    0x47, 49, 0, 0, 0, 0, 0, 0, 0, // the gate and the length of the body
    1, 1, 3, 0, 0, 0, 2, 0, 0, 0, // group size, window, position, base
    2, 0, 0, 0, 0, 0, 0, 0, // two rows
    4, 0, 0, 0, 0, 0, 0, 0, 1, 0, 0, 0, 0, // from byte 27
    9, 0, 0, 0, 0, 0, 0, 0, 2, 0, 0, 0, 1, 2, 0, 97, 98, // from byte 40
    1, // the flag, byte 57
];

// The bytes in front of a page of zeros.
pub fn page(bytes: &[u8]) -> [u8; 256] {
    let mut page = [0; 256];
    let size = bytes.len().min(256);
    page[..size].copy_from_slice(&bytes[..size]);
    page
}

// The page with one byte changed.
pub fn changed(bytes: &[u8], place: usize, byte: u8) -> [u8; 256] {
    let mut page = page(bytes);
    if let Some(cell) = page.get_mut(place) {
        *cell = byte;
    }
    page
}

// The point with which the bytes begin, or none where they are no page behind an open gate.
pub fn decoded(alloc: Global, bytes: &[u8], shape: Shape) -> Result<Option<Point>, PointError>
    requires { IsGoodShape shape }
{
    if bytes.len() < 256 || bytes[0] != 0x47 {
        return Ok(None);
    }
    Ok(Some(decode_point(alloc, bytes, shape)?))
}

// Where the bytes are refused, and why.
fn refusal(alloc: Global, bytes: &[u8], shape: Shape) -> Option<(usize, Damage)>
    requires { IsGoodShape shape }
{
    match decoded(alloc, bytes, shape) {
        Err(PointError::BadPoint(bad)) => Some((bad.place, bad.why)),
        _ => None,
    }
}

// The bytes of the point at position 2.
fn first_group(alloc: Global) -> Result<Vec<u8>, Fail> {
    let flags = Items::from_vec(vec![in alloc; true, false]?);
    written(alloc, Point::new(TWO_BY_TWO, 2, Tree::empty(), flags))
}

fn written(alloc: Global, point: Point) -> Result<Vec<u8>, Fail> {
    let bytes = encode_point(alloc, &point);
    drop(point);
    Ok(bytes?)
}

#[test]
fn a_point_is_written(rt: HostRuntime) -> Result<(), Fail> {
    let bytes = first_group(rt.alloc())?;
    assert_eq!(rt; bytes.as_slice(), page(&FIRST_GROUP).as_slice());
    drop(bytes);
    Ok(())
}

// The position and base of the point that these bytes are, and how many rows and flags it has.
fn outline(alloc: Global, bytes: &[u8]) -> Result<(Pos, Pos, u64, usize), Fail> {
    match decoded(alloc, bytes, ONE_BY_ONE)? {
        None => Err("no point")?,
        Some(point) => {
            let rows = point.rows().row_count();
            let outline = (point.position(), point.base(), rows, point.flags().len());
            drop(point);
            Ok(outline)
        }
    }
}

// The point that these bytes are, written again.
fn again(alloc: Global, bytes: &[u8]) -> Result<Vec<u8>, Fail> {
    match decoded(alloc, bytes, ONE_BY_ONE)? {
        None => Err("no point")?,
        Some(point) => written(alloc, point),
    }
}

#[test]
fn what_is_read_is_written(rt: HostRuntime) -> Result<(), Fail> {
    let alloc = rt.alloc();
    let bytes = page(&ROWS);
    assert_eq!(rt; outline(alloc, &bytes)?, (3, 2, 2, 1));
    assert_eq!(rt; again(alloc, &bytes)?.as_slice(), bytes.as_slice());
    Ok(())
}

// One byte of a point changed: the byte, its new value, and the place and the cause that are named.
#[test]
fn damage_is_named(rt: HostRuntime) {
    let cases = [
        (1, 248, 1, Damage::Short),
        (8, 1, 1, Damage::Short),
        (1, 0, 9, Damage::Short),
        (1, 1, 10, Damage::Short),
        (1, 19, 28, Damage::Short),
        (1, 21, 29, Damage::Long),
        (9, 1, 9, Damage::Shape),
        (10, 1, 10, Damage::Shape),
        (11, 3, 11, Damage::Position),
        (11, 10, 11, Damage::Position),
        (15, 1, 15, Damage::Base),
        (19, 1, 27, Damage::Short),
        (28, 2, 28, Damage::Flag),
        (29, 1, 29, Damage::Fill),
        (100, 1, 29, Damage::Fill),
        (255, 1, 29, Damage::Fill),
    ];
    for (place, byte, at, damage) in cases {
        let found = refusal(rt.alloc(), &changed(&FIRST_GROUP, place, byte), TWO_BY_TWO);
        assert_eq!(rt; found, Some((at, damage)));
    }
}

// The same of a point with rows.
#[test]
fn damage_in_rows_is_named(rt: HostRuntime) {
    let cases = [
        (31, 1, 40, Damage::Order),
        (27, 9, 40, Damage::Order),
        (35, 0, 35, Damage::Writer),
        (35, 3, 35, Damage::Writer),
        (39, 2, 39, Damage::Tag),
        (53, 0, 53, Damage::Length),
        (54, 2, 53, Damage::Length),
        (56, 127, 56, Damage::Byte),
        (57, 2, 57, Damage::Flag),
    ];
    for (place, byte, at, damage) in cases {
        let found = refusal(rt.alloc(), &changed(&ROWS, place, byte), ONE_BY_ONE);
        assert_eq!(rt; found, Some((at, damage)));
    }
}

// A deletion at or below the line of the base is refused at its writer, once its tag is read. The line of base 2 is 1 with
// the nearer horizon, and 0 with the other. An old row with a value stays.
#[test]
fn an_old_deletion_is_refused(rt: HostRuntime) {
    let alloc = rt.alloc();
    let rows = page(&ROWS);
    assert_eq!(rt; refusal(alloc, &rows, NEAR), Some((35, Damage::Writer)));
    assert_eq!(rt; refusal(alloc, &rows, FAR), None);
    let bad_tag = changed(&ROWS, 39, 2);
    assert_eq!(rt; refusal(alloc, &bad_tag, NEAR), Some((39, Damage::Tag)));
    let later = changed(&ROWS, 35, 2);
    assert_eq!(rt; refusal(alloc, &later, NEAR), None);
    let old_value = changed(&later, 48, 1);
    assert_eq!(rt; refusal(alloc, &old_value, NEAR), None);
}
