//! Types are made and read at the ends of their ranges, with answers counted by hand.
ghost use Rattle.std.specs.Prelude.{◌≡◌, ◌<◌};

use hy_base::*;
use std::alloc::{AllocError, Global};
use std::fmt::Display;
use std::marker::Brand;
use std::sync::ledger::{Blank, Ledger};
use std::test::Fail;

const SHAPE: Shape = Shape {
    group: 2,
    window: 3,
    cap: 48,
    version: 1,
    horizon: None,
};

#[test]
fn a_shape_names_its_first_bad_field(rt: HostRuntime) {
    type Found = Option<(Field, Pos)>;
    let rows: [(u8, u8, Pos, u8, Option<Pos>, Found); 24] = [
        (1, 1, 1, 1, None, None),
        (3, 5, 48, 2, None, None),
        (8, 64, 2147483648, 1, None, None),
        (8, 64, 2147483648, 2, None, None),
        (3, 5, 48, 3, Some(15), None),
        (8, 64, 8, 3, Some(2147483648), None),
        (0, 1, 8, 1, None, Some((Field::Group, 0))),
        (9, 0, 0, 0, None, Some((Field::Group, 9))),
        (1, 0, 8, 1, None, Some((Field::Window, 0))),
        (8, 65, 1, 1, None, Some((Field::Window, 65))),
        (1, 1, 0, 4, None, Some((Field::Cap, 0))),
        (8, 1, 7, 1, None, Some((Field::Cap, 7))),
        (3, 5, 49, 2, None, Some((Field::Cap, 49))),
        (1, 1, 2147483649, 1, None, Some((Field::Cap, 2147483649))),
        (5, 1, u32::MAX, 1, None, Some((Field::Cap, 4294967295))),
        (1, 1, 1, 0, Some(0), Some((Field::Version, 0))),
        (3, 5, 48, 4, Some(15), Some((Field::Version, 4))),
        (8, 64, 8, 255, None, Some((Field::Version, 255))),
        (3, 5, 48, 1, Some(15), Some((Field::Horizon, 15))),
        (3, 5, 48, 2, Some(15), Some((Field::Horizon, 15))),
        (3, 5, 48, 3, None, Some((Field::Horizon, 0))),
        (3, 5, 48, 3, Some(14), Some((Field::Horizon, 14))),
        (3, 5, 48, 3, Some(0), Some((Field::Horizon, 0))),
        (
            1,
            1,
            1,
            3,
            Some(2147483649),
            Some((Field::Horizon, 2147483649)),
        ),
    ];
    for (group, window, cap, version, horizon, fault) in rows {
        let shape = Shape {
            group,
            window,
            cap,
            version,
            horizon,
        };
        let found = match shape.check() {
            Ok(()) => None,
            Err(BadShape { field, value }) => Some((field, value)),
        };
        assert!(rt; found == fault, "at {group} {window} {cap} {version}");
    }
}

// The base of a group, where there is such a group in a log that is full.
fn base_of(group: u32) -> Option<Pos> {
    if group < 1 || group > 25 {
        return None;
    }
    Some(SHAPE.base(group))
}

#[test]
fn a_base_is_two_windows_back(rt: HostRuntime) {
    let rows = [
        (1, 0),
        (3, 0),
        (4, 0),
        (6, 0),
        (7, 6),
        (9, 6),
        (10, 12),
        (24, 36),
        (25, 42),
    ];
    for (group, want) in rows {
        assert!(rt; base_of(group) == Some(want), "at {group}");
    }
}

fn is_spelled(alloc: Global, fault: &impl Display, text: &str) -> Result<bool, AllocError> {
    let spelled = format!(in alloc; "{fault}")?;
    let is_spelled = spelled.as_str() == text;
    drop(spelled);
    Ok(is_spelled)
}

#[test]
fn faults_are_spelled(rt: HostRuntime) -> Result<(), Fail> {
    let alloc = rt.alloc();
    let rows = [
        (Field::Group, "group is out of range: 9"),
        (Field::Window, "window is out of range: 9"),
        (Field::Cap, "cap is out of range: 9"),
        (Field::Version, "version is out of range: 9"),
        (Field::Horizon, "horizon is out of range: 9"),
    ];
    for (field, text) in rows {
        let fault = BadShape { field, value: 9 };
        assert!(rt; is_spelled(alloc, &fault, text)?, "{text}");
    }
    let value = "a value has 1 to 256 bytes, each from 33 to 126";
    assert!(rt; is_spelled(alloc, &ValueError::BadValue, value)?);
    assert!(rt; is_spelled(alloc, &Failed, "the outside failed")?);
    Ok(())
}

// So many bytes, of which the last is this one.
fn bytes_to(alloc: Global, last: u8, len: usize) -> Result<Vec<u8>, AllocError> {
    let mut bytes = vec![in alloc; b'!'; len]?;
    if let Some(end) = bytes.last_mut() {
        *end = last;
    }
    Ok(bytes)
}

// Whether so many bytes, of which the last is this one, become a value.
fn becomes_value(alloc: Global, last: u8, len: usize) -> Result<bool, AllocError> {
    match Value::new(bytes_to(alloc, last, len)?) {
        Ok(value) => Ok(value.as_bytes().last() == Some(&last)),
        Err(ValueError::BadValue) => Ok(false),
        Err(ValueError::Memory) => Err(AllocError),
    }
}

#[test]
fn a_value_has_1_to_256_printable_bytes(rt: HostRuntime) -> Result<(), Fail> {
    let rows: [(u8, usize, bool); 7] = [
        (b'a', 0, false),
        (33, 1, true),
        (b'a', 256, true),
        (b'a', 257, false),
        (32, 1, false),
        (126, 1, true),
        (127, 1, false),
    ];
    for (last, len, good) in rows {
        assert!(rt;
            becomes_value(rt.alloc(), last, len)? == good,
            "{len} bytes to {last}"
        );
    }
    Ok(())
}

#[test]
fn a_shared_value_outlives_an_owner(rt: HostRuntime) -> Result<(), Fail> {
    let first = Shared::new(rt.alloc(), 7)?;
    let second = first.share()?;
    assert_eq!(rt; *first.get(), 7);
    drop(first);
    assert_eq!(rt; *second.get(), 7);
    Ok(())
}

fn two_steps<L: Ledger>(blank: Blank) -> Steps<L>
    requires { (blank.name ≡ L.name) × (blank.parts ≡ L.parts) × (0 < L.parts) }
    ensures { result ≡ 2 }
{
    let mut steps = Steps::new(blank);
    steps.tick();
    steps.tick();
    steps
}

fn size_of_two_steps<L: Ledger>(blank: Blank) -> usize
    requires name { blank.name ≡ L.name }
    requires parts { blank.parts ≡ L.parts }
    requires some { 0 < blank.parts }
{
    size_of_val(&two_steps::<L>(blank))
}

#[test]
fn steps_take_no_bytes(rt: HostRuntime) {
    assert_eq!(rt; size_of_two_steps::<Brand>(Blank::new(1)), 0);
}
