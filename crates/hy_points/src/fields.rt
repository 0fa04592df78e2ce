//! A point's body, field by field.
ghost use Rattle.std.specs.Prelude.{◌≡◌, ◌-◌, ◌≤◌, Option, Bool, IfOk, None};
ghost use Rattle.hy_base.specs.Rows.{is_purgeable};
ghost use Rattle.hy_base.specs.Shape.{IsGoodShape, before_horizon};
ghost use Rattle.hy_formats.specs.Reading.{items_at};
ghost use Rattle.hy_codec.specs.EntryReading.{Gives};
ghost use Rattle.hy_formats.specs.PointFormat.{position_at, point_head_at, saved_row_at, flag_at, point_body_at};
ghost use Rattle.hy_formats.specs.PointFormat.{whole_point_body};
ghost use Rattle.hy_points.specs.PointReading.{point_head_of, body_of};

use hy_base::{Key, Pos, Row, Shape};
use hy_codec::{FieldError, key_at, requiring, u8_in, u32_at, u32_in, u64_at, value_at};
use hy_formats::Damage;
use std::alloc::Global;

/// The fields before the rows.
#[derive(Clone, Copy)]
pub struct HeadFields {
    pub position: Pos,
    pub base: Pos,
    pub count: u64,
}

/// A whole body.
#[derive(Drop)]
pub struct Body {
    pub head: HeadFields,
    pub rows: Vec<Row>,
    pub flags: Vec<bool>,
}

// The end of a group of the log.
#[tactic(auto, unfolding(hy_formats::specs::PointFormat::position_at))]
fn position_at(shape: Shape, bytes: &[u8]) -> Result<(Pos, &[u8]), FieldError>
    requires { IsGoodShape shape }
    ensures read { Gives (λ x. (x.0, x.1.now)) result (position_at shape bytes.now) }
    ensures within { IfOk result (λ x. x.0 ≤ shape.cap) }
{
    let (position, rest) = u32_at(bytes)?;
    let whole = position % u32::from(shape.group) == 0;
    requiring(whole && position <= shape.cap, Damage::Position, bytes)?;
    Ok((position, rest))
}

#[tactic(auto, unfolding(hy_formats::specs::PointFormat::point_head_at))]
fn point_head_at(shape: Shape, bytes: &[u8]) -> Result<(HeadFields, &[u8]), FieldError>
    requires { IsGoodShape shape }
    ensures read { Gives (λ x. (point_head_of x.0, x.1.now)) result (point_head_at shape bytes.now) }
{
    let (_, rest) = u8_in(bytes, shape.group, shape.group, Damage::Shape)?;
    let (_, rest) = u8_in(rest, shape.window, shape.window, Damage::Shape)?;
    let (position, rest) = position_at(shape, rest)?;
    let expected = shape.base(position / u32::from(shape.group) + 1);
    let (base, rest) = u32_in(rest, expected, expected, Damage::Base)?;
    let (count, rest) = u64_at(rest)?;
    let head = HeadFields {
        position,
        base,
        count,
    };
    Ok((head, rest))
}

// Whether a row is a tombstone at or below a line.
fn is_purgeable(row: &Row, line: Pos) -> bool
    ensures { result ≡ is_purgeable line row.now }
{
    row.value.is_none() && row.writer <= line
}

// A row of a key above the last one, if there is one, and of a writer up to the base, and no tombstone at or below the line.
#[tactic(auto, unfolding(hy_formats::specs::PointFormat::saved_row_at))]
fn saved_row_at(
    alloc: Global,
    line: Pos,
    base: Pos,
    last: Option<Key>,
    bytes: &[u8],
) -> Result<(Row, &[u8]), FieldError>
    ensures { Gives (λ x. (x.0, x.1.now)) result (saved_row_at line base last bytes.now) }
{
    let (key, place) = key_at(last, bytes)?;
    let (writer, rest) = u32_in(place, 1, base, Damage::Writer)?;
    let (value, rest) = value_at(alloc, rest)?;
    let row = Row { key, writer, value };
    requiring(!is_purgeable(&row, line), Damage::Writer, place)?;
    Ok((row, rest))
}

// So many rows, in the order of their keys.
fn rows_at(
    alloc: Global,
    count: u64,
    line: Pos,
    base: Pos,
    bytes: &[u8],
) -> Result<(Vec<Row>, &[u8]), FieldError>
    ensures { Gives (λ x. (x.0.items, x.1.now)) result (items_at (saved_row_at line base) (λ r. r.key) count None bytes.now) }
{
    let mut rows = Vec::new(alloc);
    let mut last = None;
    let mut rest = bytes;
    for _ in 0..count {
        let (row, after) = saved_row_at(alloc, line, base, last, rest)?;
        last = Some(row.key);
        rows.push(row)?;
        rest = after;
    }
    Ok((rows, rest))
}

#[tactic(auto, unfolding(hy_formats::specs::PointFormat::flag_at))]
fn flag_at(bytes: &[u8]) -> Result<(bool, &[u8]), FieldError>
    ensures { (last : Option Bool) → Gives (λ x. (x.0, x.1.now)) result (flag_at last bytes.now) }
{
    let (flag, rest) = u8_in(bytes, 0, 1, Damage::Flag)?;
    Ok((flag == 1, rest))
}

// So many flags.
fn flags_at(alloc: Global, count: u32, bytes: &[u8]) -> Result<(Vec<bool>, &[u8]), FieldError>
    ensures { Gives (λ x. (x.0.items, x.1.now)) result (items_at flag_at (λ f. f) count None bytes.now) }
{
    let mut flags = Vec::new(alloc);
    let mut rest = bytes;
    for _ in 0..count {
        let (flag, after) = flag_at(rest)?;
        flags.push(flag)?;
        rest = after;
    }
    Ok((flags, rest))
}

// A point's body, and the bytes after it.
#[tactic(auto, unfolding(hy_formats::specs::PointFormat::point_body_at))]
fn point_body_at(alloc: Global, shape: Shape, bytes: &[u8]) -> Result<(Body, &[u8]), FieldError>
    requires { IsGoodShape shape }
    ensures { Gives (λ x. (body_of shape x.0, x.1.now)) result (point_body_at shape bytes.now) }
{
    let (head, rest) = point_head_at(shape, bytes)?;
    let line = shape.before_horizon(head.base);
    let (rows, rest) = rows_at(alloc, head.count, line, head.base, rest)?;
    let (flags, rest) = flags_at(alloc, head.position.saturating_sub(head.base), rest)?;
    Ok((Body { head, rows, flags }, rest))
}

/// The body that all of the bytes are.
#[tactic(auto, unfolding(hy_formats::specs::PointFormat::whole_point_body))]
pub fn whole_point_body(alloc: Global, shape: Shape, bytes: &[u8]) -> Result<Body, FieldError>
    requires { IsGoodShape shape }
    ensures { Gives (body_of shape) result (whole_point_body shape bytes.now) }
{
    let (body, rest) = point_body_at(alloc, shape, bytes)?;
    requiring(rest.is_empty(), Damage::Long, rest)?;
    Ok(body)
}
