//! The header of a stream: the magic, the shape with its version first, and zeros in the place of a horizon
//! where there is none.
ghost use Rattle.std.specs.Prelude.{◌≡◌, ◌≤◌, ◌&&◌, ◌||◌, is_ok, length, take, drop, codes, bytes_eq, IfOk};
ghost use Rattle.hy_base.specs.Shape.{shape_fault, IsGoodShape, has_horizon};
ghost use Rattle.hy_formats.specs.LogFormat.{are_zeros, byte_at};
ghost use Rattle.hy_formats.specs.StreamFormat.{head_judged, streamed_shape};

use byteorder::{ByteOrder, LittleEndian};
use hy_base::{NEWEST_VERSION, Shape, has_horizon};
use hy_formats::{BadFrame, Damage};

/// The first bytes of a stream.
pub const MAGIC: [u8; 8] = *b"HYDERSTR";

fn has_magic(head: &[u8]) -> bool
    requires { 19 ≤ length head.now }
    ensures { result ≡ bytes_eq (take 8 head.now) (codes "HYDERSTR") }
{
    let magic = MAGIC;
    &head[..8] == &magic[..]
}

fn are_zeros(bytes: &[u8]) -> bool
    ensures { result ≡ are_zeros bytes.now }
{
    bytes.iter().all(|byte| *byte == 0)
}

// The shape in a stream's header.
fn streamed_shape(head: &[u8]) -> Shape
    requires { 19 ≤ length head.now }
    ensures { result ≡ streamed_shape head.now }
{
    let version = head[8];
    let horizon = if has_horizon(version) {
        Some(LittleEndian::read_u32(&head[15..19]))
    } else {
        None
    };
    Shape {
        group: head[9],
        window: head[10],
        cap: LittleEndian::read_u32(&head[11..15]),
        version,
        horizon,
    }
}

// Whether a header's shape is in range, with zeros where there is no horizon.
fn has_shape(head: &[u8], shape: Shape) -> bool
    requires { 19 ≤ length head.now }
    ensures { result
        ≡ (is_ok (shape_fault shape) && (has_horizon (byte_at head.now 8) || are_zeros (take 4 (drop 15 head.now)))) }
{
    if shape.check().is_err() {
        return false;
    }
    has_horizon(head[8]) || are_zeros(&head[15..19])
}

/// The shape that a stream's header tells, or the first field that is refused: `Magic` at 0, `Version` at 8, `Shape` at 9.
pub fn judge_head(head: &[u8]) -> Result<Shape, BadFrame>
    requires whole { 19 ≤ length head.now }
    ensures exact { result ≡ head_judged head.now }
    ensures good { IfOk result IsGoodShape }
{
    if !has_magic(head) {
        return Err(BadFrame {
            place: 0,
            why: Damage::Magic,
        });
    }
    let version = head[8];
    if version < 1 || version > NEWEST_VERSION {
        return Err(BadFrame {
            place: 8,
            why: Damage::Version,
        });
    }
    let shape = streamed_shape(head);
    if !has_shape(head, shape) {
        return Err(BadFrame {
            place: 9,
            why: Damage::Shape,
        });
    }
    Ok(shape)
}
