//! The length with which a frame begins.
ghost use Rattle.std.specs.Prelude.{◌≡◌, ◌≤◌, ◌^◌, ◌<◌, length};
ghost use Rattle.hy_formats.specs.StreamFormat.{told_length, length_fault};

use byteorder::{ByteOrder, LittleEndian};
use hy_base::{Pos, Shape};
use hy_formats::{Damage, longest_body};

/// The length that the first four bytes of a frame tell.
pub fn told_length(frame: &[u8]) -> usize
    requires { 4 ≤ length frame.now }
    ensures value { result ≡ told_length frame.now }
    ensures fits { result < 2 ^ 32 }
{
    LittleEndian::read_u32(&frame[..4]) as usize
}

/// Why a frame of this length is refused behind so many entries: `Cap` where the log is full, and `Length` where no body is
/// so long.
pub fn length_fault(shape: Shape, count: Pos, len: usize) -> Option<Damage>
    ensures { result ≡ length_fault shape count len }
{
    if count >= shape.cap {
        return Some(Damage::Cap);
    }
    if len < 1 || len > longest_body(shape.version) {
        return Some(Damage::Length);
    }
    None
}
