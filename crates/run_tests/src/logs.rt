//! The log of one put, byte by byte, and what is said of it.

/// A script without a client.
pub const NO_CLIENT: &[u8] = b"shape 1 1 8\nservers 1\n";

/// The script whose run makes the log of one put.
pub const ONE_PUT: &[u8] = b"shape 1 1 8\nservers 1\nclient 1\nbegin\nput 1 a\nend\n";

// The bytes of its header, and of its record.
const HEADER: &[u8] = b"GHYDERLOG\x01\x01\x01\x08\0\0\0";

const RECORD: &[u8] = b"G\x16\0\0\0\x01\x01\x01\0\0\0\0\0\0\x01\x01\0\0\0\0\0\0\0\x01\x01\0a";

/// The bytes of a device whose log has one put: a page each, and the open gate behind them.
pub fn one_put() -> [u8; 513] {
    let mut bytes = [0; 513];
    put_at(&mut bytes, 0, HEADER);
    put_at(&mut bytes, 256, RECORD);
    bytes
}

// Puts bytes at a place, as far as there is room.
fn put_at(bytes: &mut [u8], at: usize, part: &[u8]) {
    for (number, byte) in part.iter().enumerate() {
        if let Some(place) = bytes.get_mut(at.saturating_add(number)) {
            *place = *byte;
        }
    }
}

/// What `recover` writes of it.
pub const DUMP: &[u8] =
    b"log group 1 window 1 cap 8 entries 1\nentry 1 server 1 client 1 snap 0 points 0 spans 0 writes 1\n";

/// What `recover` writes of a log of the same shape without entries.
pub const NONE: &[u8] = b"log group 1 window 1 cap 8 entries 0\n";
