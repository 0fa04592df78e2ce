//! Pages as bytes, with values counted by hand.
ghost use Rattle.std.specs.Prelude.{◌≤◌, length};

use crate::calls::PUT;
use hy_base::Shape;
use hy_formats::{Damage, Header};
use hy_pages::{
    are_zeros, fill_page, header_of, is_unborn, pages_of, read_gate, read_header, read_len,
};
use std::alloc::{AllocError, Global};
use std::process::Abort;
use std::test::Fail;

const SHAPE: Shape = Shape {
    group: 1,
    window: 1,
    cap: 8,
    version: 1,
    horizon: None,
};

// The same in version 2.
const SHAPE_2: Shape = Shape {
    version: 2,
    ..SHAPE
};

// The same in version 3.
const SHAPE_3: Shape = Shape {
    version: 3,
    horizon: Some(258),
    ..SHAPE
};

// The header of a log that was cut at its second position.
const CUT: Header = Header {
    shape: SHAPE,
    from: 2,
};

fn plain(shape: Shape) -> [u8; 256] {
    header_of(Header::uncut(shape))
}

// Whether a page begins with these bytes, and is 0 behind them.
fn is_padded(page: &[u8], bytes: &[u8]) -> bool {
    page.starts_with(bytes) && are_zeros(&page[bytes.len().min(page.len())..])
}

#[test]
fn writes_a_log_of_one_put(rt: HostRuntime) {
    assert!(rt; is_padded(&plain(SHAPE), b"GHYDERLOG\x01\x01\x01\x08"));
    assert!(rt; is_padded(&plain(SHAPE_2), b"GHYDERLOG\x02\x01\x01\x08"));
    let third = b"GHYDERLOG\x03\x01\x01\x08\0\0\0\x02\x01";
    assert!(rt; is_padded(&plain(SHAPE_3), third));
    let cut = b"GHYDERCUT\x01\x01\x01\x08\0\0\0\0\0\0\0\x02";
    assert!(rt; is_padded(&header_of(CUT), cut));
    let late = Header {
        shape: SHAPE_3,
        from: 8,
    };
    let both = b"GHYDERCUT\x03\x01\x01\x08\0\0\0\x02\x01\0\0\x08";
    assert!(rt; is_padded(&header_of(late), both) && read_header(&header_of(late)) == Ok(late));
    let mut rest = [0xff; 256];
    fill_page(&PUT, &mut rest);
    assert!(rt; has_body(&rest, [22, 0, 0, 0], &PUT));
}

// The pages of a body, over what an older record left there.
fn filled(alloc: Global, body: &[u8]) -> Result<Vec<u8>, AllocError>
    requires some { 1 ≤ length body.now }
    requires most { length body.now ≤ 18635 }
{
    let mut rest = vec![in alloc; 0xff; 256 * pages_of(body.len())]?;
    fill_page(body, &mut rest);
    Ok(rest)
}

// Whether the pages have a body behind this word.
fn has_body(rest: &[u8], word: [u8; 4], body: &[u8]) -> bool {
    rest.len() >= 4 && &rest[..4] == word.as_slice() && is_padded(&rest[4..], body)
}

fn check_record(
    rt: &impl Abort,
    alloc: Global,
    len: usize,
    pages: usize,
    word: [u8; 4],
) -> Result<(), Fail> {
    assert!(rt; len >= 1 && len <= 18635);
    let body = vec![in alloc; b'x'; len]?;
    let rest = filled(alloc, &body)?;
    assert!(rt; pages_of(len) == pages);
    assert!(rt; has_body(&rest, word, &body));
    assert!(rt; read_len(word) as usize == len);
    Ok(())
}

#[test]
fn records_take_whole_pages(rt: HostRuntime) -> Result<(), Fail> {
    let rows = [
        (1, 1, [1, 0, 0, 0]),
        (251, 1, [251, 0, 0, 0]),
        (252, 2, [252, 0, 0, 0]),
        (507, 2, [251, 1, 0, 0]),
        (508, 3, [252, 1, 0, 0]),
        (18427, 72, [251, 71, 0, 0]),
        (18428, 73, [252, 71, 0, 0]),
        (18634, 73, [202, 72, 0, 0]),
        (18635, 73, [203, 72, 0, 0]),
    ];
    for (len, pages, word) in rows {
        check_record(&rt, rt.alloc(), len, pages, word)?;
    }
    Ok(())
}

// The header with bytes changed at some places.
fn damaged(changes: &[(usize, u8)]) -> [u8; 256] {
    changed(plain(SHAPE), changes)
}

fn changed(page: [u8; 256], changes: &[(usize, u8)]) -> [u8; 256] {
    let mut page = page;
    for (place, byte) in changes {
        page[*place % 256] = *byte;
    }
    page
}

// What the front of the header tells.
fn read_front(size: usize) -> Result<Header, Damage> {
    read_header(&plain(SHAPE)[..size.min(256)])
}

#[test]
fn headers_are_refused(rt: HostRuntime) {
    let rows: [(&[(usize, u8)], Damage); 27] = [
        (&[(0, 0)], Damage::Gate),
        (&[(0, 0x46), (1, 0)], Damage::Gate),
        (&[(1, b'h')], Damage::Magic),
        (&[(8, b'H'), (9, 4)], Damage::Magic),
        (&[(9, 0)], Damage::Version),
        (&[(9, 4), (10, 9)], Damage::Version),
        (&[(9, 2), (10, 9)], Damage::Shape),
        (&[(9, 2), (16, 1)], Damage::Fill),
        (&[(9, 2), (19, 1)], Damage::Fill),
        (&[(9, 3)], Damage::Shape),
        (&[(9, 3), (20, 1)], Damage::Shape),
        (&[(9, 3), (11, 3), (16, 2)], Damage::Shape),
        (&[(9, 3), (16, 1), (19, 0x80)], Damage::Shape),
        (&[(9, 3), (11, 3), (16, 3), (20, 1)], Damage::Fill),
        (&[(9, 3), (16, 1), (255, 1)], Damage::Fill),
        (&[(10, 0)], Damage::Shape),
        (&[(10, 3)], Damage::Shape),
        (&[(10, 9)], Damage::Shape),
        (&[(11, 0)], Damage::Shape),
        (&[(11, 65)], Damage::Shape),
        (&[(12, 0)], Damage::Shape),
        (&[(15, 0x80)], Damage::Shape),
        (&[(10, 9), (16, 1)], Damage::Shape),
        (&[(16, 1)], Damage::Fill),
        (&[(19, 1)], Damage::Fill),
        (&[(100, 1)], Damage::Fill),
        (&[(255, 1)], Damage::Fill),
    ];
    for (changes, why) in rows {
        assert!(rt; read_header(&damaged(changes)) == Err(why));
    }
    assert!(rt; read_header(&damaged(&[(9, 2)])) == Ok(Header::uncut(SHAPE_2)));
    let third = damaged(&[(9, 3), (16, 2), (17, 1)]);
    assert!(rt; read_header(&third) == Ok(Header::uncut(SHAPE_3)));
    for (size, wanted) in [
        (256, Ok(Header::uncut(SHAPE))),
        (255, Err(Damage::Short)),
        (0, Err(Damage::Gate)),
    ] {
        assert!(rt; read_front(size) == wanted);
    }
}

#[test]
fn headers_of_cut_logs_are_refused(rt: HostRuntime) {
    let rows: [(&[(usize, u8)], Damage); 14] = [
        (&[(0, 0)], Damage::Gate),
        (&[(8, b'G')], Damage::Magic),
        (&[(9, 4), (20, 0)], Damage::Version),
        (&[(20, 0)], Damage::Shape),
        (&[(20, 9)], Damage::Shape),
        (&[(21, 1)], Damage::Shape),
        (&[(23, 0x80)], Damage::Shape),
        (&[(11, 3)], Damage::Shape),
        (&[(10, 2), (11, 2)], Damage::Shape),
        (&[(10, 9), (24, 1)], Damage::Shape),
        (&[(16, 1)], Damage::Fill),
        (&[(9, 2), (19, 1)], Damage::Fill),
        (&[(24, 1)], Damage::Fill),
        (&[(255, 1)], Damage::Fill),
    ];
    let page = header_of(CUT);
    for (changes, why) in rows {
        assert!(rt; read_header(&changed(page, changes)) == Err(why));
    }
    assert!(rt; read_header(&page) == Ok(CUT));
    let last = changed(page, &[(10, 2), (20, 8)]);
    assert!(rt; read_header(&last).is_ok());
    let plain = damaged(&[(20, 2)]);
    assert!(rt; read_header(&plain) == Err(Damage::Fill));
}

// Whether a device is unborn that has a header with this gate, this byte behind the header, and so many bytes.
fn is_torn(gate: u8, next: u8, size: usize) -> bool {
    let mut bytes = [0; 300];
    bytes[..256].copy_from_slice(&plain(SHAPE));
    bytes[0] = gate;
    bytes[256] = next;
    is_unborn(&bytes[..size.min(300)])
}

#[test]
fn unborn_devices_are_told(rt: HostRuntime) {
    for (gate, next, size, wanted) in [
        (0x47, 0, 300, false),
        (9, 0, 300, true),
        (9, 0, 257, true),
        (9, 0, 256, false),
        (9, 0x47, 300, false),
    ] {
        assert!(rt; is_torn(gate, next, size) == wanted, "{gate} {next} {size}");
    }
    let rows: [(&[u8], bool); 4] = [
        (&[], true),
        (&[0x47], true),
        (&[0; 20], true),
        (&[0x46; 20], false),
    ];
    for (front, wanted) in rows {
        assert!(rt; is_unborn(front) == wanted);
    }
    for (byte, is_open) in [(0x47, true), (0, false), (0x46, false), (0xff, false)] {
        assert!(rt; read_gate(byte) == is_open);
    }
}
