//! Changes to buffers of bytes, none of which takes memory.
ghost use Rattle.std.specs.Prelude.{◌≡◌, ◌+◌, ◌-◌, ◌≤◌, length, min, max, replicate, reverse, vec_capacity};
ghost use Rattle.hy_disk.specs.Content.{overwritten};
ghost use Rattle.hy_disk.specs.Stops.{ff_filled};
ghost use Rattle.hy_mem.specs.Undo.{covered_total, restored};

/// Writes over what stands at a place, and past the end.
pub fn overwrite(bytes: &mut Vec<u8>, place: usize, piece: &[u8])
    requires within { place ≤ length bytes.old.items }
    requires place { max (length bytes.old.items) (place + length piece.now) ≤ vec_capacity bytes.old }
    ensures written { bytes.new.items ≡ overwritten bytes.old.items place piece.now }
    ensures capacity { vec_capacity bytes.old ≤ vec_capacity bytes.new }
{
    let inside = piece.len().min(bytes.len() - place);
    if bytes.extend_from_slice(&piece[inside..]).is_err() {
        unreachable!();
    }
    bytes[place..place + inside].copy_from_slice(&piece[..inside]);
}

/// Puts back what writes were over, of which the newest is the last: of each as many bytes as it was over of those
/// that there are here.
pub fn restore(bytes: &mut Vec<u8>, ranges: &[(usize, usize)], covered: &[u8])
    requires { covered_total (length bytes.old.items) (reverse ranges.now) ≡ length covered.now }
    ensures restored { bytes.new.items ≡ restored (length bytes.old.items) bytes.old.items (reverse ranges.now) covered.now }
    ensures len { length bytes.new.items ≡ length bytes.old.items }
    ensures capacity { vec_capacity bytes.new ≡ vec_capacity bytes.old }
{
    let mut end = covered.len();
    for step in 0..ranges.len() {
        let (place, count) = ranges[ranges.len() - 1 - step];
        let start = end - count.min(bytes.len().saturating_sub(place));
        put_back(bytes, place, &covered[start..end]);
        end = start;
    }
}

/// Writes over what stands at a place, within the bytes. Past them there is nothing to write.
fn put_back(bytes: &mut Vec<u8>, place: usize, piece: &[u8])
    requires { length piece.now ≤ length bytes.old.items - place }
    ensures written { bytes.new.items ≡ overwritten bytes.old.items place piece.now }
    ensures len { length bytes.new.items ≡ length bytes.old.items }
    ensures capacity { vec_capacity bytes.new ≡ vec_capacity bytes.old }
{
    if place >= bytes.len() {
        return;
    }
    bytes[place..place + piece.len()].copy_from_slice(piece);
}

/// Fills each range with 0xFF, as far as the bytes go.
pub fn fill_with_ff(bytes: &mut Vec<u8>, ranges: &[(usize, usize)])
    ensures filled { bytes.new.items ≡ ff_filled bytes.old.items ranges.now }
    ensures len { length bytes.new.items ≡ length bytes.old.items }
    ensures capacity { vec_capacity bytes.new ≡ vec_capacity bytes.old }
{
    for (place, count) in ranges {
        fill_range(bytes, *place, *count);
    }
}

/// Fills a range with 0xFF, as far as the bytes go.
fn fill_range(bytes: &mut Vec<u8>, place: usize, count: usize)
    ensures filled { bytes.new.items
        ≡ overwritten bytes.old.items place (replicate (min count (length bytes.old.items - place)) 255) }
    ensures len { length bytes.new.items ≡ length bytes.old.items }
    ensures capacity { vec_capacity bytes.new ≡ vec_capacity bytes.old }
{
    if place >= bytes.len() {
        return;
    }
    let end = place + count.min(bytes.len() - place);
    bytes[place..end].fill(0xFF);
}
