//! What is read ahead of a device.
ghost use Rattle.std.specs.Prelude.{◌≡◌, ◌+◌, ◌-◌, ◌≤◌, ℕ, List, length, min, IsTrue, IsErr, IsOk, IfOk, OnOk};
ghost use Rattle.hy_base.specs.Faults.{HasCause};
ghost use Rattle.hy_disk.specs.Content.{read_into};
ghost use Rattle.hy_disk.specs.Moments.{Elapses};
ghost use Rattle.hy_readahead.specs.Pieces.{Covers, IsPiece};

use hy_disk::{Disk, Failed};

/// Where the bytes stand that were read, and how many they are.
#[derive(Clone, Copy, Drop)]
pub(crate) struct Held {
    pub(crate) place: u64,
    pub(crate) count: usize,
}

/// Room for the bytes of one read, and what it holds of the device. Where the read gave fewer than there is room for, the
/// device ended there.
#[derive(Drop)]
pub(crate) struct Piece {
    pub(crate) bytes: Vec<u8>,
    pub(crate) held: Option<Held>,
}

// Whether what is held reaches over so many bytes from a place on, or over the device's end.
fn covers(piece: &Piece, place: u64, len: usize) -> bool
    requires { len ≤ length piece.now.bytes.items }
    ensures { IsTrue result → Covers place len piece.now }
{
    match piece.held {
        None => false,
        Some(held) => held.place <= place && place - held.place <= (piece.bytes.len() - len) as u64,
    }
}

/// Reads a piece of the device from a place on, where what is held doesn't reach over so many bytes from there.
pub(crate) fn bring<D: Disk>(
    disk: &mut D,
    piece: &mut Piece,
    place: u64,
    len: usize,
) -> Result<(), Failed>
    requires fits { len ≤ length piece.old.bytes.items }
    requires right { IsPiece D.tells (D.content disk.old).seen piece.old }
    ensures right { IsPiece D.tells (D.content disk.old).seen piece.new }
    ensures covers { OnOk result (Covers place len piece.new) }
    ensures same { D.content disk.new ≡ D.content disk.old }
    ensures time { Elapses (D.moment disk.old) (D.moment disk.new) (D.left_since disk.old) (D.left_since disk.new)
        (D.content disk.new) }
    ensures cause { HasCause (D.faults_of disk.old) (D.faults_of disk.new) result }
    ensures room { (k b : ℕ) → D.has_room disk.old k b → IsOk result × D.has_room disk.new k b }
{
    if covers(piece, place, len) {
        return Ok(());
    }
    piece.held = None;
    let count = disk.read(place, &mut piece.bytes)?;
    piece.held = Some(Held { place, count });
    Ok(())
}

/// Puts what is held from a place on in front of a buffer, and answers how many bytes they are.
pub(crate) fn give(piece: &Piece, place: u64, into: &mut [u8]) -> usize
    requires covers { Covers place (length into.old) piece.now }
    ensures count { result ≤ length into.old }
    ensures bytes { (tells : _) (seen : List ℕ) → IsPiece tells seen piece.now → IsTrue tells
        → (result ≡ min (length into.old) (length seen - place)) × (into.new ≡ read_into seen place into.old) }
{
    let Some(held) = piece.held else {
        unreachable!();
    };
    let from = (place - held.place) as usize;
    let count = into.len().min(held.count.saturating_sub(from));
    into[..count].copy_from_slice(&piece.bytes[from..from + count]);
    count
}
