//! The device.
ghost use Rattle.std.specs.Prelude.{◌≡◌};

use crate::piece::{Piece, bring, give};
use hy_disk::{Disk, Failed};
use std::alloc::Global;
use std::marker::Model;

// How many bytes are read at once.
const PIECE: usize = 65536;

/// A device of which small reads in order are served from larger ones.
#[derive(Drop)]
pub struct ReadAhead<D: Disk> {
    disk: D,
    piece: Piece,
}

impl<D: Disk> Model for ReadAhead<D> {
    ghost use Rattle.hy_readahead.specs.Pieces.{IsPiece};

    ghost Value = { D };

    ghost view = { λ a. a.disk };

    ghost invariant = { λ a. IsPiece D.tells (D.content a.disk).seen a.piece };
}

impl<D: Disk> ReadAhead<D> {
    /// The device, of which nothing is read yet. Where there is no memory for a piece, each read is one of the device.
    pub fn new(alloc: Global, disk: D) -> ReadAhead<D>
        ensures { result ≡ disk }
    {
        let bytes = match vec![in alloc; 0; PIECE] {
            Ok(bytes) => bytes,
            Err(_) => Vec::new(alloc),
        };
        ReadAhead {
            disk,
            piece: Piece { bytes, held: None },
        }
    }
}

impl<D: Disk> Disk for ReadAhead<D> {
    ghost tells = { D.tells };

    ghost content = { λ disk. D.content disk };

    ghost moment = { λ disk. D.moment disk };

    ghost left_since = { λ disk. D.left_since disk };

    ghost faults_of = { λ disk. D.faults_of disk };

    ghost has_room = { λ disk. D.has_room disk };

    ghost armed_at = { λ _ _. ⊥ };

    ghost seen_may_stay = { λ disk told. D.seen_may_stay disk told };

    ghost counts_now = { λ disk t image told le now. D.counts_now disk t image told le now };

    ghost only_now = { λ disk image left. D.only_now disk image left };

    ghost room_shrinks = { λ disk j k a b room fewer less. D.room_shrinks disk j k a b room fewer less };

    fn len(&mut self) -> Result<u64, Failed> {
        self.disk.len()
    }

    fn read(&mut self, place: u64, into: &mut [u8]) -> Result<usize, Failed> {
        if self.piece.bytes.len() < into.len() {
            return self.disk.read(place, into);
        }
        bring(&mut self.disk, &mut self.piece, place, into.len())?;
        Ok(give(&self.piece, place, into))
    }

    fn write_at(&mut self, place: u64, bytes: &[u8]) -> Result<(), Failed> {
        self.piece.held = None;
        self.disk.write_at(place, bytes)
    }

    fn sync(&mut self) -> Result<(), Failed> {
        self.disk.sync()
    }

    fn faults(&self) -> u64 {
        self.disk.faults()
    }
}
