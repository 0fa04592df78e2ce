//! What is told of a log's entries, written as they are read: none of them is kept.
ghost use Rattle.std.specs.Prelude.{◌≡◌, ◌+◌, ◌++◌, flat_map, ⊤};
ghost use Rattle.std.specs.List.{enumerate_from};
ghost use Rattle.hy_formats.specs.EntryFormat.{spelling};
ghost use Rattle.hy_formats.specs.StreamFormat.{frame};
ghost use Rattle.hy_formats.specs.Texts.{entry_text};

use hy_base::{Entry, Pos};
use hy_entries::Receiver;
use hy_follow::push_frame;
use hy_text::put_entry;
use std::alloc::{AllocError, Global};

/// The dump of a log of this version, so far.
#[derive(Drop)]
pub struct DumpText {
    pub text: Vec<u8>,
    pub version: u8,
}

impl Receiver for DumpText {
    ghost use Rattle.std.proofs.Common.{refl, sym, append-nil};

    ghost fits = { λ _ _. ⊤ };

    ghost took = { λ start now from entries. (now.version ≡ start.version)
        × (now.text.items ≡ start.text.items ++ flat_map (entry_text start.version) (enumerate_from (from + 1) entries)) };

    ghost took_none = { λ dump from. (refl, sym (append-nil dump.text.items)) };

    fn take(&mut self, pos: Pos, entry: Entry) -> Result<(), AllocError> {
        put_entry(&mut self.text, self.version, pos as u64, &entry)
    }
}

/// The stream of a log of this version, so far.
#[derive(Drop)]
pub struct StreamBytes {
    pub alloc: Global,
    pub bytes: Vec<u8>,
    pub version: u8,
}

impl Receiver for StreamBytes {
    ghost use Rattle.std.proofs.Common.{refl, sym, append-nil};

    ghost fits = { λ stream version. stream.version ≡ version };

    ghost took = { λ start now from entries. (now.version ≡ start.version)
        × (now.bytes.items ≡ start.bytes.items ++ flat_map (λ e. frame (spelling start.version e)) entries) };

    ghost took_none = { λ stream from. (refl, sym (append-nil stream.bytes.items)) };

    fn take(&mut self, _pos: Pos, entry: Entry) -> Result<(), AllocError> {
        push_frame(self.alloc, &mut self.bytes, &entry, self.version)
    }
}
