//! What the entries of a log are handed to.
ghost use Rattle.std.specs.Prelude.{◌≡◌, ◌+◌, ℕ, List, [], ◌∷◌, ◌++◌, length, OnOk, ⊤};
ghost use Rattle.hy_base.specs.declared.record.EntryKind.{EntryKind};
ghost use Rattle.hy_base.specs.Entry.{IsSoundEntry};

use hy_base::{Entry, Pos, Shared};
use std::alloc::{AllocError, Global};

/// What the entries of a log are handed to, one after another.
pub trait Receiver {
    /// It may be given the entries of a log of this version.
    ghost fits: { Self → ℕ → Type 0 };

    /// What it has made since an earlier state of these entries past a position.
    ghost took: { Self → Self → ℕ → List EntryKind → Type 0 };

    /// Takes the entry at a position. `AllocError` where memory runs out: then it may be anything.
    fn take(&mut self, pos: Pos, entry: Entry) -> Result<(), AllocError>
        requires { (version : ℕ) × fits self.old version × IsSoundEntry version entry }
        ensures fits { OnOk result ((version : ℕ) → fits self.old version → fits self.new version) }
        ensures taken { OnOk result ((start : Self) (from : ℕ) (entries : List EntryKind)
            → took start self.old from entries → pos ≡ from + length entries + 1
            → took start self.new from (entries ++ entry ∷ [])) };

    /// It has made nothing of no entries.
    ghost took_none: { (receiver : Self) (from : ℕ) → took receiver receiver from [] };
}

/// A list keeps all entries.
impl Receiver for Vec<Entry> {
    ghost use Rattle.std.proofs.Common.{sym, append-nil};

    ghost fits = { λ _ _. ⊤ };

    ghost took = { λ start now from entries. now.items ≡ start.items ++ entries };

    ghost took_none = { λ entries from. sym (append-nil entries.items) };

    fn take(&mut self, _pos: Pos, entry: Entry) -> Result<(), AllocError> {
        if self.push(entry).is_err() {
            return Err(AllocError);
        }
        Ok(())
    }
}

/// Keeps all entries, each to be shared.
#[derive(Drop)]
pub(crate) struct Shares {
    pub(crate) alloc: Global,
    pub(crate) entries: Vec<Shared<Entry>>,
}

impl Receiver for Shares {
    ghost use Rattle.std.proofs.Common.{sym, append-nil};

    ghost fits = { λ _ _. ⊤ };

    ghost took = { λ start now from entries. now.entries.items ≡ start.entries.items ++ entries };

    ghost took_none = { λ shares from. sym (append-nil shares.entries.items) };

    fn take(&mut self, _pos: Pos, entry: Entry) -> Result<(), AllocError> {
        self.entries.reserve(1)?;
        self.entries.push_reserved(Shared::new(self.alloc, entry)?);
        Ok(())
    }
}

/// Keeps no entry.
#[derive(Clone, Copy)]
pub struct KeepsNone;

impl Receiver for KeepsNone {
    ghost fits = { λ _ _. ⊤ };

    ghost took = { λ _ _ _ _. ⊤ };

    ghost took_none = { λ _ _. tt };

    fn take(&mut self, _pos: Pos, _entry: Entry) -> Result<(), AllocError> {
        Ok(())
    }
}
