//! The ends of the program: where its bytes come from and where they go.
//!
//! A source or a sink counts its faults, the count never falls, and a call answers `Failed` only where the count rose
//! in it. What a source has left and what a sink took is told by those in memory, and not by the standard streams.
//! `read_all` gives exactly the bytes of a source up to a limit, and `write_all_counted` writes exactly the bytes, or
//! says how many went out. Both are proved for every source and every sink.
#![tactic(auto)]

ghost use Rattle.std.specs.Prelude.{◌<◌, ℕ, List, length, Option, IfOk};
ghost use Rattle.std.specs.Io.{ReadsAtMost, WritesAtMost};
ghost use Rattle.std.specs.Io.KnownBytes.{ReadConsumes, WriteAppends};
ghost use Rattle.hy_base.specs.Faults.{HasCause};

mod calls;
mod memory;
mod rest;
mod std_streams;
mod sure;
mod whole;

use hy_base::Failed;
pub use memory::{MemSink, MemSource};
pub use std_streams::{StdSink, StdSource};
pub use sure::{SureSink, SureSource};
pub use whole::{ReadAllError, SinkFault, read_all, write_all_counted};

/// Where bytes come from.
pub trait Source {
    /// The bytes that are left, where the source tells them. A source that tells them goes on telling them.
    ghost left: { Self → Option (List ℕ) };

    /// The count of faults, a `u64`.
    ghost faults: { Self → ℕ };

    /// Fills a front of the buffer with the next bytes and answers how many. It is 0 for a buffer that isn't empty
    /// only where the source is at its end.
    ///
    /// `Failed`: the source gave nothing, and its count of faults rose.
    fn read(&mut self, into: &mut [u8]) -> Result<usize, Failed>
        ensures bound { ReadsAtMost result into.new }
        ensures bytes { ReadConsumes (left self.old) (left self.new) result into.new }
        ensures cause { HasCause (faults self.old) (faults self.new) result };
}

/// Where bytes go.
pub trait Sink {
    /// The bytes that it took, where the sink tells them. A sink that tells them goes on telling them.
    ghost taken: { Self → Option (List ℕ) };

    /// The count of faults, a `u64`.
    ghost faults: { Self → ℕ };

    /// Takes a front of the piece and answers how many bytes. It is at least 1 for a piece that isn't empty.
    ///
    /// `Failed`: the sink took nothing, and its count of faults rose.
    fn write(&mut self, piece: &[u8]) -> Result<usize, Failed>
        ensures bound { WritesAtMost result piece.now }
        ensures some { IfOk result (λ count. 0 < length piece.now → 0 < count) }
        ensures bytes { WriteAppends (taken self.old) (taken self.new) result piece.now }
        ensures cause { HasCause (faults self.old) (faults self.new) result };
}
