//! A source and a sink that never fail: their count of faults is the constant 0.
ghost use Rattle.std.specs.Prelude.{◌≡◌, None, Some, IfOk};

use crate::rest::Rest;
use crate::{Failed, Sink, Source};
use std::alloc::{AllocError, Global};

/// Gives its bytes, as many as the buffer holds.
#[derive(Drop)]
pub struct SureSource {
    rest: Rest,
}

impl SureSource {
    ghost use Rattle.hy_io.specs.Memory.{sure_left};

    /// A source of these bytes. Out of memory is the one error.
    pub fn new(alloc: Global, bytes: &[u8]) -> Result<SureSource, AllocError>
        ensures { IfOk result (λ source. sure_left source ≡ bytes.now) }
    {
        Ok(SureSource {
            rest: Rest::new(alloc, bytes)?,
        })
    }
}

impl Source for SureSource {
    ghost use Rattle.hy_io.specs.Memory.{sure_left};

    ghost left = { λ source. Some (sure_left source) };

    ghost faults = { λ _. 0 };

    fn read(&mut self, into: &mut [u8]) -> Result<usize, Failed> {
        Ok(self.rest.give(into, usize::MAX))
    }
}

/// Takes every piece whole, keeps nothing and tells nothing.
#[derive(Clone, Copy, Default)]
pub struct SureSink;

impl SureSink {
    /// The sink.
    pub fn new() -> SureSink {
        SureSink
    }
}

impl Sink for SureSink {
    ghost taken = { λ _. None };

    ghost faults = { λ _. 0 };

    fn write(&mut self, piece: &[u8]) -> Result<usize, Failed> {
        Ok(piece.len())
    }
}
