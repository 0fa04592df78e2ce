//! The bytes of a source in memory that are left.
ghost use Rattle.std.specs.Prelude.{◌≡◌, ◌≤◌, ◌++◌, IfOk, length, take, min};

use std::alloc::{AllocError, Global};
use std::marker::Model;

/// The bytes from place `at` on.
#[derive(Drop)]
pub struct Rest {
    bytes: Vec<u8>,
    at: usize,
}

impl Model for Rest {
    ghost use Rattle.std.specs.Prelude.{ℕ, ◌≤◌, List, drop, length};

    ghost Value = { List ℕ };

    ghost view = { λ r. drop r.at r.bytes.items };

    ghost invariant = { λ r. r.at ≤ length r.bytes.items };
}

impl Rest {
    pub fn new(alloc: Global, bytes: &[u8]) -> Result<Rest, AllocError>
        ensures { IfOk result (λ rest. rest ≡ bytes.now) }
    {
        Ok(Rest {
            bytes: bytes.to_vec(alloc)?,
            at: 0,
        })
    }

    /// Moves the next bytes to the front of the buffer, as many as it holds, at most `most`.
    pub fn give(&mut self, into: &mut [u8], most: usize) -> usize
        ensures count { result ≡ min (length into.old) (min most (length self.old)) }
        ensures bytes { self.old ≡ take result into.new ++ self.new }
    {
        let left = self.bytes.len() - self.at;
        let count = into.len().min(most.min(left));
        into[..count].copy_from_slice(&self.bytes[self.at..self.at + count]);
        self.at += count;
        count
    }
}
