//! Spans as blocks. A block has as many keys as a power of two, and begins at a multiple of that.
ghost use Rattle.std.specs.Prelude.{◌≡◌, ◌+◌, ◌-◌, ◌%◌, ◌^◌, ◌<◌, ◌≤◌, IfOk};
ghost use Rattle.hy_base.specs.declared.record.Span.{Span};
ghost use Rattle.hy_mark.specs.Blocks.{IsCover};

use hy_base::{Span, Spans};
use std::alloc::{AllocError, Global};

/// Blocks with just the keys of the span, in order: at most 128, and none that share a key. A span whose first key is
/// behind its last has no keys, and so no blocks.
pub fn cover(alloc: Global, span: Span) -> Result<Spans, AllocError>
    ensures { IfOk result (IsCover span) }
{
    let mut blocks = Spans::new(alloc);
    let mut next = u128::from(span.lo);
    let end = u128::from(span.hi) + 1;
    while next < end {
        let bits = widest(next, end);
        blocks.push(block(next, bits))?;
        next += 1 << bits;
    }
    Ok(blocks)
}

// The block that begins here and has `2^bits` keys.
fn block(first: u128, bits: u32) -> Span
    requires small { bits ≤ 64 }
    requires fits { first + 2 ^ bits ≤ 2 ^ 64 }
    ensures { result ≡ record { lo = first; hi = first + 2 ^ bits - 1 } }
{
    Span {
        lo: first as u64,
        hi: (first + (1 << bits) - 1) as u64,
    }
}

// How many bits the widest block has that begins here and ends before `end`.
fn widest(first: u128, end: u128) -> u32
    requires some { first < end }
    requires fits { end ≤ 2 ^ 64 }
    ensures aligned { first % 2 ^ result ≡ 0 }
    ensures within { first + 2 ^ result ≤ end }
    ensures small { result ≤ 64 }
    ensures widest { first % 2 ^ (result + 1) ≡ 0 → end < first + 2 ^ (result + 1) }
{
    first.trailing_zeros().min((end - first).ilog2())
}
