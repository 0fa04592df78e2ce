//! A source read to its end, and a text written to its last byte.
ghost use Rattle.std.specs.Prelude.{◌≡◌, ◌+◌, ◌<◌, ◌≤◌, length, take, IfOk, IfErr, IfSome, IsErr, OnOk, OnErr};
ghost use Rattle.std.specs.Io.KnownBytes.{Consumes, Appends, IsAtEnd};
ghost use Rattle.hy_base.specs.Faults.{HasCause, Rose};
ghost use Rattle.hy_io.specs.Whole.{GivesAtMost, GivesExactly};

use crate::{Failed, Sink, Source};
use std::alloc::{AllocError, Global};
use thiserror::Error;

/// Why a source wasn't read whole.
#[derive(Clone, Copy, Debug, PartialEq, Eq, Error)]
pub enum ReadAllError {
    /// A read failed. The source's count of faults rose.
    #[error("the source failed")]
    SourceFault,
    /// More bytes came than the limit.
    #[error("the source is too long")]
    TooLong,
    /// No memory was left for the bytes.
    #[error("out of memory")]
    Memory,
}

/// A write failed when the first `gone` bytes had gone out. The sink's count of faults rose.
#[derive(Clone, Copy, Debug, Error)]
#[error("the sink failed after {gone} bytes")]
pub struct SinkFault {
    /// How many bytes of the text the sink took.
    pub gone: usize,
}

/// The most bytes that one read asks for.
const PIECE: usize = 16384;

/// All that the source has left, if that is at most `limit` bytes.
///
/// Each read takes at least one byte or is the last one, and in all they take at most `limit` and one. An error leaves
/// the source behind the bytes that were read: after `TooLong` these are exactly `limit` and one.
pub fn read_all<S: Source>(
    alloc: Global,
    source: &mut S,
    limit: usize,
) -> Result<Vec<u8>, ReadAllError>
    // Exactly the source's bytes, and then it is at its end.
    ensures exact { IfOk result (λ bytes. IfSome (S.left source.old) (λ left. bytes.items ≡ left)) }
    ensures whole { IfOk result (λ bytes. Consumes (S.left source.old) (S.left source.new) bytes.items
        × IsAtEnd (S.left source.new)) }
    ensures short { IfOk result (λ bytes. length bytes.items ≤ limit) }

    // Too long only where the source has more bytes than the limit, and such a source is never answered Ok. One byte more than
    // the limit is gone then.
    ensures long_only { result ≡ Err ReadAllError.TooLong → IfSome (S.left source.old) (λ left. limit < length left) }
    ensures long_always { IfSome (S.left source.old) (λ left. limit < length left → IsErr result) }
    ensures one_more { result ≡ Err ReadAllError.TooLong → GivesExactly (S.left source.old) (S.left source.new) (limit + 1) }

    // What any error leaves, and the cause of a fault.
    ensures front { OnErr result (GivesAtMost (S.left source.old) (S.left source.new) (limit + 1)) }
    ensures fault { result ≡ Err ReadAllError.SourceFault → Rose (S.faults source.old) (S.faults source.new) }
    ensures count { S.faults source.old ≤ S.faults source.new }
{
    let mut bytes = Vec::new(alloc);
    let mut piece = [0; PIECE];
    loop {
        let room = limit - bytes.len();
        let asked = room.min(PIECE - 1) + 1;
        let count = match source.read(&mut piece[..asked]) {
            Ok(count) => count,
            Err(Failed) => return Err(ReadAllError::SourceFault),
        };
        if count == 0 {
            return Ok(bytes);
        }
        if count > room {
            return Err(ReadAllError::TooLong);
        }
        if bytes.extend_from_slice(&piece[..count]).is_err() {
            return Err(ReadAllError::Memory);
        }
    }
}

/// Writes the bytes until all have gone out. The first piece is all of them, and each later one all that is left.
pub fn write_all_counted<K: Sink>(sink: &mut K, bytes: &[u8]) -> Result<(), SinkFault>
    ensures whole { OnOk result (Appends (K.taken sink.old) (K.taken sink.new) bytes.now) }
    ensures gone { IfErr result (λ fault. Appends (K.taken sink.old) (K.taken sink.new) (take fault.gone bytes.now)) }
    ensures within { IfErr result (λ fault. fault.gone < length bytes.now) }
    ensures cause { HasCause (K.faults sink.old) (K.faults sink.new) result }
{
    let mut gone = 0;
    while gone < bytes.len() {
        match sink.write(&bytes[gone..]) {
            Ok(count) => gone += count,
            Err(Failed) => return Err(SinkFault { gone }),
        }
    }
    Ok(())
}
