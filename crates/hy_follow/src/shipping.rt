//! Writing the stream of a log.
ghost use Rattle.std.specs.Prelude.{◌≡◌, ◌++◌, IfOk, OnOk, flat_map};
ghost use Rattle.std.specs.List.{AllByRecursion};
ghost use Rattle.hy_base.specs.Entry.{FitsVersion, IsSoundEntry};
ghost use Rattle.hy_formats.specs.EntryFormat.{spelling};
ghost use Rattle.hy_formats.specs.StreamFormat.{frame, stream_bytes, stream_head};

use crate::heading::MAGIC;
use hy_base::{Entry, Shape};
use hy_codec::{encode, push_u32};
use std::alloc::{AllocError, Global};

/// Adds what the stream of a log of this shape begins with. Where memory runs out, a part of it may have been added.
pub fn push_head(out: &mut Vec<u8>, shape: Shape) -> Result<(), AllocError>
    ensures { OnOk result (out.new.items ≡ out.old.items ++ stream_head shape) }
{
    out.extend_from_slice(&MAGIC)?;
    out.extend_from_slice(&[shape.version, shape.group, shape.window])?;
    push_u32(out, shape.cap)?;
    push_u32(out, shape.horizon_told())
}

/// Adds the frame of an entry to the stream of a log of this version. Where memory runs out, a part of it may have been added.
pub fn push_frame(
    alloc: Global,
    out: &mut Vec<u8>,
    entry: &Entry,
    version: u8,
) -> Result<(), AllocError>
    requires { FitsVersion version entry.now }
    ensures { OnOk result (out.new.items ≡ out.old.items ++ frame (spelling version entry.now)) }
{
    let body = encode(alloc, entry, version)?;
    push_u32(out, body.len() as u32)?;
    out.extend_from_slice(&body)
}

/// The stream of a log that has this shape and these entries. `AllocError`: out of memory.
pub fn write_stream(alloc: Global, shape: Shape, entries: &[Entry]) -> Result<Vec<u8>, AllocError>
    requires { AllByRecursion (IsSoundEntry shape.version) entries.now }
    ensures { IfOk result (λ stream. stream.items ≡ stream_bytes shape entries.now) }
{
    let mut out = Vec::new(alloc);
    push_head(&mut out, shape)?;
    for count in 0..entries.len() {
        push_frame(alloc, &mut out, &entries[count], shape.version)?;
    }
    Ok(out)
}
