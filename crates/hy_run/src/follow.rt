//! `follow`: what became of the entries that the stream of a log tells.
ghost use Rattle.std.specs.Prelude.{◌≡◌, ◌⊎◌, ◌≤◌, ℕ, List, length, None, Some, IfOk, IfErr, IfSome};
ghost use Rattle.std.specs.Io.KnownBytes.{IsAtEnd};
ghost use Rattle.hy_follow.specs.Following.{HasFollowed};
ghost use Rattle.hy_formats.specs.StreamFormat.{came, end_fault};
ghost use Rattle.hy_formats.specs.declared.damage.BadFrame.{BadFrame};
ghost use Rattle.hy_io.specs.Whole.{GivesAtMost};
ghost use Rattle.hy_rules.specs.Recovery.{verdicts_text};
ghost use Rattle.hy_run.specs.Output.{LeavesSource};
ghost use Rattle.hy_run.specs.Streams.{IsFollowed};
ghost use Rattle.hy_run.specs.StreamParts.{IsStreamFault, IsUnread, refusal_of};

use crate::call::LONGEST;
use crate::live::live_of;
use crate::status::Status;
use hy_follow::{FeedError, Follower, a_follower_decides};
use hy_formats::{BadFrame, Damage};
use hy_io::{ReadAllError, Source, read_all};
use hy_pipe::{Gate, Runtime};
use hy_text::write_check;
use std::alloc::{AllocError, Global};
use std::thread::Threads;

impl From<BadFrame> for Status {
    ghost use Rattle.hy_run.specs.StreamParts.{refusal_of};

    ghost from_gives = { λ bad status. status ≡ refusal_of bad };

    fn from(bad: BadFrame) -> Self {
        Self::Frame {
            place: bad.place,
            why: bad.why,
        }
    }
}

impl From<FeedError> for Status {
    ghost use Rattle.hy_run.specs.StreamParts.{refusal_or_memory};

    ghost from_gives = { λ error status. status ≡ refusal_or_memory error };

    fn from(error: FeedError) -> Self {
        match error {
            FeedError::Memory => Status::Memory,
            FeedError::BadFrame(bad) => Status::from(bad),
        }
    }
}

// All that a source has left, as a stream.
#[tactic(auto, using(crate::proofs::Sources::gives_all))]
fn read_stream<S: Source>(alloc: Global, source: &mut S) -> Result<Vec<u8>, Status>
    ensures exact { IfOk result (λ bytes. IfSome (S.left source.old) (λ left. bytes.items ≡ left)) }
    ensures short { IfOk result (λ bytes. length bytes.items ≤ 16777216) }
    ensures end { IfOk result (λ _. IsAtEnd (S.left source.new)) }
    ensures refused { IfErr result (IsUnread (S.left source.old) (S.faults source.old) (S.faults source.new)) }
    ensures left { IfErr result (λ status. LeavesSource status (S.left source.old) (S.left source.new)) }
    ensures front { GivesAtMost (S.left source.old) (S.left source.new) 16777217 }
    ensures count { S.faults source.old ≤ S.faults source.new }
{
    match read_all(alloc, source, LONGEST) {
        Ok(bytes) => Ok(bytes),
        Err(ReadAllError::TooLong) => Err(Status::Frame {
            place: LONGEST as u64,
            why: Damage::Long,
        }),
        Err(ReadAllError::SourceFault) => Err(Status::Source),
        Err(ReadAllError::Memory) => Err(Status::Memory),
    }
}

// What a follower tells of the entries that came.
fn told_text(alloc: Global, follower: &Follower) -> Result<Vec<u8>, AllocError>
    ensures { IfOk result (λ text. (bytes : List ℕ) → HasFollowed bytes follower.now
        → text.items ≡ verdicts_text (came bytes).shape (came bytes).entries) }
{
    a_follower_decides();
    let verdicts = follower.verdicts(alloc)?;
    let live = live_of(alloc, follower.tree())?;
    write_check(
        alloc,
        follower.shape(),
        follower.len() as usize,
        verdicts.as_slice(),
        live.as_slice(),
    )
}

// What these bytes tell as a stream.
fn follow_bytes<R: Threads + Sync, G: Gate + Sync>(
    runtime: &Runtime<R, G>,
    bytes: &[u8],
) -> Result<Vec<u8>, Status>
    ensures text { IfOk result (λ text. (end_fault (came bytes.now) ≡ None)
        × (text.items ≡ verdicts_text (came bytes.now).shape (came bytes.now).entries)) }
    ensures refused { IfErr result (λ status. (status ≡ Status.Memory)
        ⊎ ((bad : BadFrame) × (end_fault (came bytes.now) ≡ Some bad) × (status ≡ refusal_of bad))) }
{
    let mut follower = Follower::new(runtime.alloc);
    follower.feed(runtime, bytes)?;
    follower.finish()?;
    Ok(told_text(runtime.alloc, &follower)?)
}

/// What became of the entries of the stream that a source has left, and the rows that they leave; or why that isn't told.
#[tactic(auto, using(crate::proofs::Streaming::unread_fault, crate::proofs::Streaming::stream_fault, crate::proofs::Streaming::followed, crate::proofs::Streaming::left_whole))]
pub fn follow<R: Threads + Sync, S: Source, G: Gate + Sync>(
    runtime: &Runtime<R, G>,
    source: &mut S,
) -> Result<Vec<u8>, Status>
    ensures text { IfOk result (λ text. IsFollowed (S.left source.old) text.items) }
    ensures end { IfOk result (λ _. IsAtEnd (S.left source.new)) }
    ensures refused { IfErr result (IsStreamFault (S.left source.old) (S.faults source.old) (S.faults source.new)) }
    ensures left { IfErr result (λ status. LeavesSource status (S.left source.old) (S.left source.new)) }
    ensures front { GivesAtMost (S.left source.old) (S.left source.new) 16777217 }
    ensures count { S.faults source.old ≤ S.faults source.new }
{
    let bytes = read_stream(runtime.alloc, source)?;
    follow_bytes(runtime, &bytes)
}
