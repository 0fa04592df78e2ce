//! A stream in pieces: what a follower tells goes by the bytes alone.
use hy_base::Verdict;
use hy_follow::*;
use hy_formats::{BadFrame, Damage};
use hy_pipe::{OpenGate, Runtime};
use hy_roller::Told;
use std::alloc::Global;
use std::thread::Threads;

// The stream of a log of one put.
const STREAM: [u8; 45] =
    *b"HYDERSTR\x01\x01\x01\x08\0\0\0\0\0\0\0\x16\0\0\0\x01\x01\x01\0\0\0\0\0\0\x01\x01\0\0\0\0\0\0\0\x01\x01\0a";

// Whether a follower of a whole stream of one put tells it.
fn tells_one(follower: &Follower) -> bool {
    follower.finish().is_ok()
        && follower.at() == 1
        && follower.len() == 1
        && follower.verdict(1) == Told::Known(Some(Verdict::Commit))
}

// Where a stream that comes in two pieces is refused, if it is; whether it tells one put, else.
fn follow_in_two<R: Threads + Sync>(
    rt: &R,
    alloc: Global,
    stream: &[u8],
    at: usize,
) -> Result<bool, FeedError> {
    let mut follower = Follower::new(alloc);
    let first = &stream[..at.min(stream.len())];
    let second = &stream[first.len()..];
    let runtime = Runtime::new(rt, alloc, 2, &OpenGate);
    follower.feed(&runtime, first)?;
    follower.feed(&runtime, second)?;
    if let Err(bad) = follower.finish() {
        return Err(FeedError::BadFrame(bad));
    }
    Ok(tells_one(&follower))
}

fn is_refused(answer: Result<bool, FeedError>, wanted: BadFrame) -> bool {
    match answer {
        Err(FeedError::BadFrame(bad)) => bad == wanted,
        Err(FeedError::Memory) | Ok(_) => false,
    }
}

fn is_told(answer: Result<bool, FeedError>) -> bool {
    match answer {
        Ok(told) => told,
        Err(_) => false,
    }
}

// Whether the stream of one put, the same with a kind that is none, and its first 44 bytes are answered as they should be.
fn answers_well<R: Threads + Sync>(rt: &R, alloc: Global, at: usize) -> bool {
    let mut changed = STREAM;
    changed[23] = 2;
    let kind = BadFrame {
        place: 23,
        why: Damage::Kind,
    };
    let short = BadFrame {
        place: 19,
        why: Damage::Short,
    };
    is_told(follow_in_two(rt, alloc, &STREAM, at))
        && is_refused(follow_in_two(rt, alloc, &changed, at), kind)
        && is_refused(follow_in_two(rt, alloc, &STREAM[..44], at), short)
}

#[test]
fn a_stream_comes_in_two_pieces(rt: HostRuntime) {
    for at in 0..46 {
        assert!(rt; answers_well(&rt, rt.alloc(), at));
    }
}
