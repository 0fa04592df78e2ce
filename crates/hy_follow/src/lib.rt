//! The stream of a log, and its follower.
//!
//! It promises to the crates above: a [`Follower`] is fed the bytes of a stream, cut into pieces anyhow, and then has what the
//! log's rules decide of the entries whose whole frames came, up to the last whole group; the first header or frame that is
//! refused is answered once its bytes are there, and from then on. [`write_stream`] writes the stream of a log. What a stream
//! is, is defined in `hy_formats`.
#![tactic(auto)]

mod follower;
mod framing;
mod heading;
mod intake;
mod laws;
mod shipping;

pub use follower::{FeedError, Follower};
pub use laws::{a_follower_decides, a_stream_has_one_follower, a_stream_is_followed};
pub use shipping::{push_frame, push_head, write_stream};
