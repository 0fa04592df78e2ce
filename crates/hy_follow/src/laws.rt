//! Laws on streams and on followers. Each is the contract of a function that does nothing else.
ghost use Rattle.hy_follow.specs.FollowLaws.{StreamIsFollowed, FollowerDecides, OneFollower};

use hy_roller::growth_keeps_standing;

/// The stream of a lawful log is whole, and tells the log's shape and its entries.
pub fn a_stream_is_followed()
    ensures { StreamIsFollowed }
{}

/// However a stream is cut into pieces, the follower is the same.
pub fn a_stream_has_one_follower()
    ensures { OneFollower }
{}

/// A follower has the verdicts and the rows that the entries decide whose whole frames came.
pub fn a_follower_decides()
    ensures { FollowerDecides }
{
    growth_keeps_standing();
}
