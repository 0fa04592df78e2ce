//! Groups that are validated one after another by the rows alone. Each law is the contract of a function that does nothing.
ghost use Rattle.hy_roll_laws.specs.RollingLaws.{LastWritersAreEnough, AdvanceIsPre, RaisedKnow, EmptyGroup, JoinedGroup};
ghost use Rattle.hy_roll_laws.specs.RollingLaws.{SkippedGroup, JoinIsMate, GroupMarksAreOwn, StagedAreStandings, FinishIsFate};
ghost use Rattle.hy_roll_laws.specs.RollingLaws.{FinishIsRows, NewRollerStands, RollExtends, AnyCutRollsTheSame, StandingIsOne};
ghost use Rattle.hy_roll_laws.specs.RollingLaws.{StandingIsLater, RollKeepsLater, TreeFollows, CommitsMoveOn, CommitsGiveRows};

/// The last writer of each key is enough to find the first clash.
pub fn last_writers_are_enough()
    ensures { LastWritersAreEnough }
{}

/// The rows at the base clash with an intention's marks exactly where it conflicts with a commit past its snapshot and up to
/// the base, also without the tombstones at or below a line that its snapshot isn't before.
pub fn advance_is_pre()
    ensures { AdvanceIsPre }
{}

/// Raised marks know each key up to the base at least.
pub fn raised_know()
    ensures { RaisedKnow }
{}

/// No members have no marks.
pub fn empty_group()
    ensures { EmptyGroup }
{}

/// A member that joins adds its marks, and of each key the lesser dependency is kept.
pub fn joined_group()
    ensures { JoinedGroup }
{}

/// Fillers and dropped members add no marks.
pub fn skipped_group()
    ensures { SkippedGroup }
{}

/// What the joined members write clashes with an intention's marks exactly where it touches it.
pub fn join_is_mate()
    ensures { JoinIsMate }
{}

/// No dependency of a group's marks is before its base, and they write at positions of the group.
pub fn group_marks_are_own()
    ensures { GroupMarksAreOwn }
{}

/// Staging on the rows at the base finds the members that the history has, also without the tombstones at or below a line
/// that isn't above the oldest snapshot that they may have.
pub fn staged_are_standings()
    ensures { StagedAreStandings }
{}

/// By the rows before a group and the group's marks, its members have the fate that the history gives them.
pub fn finish_is_fate()
    ensures { FinishIsFate }
{}

/// The rows after a group are those of the history with what the group commits.
pub fn finish_is_rows()
    ensures { FinishIsRows }
{}

/// A new roller stands for no entries.
pub fn new_roller_stands()
    ensures { NewRollerStands }
{}

/// A roller that is rolled over the groups that follow stands for the longer log.
pub fn roll_extends()
    ensures { RollExtends }
{}

/// However the groups are cut into rolls, the roller is the same.
pub fn any_cut_rolls_the_same()
    ensures { AnyCutRollsTheSame }
{}

/// Rollers that stand for the same entries are one.
pub fn standing_is_one()
    ensures { StandingIsOne }
{}

/// The rows of a roller that stands grew out of its base rows, and out of those that it keeps.
pub fn standing_is_later()
    ensures { StandingIsLater }
{}

/// Whatever a roller stands for, its rows stay later than its base rows and those that it keeps.
pub fn roll_keeps_later()
    ensures { RollKeepsLater }
{}

/// What a group's end gives stands for the next rows, whatever tombstones at or below the line came back.
pub fn tree_follows()
    ensures { TreeFollows }
{}

/// The commits past the next base, as one more group is judged.
pub fn commits_move_on()
    ensures { CommitsMoveOn }
{}

/// The rows at an earlier group's end, with what committed since then, are the rows.
pub fn commits_give_rows()
    ensures { CommitsGiveRows }
{}
