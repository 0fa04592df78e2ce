//! The serial law of mixed runs. Each law is the contract of a function that does nothing.
ghost use Rattle.hy_serial_laws.specs.SerialLaws.{CommittedRunsSerially, OnlyTouchedKeysCount, SessionsAreOrdered};
ghost use Rattle.hy_serial_laws.specs.AsOfLaws.{AsOfIsRead};

/// A serializable program depends on no keys but those that its intention touches.
pub fn only_touched_keys_count()
    ensures { OnlyTouchedKeysCount }
{}

/// The committed programs of a finished run, serially in the order of the log, those at Snapshot isolation on their
/// snapshots, give the same answers and rows.
pub fn committed_runs_serially()
    ensures { CommittedRunsSerially }
{}

/// The programs of each client are begun in their order, each on a snapshot at or above all that its client has appended in
/// the run, and no server goes back.
pub fn sessions_are_ordered()
    ensures { SessionsAreOrdered }
{}

/// A program that asks for a position reads there, or was not begun since its server kept no such position.
pub fn as_of_is_read()
    ensures { AsOfIsRead }
{}
