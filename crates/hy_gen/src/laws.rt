//! The laws of a load. Each is the contract of a function that does nothing.
ghost use Rattle.hy_gen.specs.LoadLaws.{ScheduleIsEnabled, ScheduleLeads};

/// No event of a load's schedule is disabled in its turn.
pub fn schedule_is_enabled()
    ensures { ScheduleIsEnabled }
{}

/// The schedule leads to a log of at most four entries for a program, in which the counted keys hold numbers.
pub fn schedule_leads()
    ensures { ScheduleLeads }
{}
