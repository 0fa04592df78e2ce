//! Laws on moves, and on serial execution.
ghost use Rattle.hy_cut_laws.specs.CutRuns.{MovesAreBlind, SerialFromBase, SerialFromFound};

/// No move asks which entries stand first in the log.
pub fn moves_are_blind()
    ensures { MovesAreBlind }
{}

/// The serial execution may begin past the end of a group, from the live rows there, and the older maps that
/// programs past it read.
pub fn serial_from_base()
    ensures { SerialFromBase }
{}

/// In a run that found the log as far as the base the live rows there are all that it takes.
pub fn serial_from_found()
    ensures { SerialFromFound }
{}
