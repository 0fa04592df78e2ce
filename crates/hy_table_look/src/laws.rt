//! What the looks tell. The law is the contract of a function that does nothing.
ghost use Rattle.hy_table_look.specs.Looks.{OpeningLooksTell};

/// Of a roller that stands for the whole groups of a log that was found, the looks tell the fault that the definitions give.
pub fn opening_looks_tell()
    ensures { OpeningLooksTell }
{}
