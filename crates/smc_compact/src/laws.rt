//! Each function is a theorem over the definitions in `specs`, and does nothing.
ghost use Rattle.smc_compact.specs.Drives.{DriveIsOne};
ghost use Rattle.smc_compact.specs.Waits.{WaitTakesTurns};

/// The calls that a drive has made tell how it ended.
pub fn a_drive_ends_in_one_way()
    ensures { DriveIsOne }
{}

/// A waiting is late with the answer that takes its last turn.
pub fn a_waiting_takes_turns()
    ensures { WaitTakesTurns }
{}
