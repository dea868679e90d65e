//! Each function is a theorem over the definitions in `specs`, and does nothing.
ghost use Rattle.smc_inv_scan.specs.Laws.{EventsFitMarks, MarksAreKept, MarksBegin, ScansAreKept, ScansBegin, TargetsArePassed};

/// A region begins without scans.
pub fn scans_begin()
    ensures { ScansBegin }
{}

/// Every step keeps what the scans agree on, in a state that keeps the rest.
pub fn scans_are_kept()
    ensures { ScansAreKept }
{}

/// A scan that has passed the target of a frozen object is not past the bound of the round.
pub fn targets_are_passed()
    ensures { TargetsArePassed }
{}

/// A region begins without marks.
pub fn marks_begin()
    ensures { MarksBegin }
{}

/// Every step keeps what marks say of scans, where they are told its event.
pub fn marks_are_kept()
    ensures { MarksAreKept }
{}

/// A visit is the first one of an object that is present, and a scan that ends has visited what was present all the time.
pub fn events_fit_marks()
    ensures { EventsFitMarks }
{}
