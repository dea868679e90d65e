//! Each function is a theorem over the definitions in `specs`, and does nothing.
ghost use Rattle.smc_aside.specs.Aside.{OthersStayAside};

/// Passes that stand aside go on standing aside while no other but this one takes a step other than theirs.
pub fn others_stay_aside()
    ensures { OthersStayAside }
{}
