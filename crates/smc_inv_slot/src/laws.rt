//! Each function is a theorem over the definitions in `specs`, and does nothing.
ghost use Rattle.smc_inv_slot.specs.Laws.{ClaimsAreKept, ObjectsAreKept, RecordsAreKept};

/// What is claimed or removed belongs to one call, after every step.
pub fn claims_are_kept()
    ensures { ClaimsAreKept }
{}

/// Objects stand where their entries say, and what is held keeps its place, after every step.
pub fn objects_are_kept()
    ensures { ObjectsAreKept }
{}

/// The fields of slots are records of the plain world, after every step.
pub fn records_are_kept()
    ensures { RecordsAreKept }
{}
