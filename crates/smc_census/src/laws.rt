//! Each function is a theorem over the definitions in `specs`, and does nothing.
ghost use Rattle.smc_census.specs.Laws.{BlocksAreEnough, HomesAreObjects, PackedIsEnough, WalksCountAll};
ghost use Rattle.smc_rules.specs.History.{HoldsAlways};

/// As many slots of a collection have a present object as objects of it are present in the plain world.
pub fn homes_are_objects()
    ensures { HoldsAlways HomesAreObjects }
{}

/// The objects that are present lie in their blocks: at least one in each, and no more than it has slots.
pub fn blocks_are_enough()
    ensures { HoldsAlways BlocksAreEnough }
{}

/// Objects that all lie in the first blocks, as many blocks as they need, occupy just as many.
pub fn packed_is_enough()
    ensures { PackedIsEnough }
{}

/// A counting walk, of a begin or a survey, through a memory that stays as it is: after three steps for each slot it has
/// counted the present objects, and the blocks that hold one, where no slot of the collection is a target.
pub fn walks_count_all()
    ensures { HoldsAlways WalksCountAll }
{}
