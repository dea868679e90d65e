//! What the definitions say of each other. Each function is a theorem over `specs`, and does nothing.
ghost use Rattle.std.specs.Prelude.{ℕ, List};
ghost use Rattle.smc_core.specs.Machine.{IsOpening, IsOpened};
ghost use Rattle.smc_model.specs.World.{empty_world};
ghost use Rattle.smc_rules.specs.Start.{IsStart};
ghost use Rattle.smc_core.specs.declared.local.Opening.{Opening};
ghost use Rattle.smc_rules.specs.EpochRule.{EpochRule};
ghost use Rattle.smc_rules.specs.Mirror.{ReadsBack, KeepsMirror};
ghost use Rattle.smc_rules.specs.RelocationRule.{RelocationRule};
ghost use Rattle.smc_rules.specs.SlotRule.{SlotRule};
ghost use Rattle.smc_rules.specs.State.{first_state};
ghost use Rattle.smc_shape.specs.Layout.{Layout};

/// A word that suits its place is read back from its number.
pub fn words_are_read_back()
    ensures { ReadsBack }
{}

/// An operation that fits does to the row what it does to the memory that the row mirrors, and shows the same word.
pub fn operations_are_mirrored()
    ensures { KeepsMirror }
{}

/// A region without objects may start, in the empty world.
pub fn new_regions_start()
    ensures { (shape : Layout) (opening : Opening) (row : List ℕ) → IsOpening opening → IsOpened shape opening row
        → IsStart shape opening empty_world row }
{}

/// A region without objects begins with all three rules.
pub fn regions_begin_with_the_rules()
    ensures epochs { (shape : Layout) (opening : Opening) → IsOpening opening
        → EpochRule shape (first_state shape opening) }
    ensures slots { (shape : Layout) (opening : Opening) → IsOpening opening
        → SlotRule shape opening (first_state shape opening) }
    ensures moves { (shape : Layout) (opening : Opening) → IsOpening opening
        → RelocationRule shape (first_state shape opening) }
{}
