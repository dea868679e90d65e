ghost use Rattle.std.specs.Prelude.{◌≡◌, ℕ, ◌<◌, ◌↔◌, List, None};
ghost use Rattle.smc_shape.specs.Faults.{fault_of};
ghost use Rattle.smc_shape.specs.Layout.{Layout, IsShape, asked, slots_of, entries_of};
ghost use Rattle.smc_shape.specs.Places.{LieApart, LieWithin, FillRow, IsOnlyAt};
ghost use Rattle.smc_shape.specs.declared.coll.CollShape.{CollShape};
ghost use Rattle.smc_shape.specs.declared.place.Place.{Place};
ghost use Rattle.smc_shape.specs.declared.place.TheConstants.{EPOCH_AT, ROUND_AT};
ghost use Rattle.smc_shape.specs.declared.shape.TheConstants.{MAX_WORDS};

/// No two places of a region have one index.
pub fn places_lie_apart()
    ensures { (shape : Layout) → IsShape shape → LieApart shape }
{}

/// Each place of a region has a word of its row.
pub fn places_lie_within()
    ensures { (shape : Layout) → IsShape shape → LieWithin shape }
{}

/// Each word of a row is that of a place.
pub fn places_fill_the_row()
    ensures { (shape : Layout) → IsShape shape → FillRow shape }
{}

/// The first two words are those of the epoch and of the round, and of no other place.
pub fn first_words()
    ensures epoch { (shape : Layout) → IsShape shape → IsOnlyAt shape Place.Epoch EPOCH_AT }
    ensures round { (shape : Layout) → IsShape shape → IsOnlyAt shape Place.Round ROUND_AT }
{}

/// No collection has as many slots or entries as a region may have words.
pub fn collections_are_small()
    ensures slots { (shape : Layout) (c : ℕ) → IsShape shape → slots_of shape c < MAX_WORDS }
    ensures entries { (shape : Layout) (c : ℕ) → IsShape shape → entries_of shape c < MAX_WORDS }
{}

/// A shape has no fault exactly where it keeps what every shape keeps.
pub fn faults_are_exact()
    ensures { (passes : ℕ) (colls : List CollShape) → (fault_of passes colls ≡ None) ↔ IsShape (asked passes colls) }
{}
