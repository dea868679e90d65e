//! What ranges each step keeps.
//!
//! Each function is a theorem over `specs/Fits.antt` and `specs/FitsWord.antt`, and does nothing.
ghost use Rattle.std.specs.Prelude.{◌≡◌, ℕ, ◌<◌, ◌^◌, Some};
ghost use Rattle.smc_shape.specs.Layout.{Layout, IsShape};
ghost use Rattle.smc_shape.specs.declared.place.Place.{Place};
ghost use Rattle.smc_core.specs.declared.call.Choice.{Choice};
ghost use Rattle.smc_core.specs.declared.local.Stand.{Stand};
ghost use Rattle.smc_core.specs.declared.op.Offer.{Offer};
ghost use Rattle.smc_core.specs.declared.word.Word.{Word};
ghost use Rattle.smc_core.specs.Change.{change};
ghost use Rattle.smc_core.specs.Local.{fresh, stand_after};
ghost use Rattle.smc_core.specs.Offer.{offer};
ghost use Rattle.smc_core.specs.Row.{packed, unpacked};
ghost use Rattle.smc_automaton.specs.Fits.{FitsStand};
ghost use Rattle.smc_automaton.specs.FitsWord.{FitsWord, FitsAt, FitsOp, FitsSeen};

/// A pass that has done nothing yet keeps its ranges.
pub fn fresh_stands_fit()
    ensures { (shape : Layout) → FitsStand shape (fresh shape).stand }
{}

/// A step that is offered, and is shown a word that fits its place, leaves the pass in its ranges.
pub fn steps_keep_stands()
    ensures { (shape : Layout) (pass : ℕ) (stand : Stand) (choice : Choice) (told : ℕ) (offered : Offer) (seen : Word)
        → IsShape shape → FitsStand shape stand
        → offer shape pass stand stand.section stand.phase choice ≡ Some offered → FitsSeen offered.op seen
        → FitsStand shape (stand_after shape pass stand choice seen
        (change shape pass stand stand.section stand.phase choice told seen)) }
{}

/// What an offered step stores, puts or expects fits its place.
pub fn steps_keep_words()
    ensures { (shape : Layout) (pass : ℕ) (stand : Stand) (choice : Choice) (offered : Offer)
        → IsShape shape → pass < shape.passes → FitsStand shape stand
        → offer shape pass stand stand.section stand.phase choice ≡ Some offered → FitsOp offered.op }
{}

/// A number of 64 bits that fits its place says a word that does, and the other way round.
pub fn numbers_fit()
    ensures unpacked { (there : Place) (number : ℕ) → number < 2 ^ 64 → FitsAt there number
        → FitsWord there (unpacked there number) }
    ensures packed { (there : Place) (word : Word) → FitsWord there word → FitsAt there (packed word) }
{}
