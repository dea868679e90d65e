//! What the definitions say of packed words, and of where steps lead.
//!
//! Each function is a theorem over the definitions, and does nothing.
ghost use Rattle.std.specs.Prelude.{◌≡◌, ℕ, List};
ghost use Rattle.smc_shape.specs.Layout.{Layout};
ghost use Rattle.smc_shape.specs.declared.place.Place.{Place};
ghost use Rattle.smc_core.specs.declared.word.Word.{Word};
ghost use Rattle.smc_core.specs.declared.call.Choice.{Choice};
ghost use Rattle.smc_core.specs.Machine.{Machine, Steps, Leads, Reach, started};
ghost use Rattle.smc_core.specs.Row.{packed, unpacked, Suits};
ghost use Rattle.smc_core.specs.Told.{told_along};
ghost use Rattle.smc_model.specs.Order.{events_of};
ghost use Rattle.smc_model.specs.declared.event.Event.{Event};
ghost use Rattle.smc_machine.specs.Plays.{Plays};

/// A word that suits its place is read back as it was packed.
pub fn words_come_back()
    ensures { (place : Place) (word : Word) → Suits place word → unpacked place (packed word) ≡ word }
{}

/// A machine that has just been opened is where steps reach, and so is one that was stepped from there.
pub fn steps_stay_in_reach()
    ensures opened { (shape : Layout) (start : List ℕ)
        → Reach shape start (started shape start).row (started shape start).locals }
    ensures stepped { (shape : Layout) (start : List ℕ) (m next : Machine) (pass : ℕ) (choice : Choice)
        → Reach shape start m.row m.locals → Steps shape m pass choice next
        → Reach shape start next.row next.locals }
{}

/// A schedule that was played leads to where it was played to, and what it told are the events of its steps, in order.
pub fn plays_lead()
    ensures { (shape : Layout) (first last : Machine) (steps : List (ℕ × Choice)) (events : List Event)
        → Plays shape first steps events last
        → (leads : Leads shape first steps last) × (events_of (told_along shape first steps last leads) ≡ events) }
{}
