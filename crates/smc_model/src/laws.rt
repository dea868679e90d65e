//! What the definitions imply: first of every history, then of short ones that keep the rules or break them.
//!
//! Each function is a theorem over `specs/World.antt`, `specs/Scans.antt` or `specs/Order.antt`, and does nothing. The
//! short histories stand in `specs/Examples.antt`.
ghost use Rattle.std.specs.Prelude.{◌≡◌, ℕ, List, [], ◌∷◌, ◌++◌, Bool, true, slice_get, Some};
ghost use Rattle.smc_words.specs.declared.number.Number.{Number};
ghost use Rattle.smc_model.specs.declared.event.Event.{Event};
ghost use Rattle.smc_model.specs.declared.event.Event.TheVariants.{Add, Look, Read, Write, Remove, Enter, Leave, Told};
ghost use Rattle.smc_model.specs.World.{World, empty_world, world_after, Replay, LacksWrite};
ghost use Rattle.smc_model.specs.Scans.{ScansOnce};
ghost use Rattle.smc_model.specs.Order.{OneOrder, Lawful};
ghost use Rattle.smc_model.specs.Examples.{number_one, adds, begins, visits, ends, removes, finds, misses, told_logs, ring_logs};

/// No two events of a history add one number.
pub fn numbers_are_given_once()
    ensures { (first last : World) (earlier between later : List Event) (number : Number) (c d : ℕ) (words other : List ℕ)
        → ¬ (Replay first (earlier ++ Add number c words ∷ between ++ Add number d other ∷ later) last) }
{}

/// Once an object is removed, no look finds it and no other removal is the first.
pub fn removals_are_for_good()
    ensures looks { (first last : World) (earlier between later : List Event) (number : Number) (removal : Bool)
        → ¬ (Replay first (earlier ++ Remove number removal ∷ between ++ Look number true ∷ later) last) }
    ensures once { (first last : World) (earlier between later : List Event) (number : Number) (removal : Bool)
        → ¬ (Replay first (earlier ++ Remove number removal ∷ between ++ Remove number true ∷ later) last) }
{}

/// A read gives the word of the latest write before it, or else that of the record that was added.
pub fn reads_see_the_latest_write()
    ensures written { (first last : World) (earlier between later : List Event) (number : Number) (field value read : ℕ)
        → LacksWrite between number field
        → Replay first (earlier ++ Write number field value ∷ between ++ Read number field read ∷ later) last → read ≡ value }
    ensures added { (first last : World) (earlier between later : List Event) (number : Number) (coll : ℕ) (words : List ℕ)
        (field read : ℕ) → LacksWrite between number field
        → Replay first (earlier ++ Add number coll words ∷ between ++ Read number field read ∷ later) last
        → slice_get words field ≡ Some read }
{}

/// A scan that visits the one object keeps the rule, and so does one that misses it since it was removed meanwhile.
pub fn scans_that_visit_once()
    ensures visited { ScansOnce empty_world (adds ∷ begins ∷ visits ∷ ends ∷ []) }
    ensures removed { ScansOnce empty_world (adds ∷ begins ∷ removes ∷ ends ∷ []) }
{}

/// A scan may not end before it has visited what was present throughout, nor visit it twice, nor once it is removed.
pub fn scans_that_do_not()
    ensures missed { ¬ (ScansOnce empty_world (adds ∷ begins ∷ ends ∷ [])) }
    ensures twice { ¬ (ScansOnce empty_world (adds ∷ begins ∷ visits ∷ visits ∷ [])) }
    ensures removed { ¬ (ScansOnce empty_world (adds ∷ begins ∷ removes ∷ visits ∷ [])) }
{}

/// What a pass is told stands behind the event that it is told of. No order serves two passes that each were told of
/// what the other did later.
pub fn told_events()
    ensures after { OneOrder told_logs ((0, Enter) ∷ (1, Told 0 1) ∷ (0, Leave) ∷ []) }
    ensures before { ¬ (OneOrder told_logs ((1, Told 0 1) ∷ (0, Enter) ∷ (0, Leave) ∷ [])) }
    ensures ring { (order : List (ℕ × Event)) → ¬ (OneOrder ring_logs order) }
{}

/// A pass may miss an object and then find it, when another pass added it in between. It may not find it and then
/// miss it, since nobody removed it.
pub fn looks_at_an_added_object()
    ensures lawful { Lawful empty_world ((adds ∷ []) ∷ (misses ∷ finds ∷ []) ∷ []) (world_after empty_world adds) }
    ensures unlawful { (last : World) → ¬ (Lawful empty_world ((adds ∷ []) ∷ (finds ∷ misses ∷ []) ∷ []) last) }
{}
