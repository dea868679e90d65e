//! What the definitions say: of steps that are computed, and of worked schedules.
//!
//! Each function is a theorem over `specs/Machine.antt`, and does nothing. A clause of a worked schedule has its name
//! in `specs/Schedules.antt` and the number of a pass, and says what that pass answers, or which line is refused.
ghost use Rattle.std.specs.Prelude.{◌≡◌, ◌↔◌, ℕ, [], ◌∷◌, Some, None};
ghost use Rattle.smc_words.specs.declared.dir.Dir.TheVariants.{Free, Claimed, Incoming, Limbo};
ghost use Rattle.smc_shape.specs.declared.place.Place.TheVariants.{Directory};
ghost use Rattle.smc_model.specs.declared.event.Cause.TheVariants.{Slots, Entries};
ghost use Rattle.smc_core.specs.declared.done.Done.TheVariants.{At, Out, Advanced, NotYet, Overtaken, Spent, Made, Full, Here, Null, Value, Written, First, Begun, Visit, End, Round, Nothing, Busy, Finished, Early, Cancelled, Noted, Learned, Surveyed};
ghost use Rattle.smc_core.specs.declared.kind.Kind.TheVariants.{LoadDirectory};
ghost use Rattle.smc_core.specs.declared.op.Op.TheVariants.{Load};
ghost use Rattle.smc_shape.specs.Layout.{Layout};
ghost use Rattle.smc_core.specs.declared.call.Choice.{Choice};
ghost use Rattle.smc_core.specs.Machine.{Machine, Steps, Reach};
ghost use Rattle.smc_core.specs.Step.{step};
ghost use Rattle.smc_core.specs.Played.{Schedule, step_of, shape_of, opening_row, played, refused_line, answers, last_done, dirs, offers_next, object};
ghost use Rattle.smc_core.specs.Schedules.{announces_twice, advance_waits, overtaken, last_epoch, notes, learnt_twice, learns_its_own, used_again, not_yet_ripe, spent_entry, all_spent, two_adds, two_claims, entry_from_the_front, live_last, all_taken, not_held, held_before, no_such_entry, visited_once, later_add, scan_of_before, nothing, no_target_left, busy, early_by_one, abandoned, helped, late_helper, removed_meanwhile, source_waits};

/// The step that is computed is the one that the pass takes, and so there is at most one for each choice.
pub fn steps_are_computed()
    ensures { (shape : Layout) (m : Machine) (pass : ℕ) (choice : Choice) (next : Machine)
        → (step_of shape m pass choice ≡ Some next) ↔ Steps shape m pass choice next }
{}

/// A schedule that can be played leads to a row and local states that steps reach.
pub fn schedules_are_reached()
    ensures { (s : Schedule) (m : Machine) → played s ≡ Some m
        → Reach (shape_of s) (opening_row s) m.row m.locals }
{}

/// Sections, epochs and notes: an epoch is announced twice, an advance waits or is overtaken, and a note is learnt once.
pub fn worked_sections()
    ensures announces_twice_0 { answers 0 announces_twice ≡ At 4 ∷ [] }
    ensures announces_twice_1 { answers 1 announces_twice ≡ Advanced 3 ∷ Advanced 4 ∷ [] }
    ensures advance_waits_0 { answers 0 advance_waits ≡ At 5 ∷ [] }
    ensures advance_waits_1 { answers 1 advance_waits ≡ Advanced 6 ∷ NotYet 0 5 ∷ [] }
    ensures overtaken_0 { answers 0 overtaken ≡ Overtaken 3 ∷ [] }
    ensures overtaken_1 { answers 1 overtaken ≡ Advanced 3 ∷ [] }
    ensures last_epoch_0 { answers 0 last_epoch ≡ Spent ∷ [] }
    ensures notes_0 { answers 0 notes ≡ At 2 ∷ Out ∷ Noted 0 ∷ [] }
    ensures notes_1 { answers 1 notes ≡ Learned ∷ [] }
    ensures learnt_twice_refused { refused_line learnt_twice ≡ Some 3 }
    ensures learns_its_own_refused { refused_line learns_its_own ≡ Some 2 }
{}

/// Objects: when slots and entries are used again, what fills a collection, and when an object is there and may be read.
pub fn worked_objects()
    ensures used_again_0 { answers 0 used_again ≡
        At 2 ∷ Made 0 ∷ Here 0 ∷ First ∷ Out ∷ Advanced 3 ∷ Advanced 4 ∷ Advanced 5 ∷ At 5 ∷ Made 0 ∷
        Null ∷ Here 0 ∷ Value 8 ∷ [] }
    ensures not_yet_ripe_0 { answers 0 not_yet_ripe ≡
        At 2 ∷ Made 0 ∷ Here 0 ∷ First ∷ Out ∷ Advanced 3 ∷ Advanced 4 ∷ At 4 ∷ Made 1 ∷ [] }
    ensures spent_entry_0 { answers 0 spent_entry ≡
        At 2 ∷ Made 0 ∷ Here 0 ∷ First ∷ Out ∷ Advanced 3 ∷ Advanced 4 ∷ Advanced 5 ∷ At 5 ∷ Made 0 ∷
        Null ∷ Here 0 ∷ [] }
    ensures all_spent_0 { answers 0 all_spent ≡ At 2 ∷ Full Entries ∷ [] }
    ensures two_adds_0 { answers 0 two_adds ≡ At 2 ∷ Made 0 ∷ [] }
    ensures two_adds_1 { answers 1 two_adds ≡ At 2 ∷ Made 1 ∷ [] }
    ensures entry_from_the_front_1 { answers 1 entry_from_the_front ≡ At 2 ∷ Made 1 ∷ Here 1 ∷ [] }
    ensures two_claims_slots { dirs (0 ∷ 1 ∷ []) two_claims ≡ Claimed ∷ Free ∷ [] }
    ensures two_claims_next { offers_next 1 two_claims ≡ Some (step LoadDirectory (Load (Directory 0 1))) }
    ensures live_last_0 { answers 0 live_last ≡ At 2 ∷ Made 0 ∷ [] }
    ensures live_last_1 { answers 1 live_last ≡ At 2 ∷ Null ∷ Null ∷ Null ∷ Here 0 ∷ Value 7 ∷ [] }
    ensures all_taken_last { last_done (answers 0 all_taken) ≡ Some (Full Slots) }
    ensures not_held_refused { refused_line not_held ≡ Some 3 }
    ensures held_before_refused { refused_line held_before ≡ Some 6 }
    ensures no_such_entry_0 { answers 0 no_such_entry ≡ At 2 ∷ Null ∷ [] }
{}

/// Scans: each object once, those included that move or are added ahead of the scan.
pub fn worked_scans()
    ensures visited_once_0 { answers 0 visited_once ≡
        At 5 ∷ Made 0 ∷ Made 64 ∷ Round 0 6 1 ∷ Out ∷ Advanced 6 ∷ Advanced 7 ∷ Advanced 8 ∷ At 8 ∷
        Finished 1 0 0 ∷ [] }
    ensures visited_once_1 { answers 1 visited_once ≡
        At 8 ∷ Begun ∷ Visit (object 1 0) 0 ∷ Visit (object 1 64) 1 ∷ End ∷ End ∷ [] }
    ensures later_add_0 { answers 0 later_add ≡
        At 2 ∷ Made 0 ∷ Begun ∷ Visit (object 1 0) 0 ∷ Visit (object 1 5) 5 ∷ End ∷ [] }
    ensures later_add_1 { answers 1 later_add ≡ At 2 ∷ Here 0 ∷ First ∷ Made 5 ∷ [] }
    ensures scan_of_before_refused { refused_line scan_of_before ≡ Some 5 }
{}

/// Rounds: where none is begun, where one is in progress already, and where it is too early to finish it.
pub fn worked_rounds()
    ensures nothing_0 { answers 0 nothing ≡ At 2 ∷ Made 64 ∷ Nothing 0 ∷ Surveyed 0 1 1 ∷ [] }
    ensures no_target_left_last { last_done (answers 0 no_target_left) ≡ Some (Round 0 3 0) }
    ensures busy_0 { answers 0 busy ≡ At 5 ∷ Made 0 ∷ Made 64 ∷ Round 0 6 1 ∷ Early 5 6 ∷ Cancelled ∷ [] }
    ensures busy_1 { answers 1 busy ≡ At 5 ∷ Busy 6 0 0 ∷ Round 0 6 1 ∷ [] }
    ensures busy_slots { dirs (1 ∷ 2 ∷ []) busy ≡ Limbo 6 ∷ Incoming ∷ [] }
    ensures early_by_one_0 { answers 0 early_by_one ≡
        At 5 ∷ Made 0 ∷ Made 64 ∷ Round 0 6 1 ∷ Out ∷ Advanced 6 ∷ Advanced 7 ∷ At 7 ∷ Early 7 6 ∷ [] }
{}

/// Moves: one that a reader abandons, ones that readers help, and one whose object was removed meanwhile.
pub fn worked_moves()
    ensures abandoned_0 { answers 0 abandoned ≡
        At 5 ∷ Made 0 ∷ Made 64 ∷ Round 0 6 1 ∷ Out ∷ Advanced 6 ∷ Advanced 7 ∷ Advanced 8 ∷ At 8 ∷
        Finished 0 1 0 ∷ [] }
    ensures abandoned_1 { answers 1 abandoned ≡ At 7 ∷ Here 64 ∷ Written ∷ Value 33 ∷ [] }
    ensures helped_0 { answers 0 helped ≡
        At 5 ∷ Made 0 ∷ Made 64 ∷ Round 0 6 1 ∷ Out ∷ Advanced 6 ∷ Advanced 7 ∷ Advanced 8 ∷ At 8 ∷
        Finished 1 0 0 ∷ [] }
    ensures helped_1 { answers 1 helped ≡ At 8 ∷ Here 1 ∷ Written ∷ Value 21 ∷ Value 99 ∷ [] }
    ensures late_helper_0 { answers 0 late_helper ≡
        At 5 ∷ Made 0 ∷ Made 64 ∷ Round 0 6 1 ∷ Out ∷ Advanced 6 ∷ Advanced 7 ∷ Advanced 8 ∷ At 8 ∷
        Finished 1 0 0 ∷ [] }
    ensures late_helper_1 { answers 1 late_helper ≡ At 8 ∷ Here 1 ∷ Value 99 ∷ [] }
    ensures late_helper_2 { answers 2 late_helper ≡ At 8 ∷ Here 1 ∷ Written ∷ [] }
    ensures removed_meanwhile_0 { answers 0 removed_meanwhile ≡
        At 5 ∷ Made 0 ∷ Made 64 ∷ Round 0 6 1 ∷ Out ∷ Advanced 6 ∷ Advanced 7 ∷ Advanced 8 ∷ At 8 ∷
        Finished 0 0 1 ∷ [] }
    ensures removed_meanwhile_1 { answers 1 removed_meanwhile ≡ At 5 ∷ Here 64 ∷ First ∷ Out ∷ [] }
    ensures source_waits_0 { answers 0 source_waits ≡
        At 5 ∷ Made 0 ∷ Made 64 ∷ Round 0 6 1 ∷ Out ∷ Advanced 6 ∷ Advanced 7 ∷ Advanced 8 ∷ At 8 ∷
        Finished 1 0 0 ∷ Made 65 ∷ [] }
{}
