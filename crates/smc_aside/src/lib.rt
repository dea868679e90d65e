//! One pass at work while all others stand aside.
//!
//! `specs/Aside.antt` says what it is to stand aside: outside sections, without a round, in no call but an advance or a
//! note; and that a pass is alone: it stands idle, and the others stand aside. `specs/Makes.antt` says what it is that a
//! pass makes a call, from its first step to its last, meanwhile. `laws` has what follows of the steps alone.
//!
//! In `proofs`, for any rule of states that each step keeps: `Runs` carries what each step of a call keeps to the call's
//! answer, over `Scenes` (the states behind the steps) and `Stillness` (what steps of the others leave as it was);
//! `Moments` puts calls one after the other; `Waiting` and `Sections` say what advances, enters and leaves keep.
//! `WholeCalls` says that a pass which plays whole calls makes them; worked schedules rest on it.
//!
//! It stands on the machine and the rules; the crates above say what a pass can rely on meanwhile: that an add finds each
//! slot that is free, that a round packs the objects.
#![tactic(auto)]

pub mod laws;
