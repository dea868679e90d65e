//! A round that is given up.
ghost use Rattle.std.specs.Prelude.{◌≡◌, ℕ, ◌+◌, ◌*◌, ◌<◌, ◌≤◌, None, length};
ghost use Rattle.smc_shape.specs.Layout.{slots_of};
ghost use Rattle.smc_core.specs.declared.done.Done.TheVariants as done;
ghost use Rattle.smc_core.specs.declared.phase.Phase.TheVariants as phase;
ghost use Rattle.smc_core.specs.declared.phase.moves.CancelPhase.TheVariants as cancel;
ghost use Rattle.smc_core.specs.Cancel.{next_cancelled};
ghost use Rattle.smc_core.specs.Step.{goes};
ghost use Rattle.smc_region.specs.Callers.{IsSame, answered_by};
ghost use Rattle.smc_trace.specs.Named.{cancels};
ghost use Rattle.smc_trace.specs.Trace.{Tells};
ghost use Rattle.smc_does.specs.Does.{OwnsNone, Stays};
ghost use Rattle.smc_compact.specs.Begins.{owning};
ghost use Rattle.smc_compact.specs.Calls.{IsRoundOf, Keeps};
ghost use Rattle.smc_compact.specs.Counting.{going};

use crate::begun::Round;
use crate::ending::is_incoming;
use smc_core::{Op, State, Word};
use smc_region::{Chosen, Section};
use smc_shape::Place;
use smc_words::Dir;

/// Gives a target up, and unfreezes its object if that is still frozen.
fn cancel_target(s: &mut Section<'_>, coll: u8, slot: u32)
    requires phase { s.old.local.stand.phase ≡ phase.Cancel (cancel.Back coll slot) }
    ensures same { IsSame s.old s.new }
    ensures steps { s.new.local.steps ≤ s.old.local.steps + 4 }
    ensures passed { s.new.local ≡ going s.old.local s.new.local.steps (goes (phase.Cancel (next_cancelled s.old.shape coll slot))) }
{
    let stamp = s.epoch() + 1;
    let give_up = Op::Store {
        place: Place::Directory { coll, slot },
        word: Word::Directory(Dir::Limbo(stamp)),
    };
    let load = Op::Load {
        place: Place::Back { coll, slot },
    };
    let Some(number) = s.take(Chosen::Go, load).back() else {
        s.take(Chosen::Go, give_up);
        return;
    };
    let incarnation = number.incarnation;
    let place = Place::Entry {
        coll: number.coll,
        entry: number.entry,
    };
    match s.take(Chosen::Go, Op::Load { place }).state() {
        State::Frozen {
            incarnation: other,
            slot: source,
        } if other == incarnation => {
            let unfreeze = Op::Exchange {
                place,
                expect: Word::Entry(State::Frozen {
                    incarnation,
                    slot: source,
                }),
                put: Word::Entry(State::Present {
                    incarnation,
                    slot: source,
                }),
            };
            s.take(Chosen::Go, unfreeze);
            s.take(Chosen::Go, give_up);
        }
        _ => {
            s.take(Chosen::Go, give_up);
        }
    }
}

/// Goes on with the cancel at a slot.
fn cancel_slot(s: &mut Section<'_>, coll: u8, slot: u32)
    requires phase { s.old.local.stand.phase ≡ phase.Cancel (cancel.Directory coll slot) }
    ensures same { IsSame s.old s.new }
    ensures steps { s.new.local.steps ≤ s.old.local.steps + 5 }
    ensures passed { s.new.local ≡ going s.old.local s.new.local.steps (goes (phase.Cancel (next_cancelled s.old.shape coll slot))) }
{
    let load = Op::Load {
        place: Place::Directory { coll, slot },
    };
    if is_incoming(s.take(Chosen::Go, load).dir()) {
        cancel_target(s, coll, slot);
    }
}

/// The first slot of a cancel.
fn cancel_first(s: &mut Section<'_>, round: &Round)
    requires idle { s.old.local.stand.phase ≡ phase.Idle }
    requires round { IsRoundOf s.old round.now }
    ensures same { IsSame s.old s.new }
    ensures steps { s.new.local.steps ≤ s.old.local.steps + 5 }
    ensures passed { s.new.local ≡ going s.old.local s.new.local.steps (goes (phase.Cancel (next_cancelled s.old.shape round.now.coll 0))) }
{
    let coll = round.coll;
    let load = Op::Load {
        place: Place::Directory { coll, slot: 0 },
    };
    let _ = s.calm();
    if is_incoming(s.take(Chosen::Cancel, load).dir()) {
        cancel_target(s, coll, 0);
    }
}

/// The same as `cancel`, as an equation on all that the pass knows.
fn cancel_by_steps(r: Round, s: &mut Section<'_>)
    requires idle { s.old.local.stand.phase ≡ phase.Idle }
    requires round { IsRoundOf s.old r }
    ensures same { IsSame s.old s.new }
    ensures few { s.new.local.steps ≤ s.old.local.steps + 1 + 5 * slots_of s.old.shape r.coll }
    ensures cancelled { s.new.local ≡ answered_by (owning s.old.local None) s.new.local.steps done.Cancelled }
{
    let slots = s.region().shape().slots(r.coll);
    cancel_first(s, &r);
    let Round {
        bound: _,
        coll,
        moves: _,
    } = r;
    for slot in 1..slots {
        cancel_slot(s, coll, slot);
    }
    let none = Op::Store {
        place: Place::Round,
        word: Word::Round(None),
    };
    s.take(Chosen::Go, none);
}

/// Gives the round up: none of its objects moves any more.
pub fn cancel(r: Round, s: &mut Section<'_>)
    requires idle { s.old.local.stand.phase ≡ phase.Idle }
    requires round { IsRoundOf s.old r }
    ensures same { IsSame s.old s.new }
    ensures done { Tells s.old.local s.new.local cancels }
    ensures none { OwnsNone s.new }
    ensures stays { Stays s.old s.new }
    ensures scans { s.new.local.stand.scans ≡ s.old.local.stand.scans }
    ensures keeps { Keeps s.old.local s.new.local }
    ensures few { s.new.local.steps ≤ s.old.local.steps + 1 + 5 * slots_of s.old.shape r.coll }
{
    cancel_by_steps(r, s)
}
