//! Rounds: objects that stand too high in their collection are to be moved to its front.
ghost use Rattle.std.specs.Prelude.{◌≡◌, ℕ, ◌+◌, ◌*◌, ◌-◌, ◌^◌, ◌<◌, ◌≤◌, true, false, Some, None, IfSome, IfNone, length};
ghost use Rattle.smc_shape.specs.Layout.{slots_of, width_of};
ghost use Rattle.smc_core.specs.declared.done.Done.TheVariants as done;
ghost use Rattle.smc_core.specs.declared.phase.Phase.TheVariants as phase;
ghost use Rattle.smc_core.specs.declared.phase.moves.BeginPhase.TheVariants as begin;
ghost use Rattle.smc_core.specs.declared.phase.moves.CountPhase.TheVariants as counting;
ghost use Rattle.smc_core.specs.Begin.{begin_counted, blank_field, ends_round, is_source, next_source, past_target, to_target, with_move};
ghost use Rattle.smc_core.specs.Count.{blocks_for, no_count};
ghost use Rattle.smc_core.specs.Section.{epoch_of};
ghost use Rattle.smc_core.specs.Step.{goes};
ghost use Rattle.smc_region.specs.Callers.{IsSame};
ghost use Rattle.smc_trace.specs.Named.{rounds};
ghost use Rattle.smc_trace.specs.Trace.{Tells};
ghost use Rattle.smc_does.specs.Does.{Stays};
ghost use Rattle.smc_compact.specs.Calls.{HasBound, IsBusyFor, Keeps, OwnsBy, begun_done};
ghost use Rattle.smc_compact.specs.Counting.{IsFew, going};
ghost use Rattle.smc_compact.specs.Shown.{Counts, CountsFor};
ghost use Rattle.smc_compact.specs.Begins.{Begins, IsAlong, target_steps, targets_by, walked};

use crate::begun::{Begun, Round};
use crate::counting::{count_slot, no_count};
use smc_core::{Count, Op, State, Walk, Word};
use smc_region::{Chosen, Section, is_ripe_slot};
use smc_shape::{BLOCK_SLOTS, Place};
use smc_words::{BLANK, Dir, Number, RoundWord};

fn is_source(number: Number, slot: u32, seen: State) -> bool
    ensures { result ≡ is_source number slot seen }
{
    match seen {
        State::Present {
            incarnation,
            slot: there,
        } => incarnation == number.incarnation && there == slot,
        State::Free { .. }
        | State::Claimed { .. }
        | State::Frozen { .. }
        | State::Locked { .. }
        | State::Removed { .. } => false,
    }
}

/// The object in the slot of the walk, if that is to be moved; else the walk has gone on.
fn source(s: &mut Section<'_>, walk: Walk) -> Option<Number>
    requires phase { s.old.local.stand.phase ≡ phase.Begin (begin.SourceDirectory walk) }
    ensures same { IsSame s.old s.new }
    ensures steps { s.new.local.steps ≤ s.old.local.steps + 3 }
    ensures found { IfSome result (λ number. s.new.local ≡ going s.old.local s.new.local.steps (to_target (epoch_of s.old.local.stand.section) walk number)) }
    ensures passed { IfNone result (s.new.local ≡ going s.old.local s.new.local.steps (next_source s.old.shape (epoch_of s.old.local.stand.section) walk)) }
{
    let (coll, slot) = (walk.coll, walk.source);
    let load = Op::Load {
        place: Place::Directory { coll, slot },
    };
    let Dir::Valid = s.take(Chosen::Go, load).dir() else {
        return None;
    };
    let load = Op::Load {
        place: Place::Back { coll, slot },
    };
    let Some(number) = s.take(Chosen::Go, load).back() else {
        return None;
    };
    let load = Op::Load {
        place: Place::Entry {
            coll: number.coll,
            entry: number.entry,
        },
    };
    if is_source(number, slot, s.take(Chosen::Go, load).state()) {
        Some(number)
    } else {
        None
    }
}

/// Claims the target of the walk, if the section may use it. Answers whether it did.
fn claim_target(s: &mut Section<'_>, walk: Walk, number: Number) -> bool
    requires phase { s.old.local.stand.phase ≡ phase.Begin (begin.TargetDirectory walk number) }
    ensures same { IsSame s.old s.new }
    ensures steps { s.new.local.steps ≤ s.old.local.steps + 2 }
    ensures claimed { result ≡ true → s.new.local ≡ going s.old.local s.new.local.steps (goes (phase.Begin (blank_field s.old.shape walk number 0))) }
    ensures passed { result ≡ false → s.new.local ≡ going s.old.local s.new.local.steps (to_target (epoch_of s.old.local.stand.section) (past_target walk) number) }
{
    let place = Place::Directory {
        coll: walk.coll,
        slot: walk.target,
    };
    let epoch = s.epoch();
    let seen = s.take(Chosen::Go, Op::Load { place }).dir();
    if !is_ripe_slot(epoch, seen) {
        return false;
    }
    let expect = Word::Directory(seen);
    let claim = Op::Exchange {
        place,
        expect,
        put: Word::Directory(Dir::Claimed),
    };
    s.take(Chosen::Go, claim).same(expect)
}

/// Makes the claimed target ready, and freezes the object. Answers whether the object was still where it was.
fn freeze(s: &mut Section<'_>, walk: Walk, number: Number) -> bool
    requires phase { s.old.local.stand.phase ≡ phase.Begin (blank_field s.old.shape walk number 0) }
    requires coll { walk.coll < length s.old.shape.colls }
    ensures same { IsSame s.old s.new }
    ensures steps { s.new.local.steps ≤ s.old.local.steps + width_of s.old.shape walk.coll + 5 }
    ensures frozen { result ≡ true → s.new.local ≡ going s.old.local s.new.local.steps (next_source s.old.shape (epoch_of s.old.local.stand.section) (with_move (past_target walk))) }
    ensures given_up { result ≡ false → s.new.local ≡ going s.old.local s.new.local.steps (next_source s.old.shape (epoch_of s.old.local.stand.section) (past_target walk)) }
{
    let (coll, slot) = (walk.coll, walk.target);
    let width = s.region().shape().width(coll);
    for field in 0..width {
        let blank = Op::Store {
            place: Place::Field { coll, slot, field },
            word: Word::Plain(BLANK),
        };
        s.take(Chosen::Go, blank);
    }
    let own = Op::Store {
        place: Place::Back { coll, slot },
        word: Word::Back(Some(number)),
    };
    s.take(Chosen::Go, own);
    let forward = Op::Store {
        place: Place::Forward {
            coll,
            slot: walk.source,
        },
        word: Word::Forward(slot),
    };
    s.take(Chosen::Go, forward);
    let incoming = Op::Store {
        place: Place::Directory { coll, slot },
        word: Word::Directory(Dir::Incoming),
    };
    s.take(Chosen::Go, incoming);
    let incarnation = number.incarnation;
    let expect = Word::Entry(State::Present {
        incarnation,
        slot: walk.source,
    });
    let freeze = Op::Exchange {
        place: Place::Entry {
            coll: number.coll,
            entry: number.entry,
        },
        expect,
        put: Word::Entry(State::Frozen {
            incarnation,
            slot: walk.source,
        }),
    };
    if s.take(Chosen::Go, freeze).same(expect) {
        return true;
    }
    let stamp = s.epoch() + 1;
    let give_up = Op::Store {
        place: Place::Directory { coll, slot },
        word: Word::Directory(Dir::Limbo(stamp)),
    };
    s.take(Chosen::Go, give_up);
    false
}

/// Moves the object in the slot of the walk to the next target that can be claimed, if it is to be moved. Answers how the
/// walk goes on, or nothing where no target is left, with which the call has ended.
fn move_source(s: &mut Section<'_>, walk: Walk) -> Option<Walk>
    requires phase { s.old.local.stand.phase ≡ phase.Begin (begin.SourceDirectory walk) }
    requires coll { walk.coll < length s.old.shape.colls }
    requires along { IsAlong walk walk }
    ensures same { IsSame s.old s.new }
    ensures along { IfSome result (IsAlong walk) }
    ensures steps { s.new.local.steps + walk.target * target_steps s.old.shape walk.coll
        ≤ s.old.local.steps + 3 + targets_by walk result * target_steps s.old.shape walk.coll }
    ensures walked { s.new.local ≡ going s.old.local s.new.local.steps (walked s.old.shape (epoch_of s.old.local.stand.section) walk result) }
{
    let Some(number) = source(s, walk) else {
        return Some(walk);
    };
    for target in walk.target..walk.kept {
        let here = Walk { target, ..walk };
        if claim_target(s, here, number) {
            let moves = if freeze(s, here, number) {
                walk.moves + 1
            } else {
                walk.moves
            };
            return Some(Walk {
                target: target + 1,
                moves,
                ..walk
            });
        }
    }
    None
}

fn blocks_for(objects: u32) -> u32
    requires { objects < 2 ^ 31 }
    ensures { result ≡ blocks_for objects }
{
    (objects + BLOCK_SLOTS - 1) / BLOCK_SLOTS
}

/// Counts the objects and the blocks, for a begin.
fn count(s: &mut Section<'_>, c: u8, slots: u32) -> Count
    requires phase { s.old.local.stand.phase ≡ phase.Begin (begin.Count (counting.Directory c 0 no_count)) }
    requires slots { slots ≡ slots_of s.old.shape c }
    requires some { 0 < slots }
    ensures same { IsSame s.old s.new }
    ensures steps { s.new.local.steps ≤ s.old.local.steps + 3 * slots }
    ensures few { IsFew slots result }
    ensures passed { s.new.local ≡ going s.old.local s.new.local.steps (begin_counted s.old.shape (epoch_of s.old.local.stand.section) c result) }
    ensures counted { Counts s.old.shape s.old.number s.old.local.steps s.new.local.steps c result.objects result.blocks }
{
    let mut count = no_count();
    for slot in 0..slots {
        count = count_slot::<true>(s, c, slot, count);
    }
    count
}

/// The same as `begin`, as an equation on all that the pass knows.
fn begin_by_steps(s: &mut Section<'_>, c: u8) -> Begun
    requires idle { s.old.local.stand.phase ≡ phase.Idle }
    requires coll { c < length s.old.shape.colls }
    ensures same { IsSame s.old s.new }
    ensures few { s.new.local.steps ≤ s.old.local.steps + 2 + slots_of s.old.shape c * (width_of s.old.shape c + 13) }
    ensures begun { Begins result (epoch_of s.old.local.stand.section) c s.old.local s.new.local }
    ensures busy { IsBusyFor s.old s.new.local result }
    ensures counted { CountsFor s.old s.new c result }
{
    let bound = s.epoch() + 1;
    let slots = s.region().shape().slots(c);
    let own = RoundWord {
        bound,
        pass: s.pass(),
        coll: c,
    };
    let claim = Op::Exchange {
        place: Place::Round,
        expect: Word::Round(None),
        put: Word::Round(Some(own)),
    };
    let _ = s.calm();
    if let Some(seen) = s.take(Chosen::Begin { coll: c }, claim).round() {
        return Begun::Busy { seen };
    }
    let count = count(s, c, slots);
    let needed = blocks_for(count.objects);
    if count.blocks <= needed {
        let none = Op::Store {
            place: Place::Round,
            word: Word::Round(None),
        };
        s.take(Chosen::Go, none);
        return Begun::Nothing;
    }
    let kept = needed * BLOCK_SLOTS;
    let mut walk = Walk {
        coll: c,
        source: kept,
        target: 0,
        kept,
        moves: 0,
    };
    for source in kept..slots {
        match move_source(s, Walk { source, ..walk }) {
            Some(next) => walk = next,
            None => break,
        }
    }
    Begun::Round(Round {
        bound,
        coll: c,
        moves: walk.moves,
    })
}

/// Begins a round of the collection, where it would free a block: counts the objects, and has those move that stand behind
/// the blocks which so many need. The round's bound is the epoch behind that of the section.
pub fn begin(s: &mut Section<'_>, c: u8) -> Begun
    requires idle { s.old.local.stand.phase ≡ phase.Idle }
    requires coll { c < length s.old.shape.colls }
    ensures same { IsSame s.old s.new }
    ensures done { Tells s.old.local s.new.local (rounds (begun_done c result)) }
    ensures owns { OwnsBy s.old s.new result }
    ensures bound { HasBound c (epoch_of s.old.local.stand.section) result }
    ensures busy { IsBusyFor s.old s.new.local result }
    ensures counted { CountsFor s.old s.new c result }
    ensures stays { Stays s.old s.new }
    ensures scans { s.new.local.stand.scans ≡ s.old.local.stand.scans }
    ensures keeps { Keeps s.old.local s.new.local }
    ensures few { s.new.local.steps ≤ s.old.local.steps + 2 + slots_of s.old.shape c * (width_of s.old.shape c + 13) }
{
    begin_by_steps(s, c)
}
