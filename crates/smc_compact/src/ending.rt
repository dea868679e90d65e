//! The end of a round.
ghost use Rattle.std.specs.Prelude.{◌≡◌, ℕ, ◌+◌, ◌*◌, ◌-◌, ◌^◌, ◌<◌, ◌≤◌, true, false, Some, None, IfSome, IfNone, length};
ghost use Rattle.smc_shape.specs.Layout.{slots_of, width_of};
ghost use Rattle.smc_core.specs.declared.phase.Phase.TheVariants as phase;
ghost use Rattle.smc_core.specs.declared.phase.moves.FinishPhase.TheVariants as finish;
ghost use Rattle.smc_core.specs.declared.phase.objects.CopyPhase.TheVariants as copy;
ghost use Rattle.smc_core.specs.Finish.{first_target, is_incoming, next_target, with_given_up, with_moved};
ghost use Rattle.smc_core.specs.Look.{copy_field};
ghost use Rattle.smc_core.specs.Section.{epoch_of};
ghost use Rattle.smc_core.specs.Step.{goes};
ghost use Rattle.smc_core.specs.Words.{has_object};
ghost use Rattle.smc_region.specs.Callers.{IsSame};
ghost use Rattle.smc_trace.specs.Named.{finishes};
ghost use Rattle.smc_trace.specs.Trace.{Tells};
ghost use Rattle.smc_does.specs.Does.{Stays};
ghost use Rattle.smc_compact.specs.Calls.{EndsBy, IsRoundOf, Keeps, finished_done};
ghost use Rattle.smc_compact.specs.Counting.{going};
ghost use Rattle.smc_compact.specs.Endings.{Ends, IsTally, target_steps};

use crate::begun::Round;
use smc_core::{Op, State, Targets, Word};
use smc_region::{Chosen, Section};
use smc_shape::Place;
use smc_words::{BLANK, Dir, Number};

/// How a finish ended.
pub enum Finished {
    /// The round has ended, with so many objects moved, left where they were, and found gone.
    Done {
        moved: u64,
        abandoned: u64,
        gone: u64,
    },
    /// The section is too early.
    Early(Round),
}

pub(crate) fn is_incoming(dir: Dir) -> bool
    ensures { result ≡ is_incoming dir }
{
    match dir {
        Dir::Incoming => true,
        Dir::Free | Dir::Claimed | Dir::Valid | Dir::Limbo(_) => false,
    }
}

fn has_object(incarnation: u32, seen: State) -> bool
    ensures { result ≡ has_object incarnation seen }
{
    match seen {
        State::Present {
            incarnation: other,
            ..
        }
        | State::Frozen {
            incarnation: other,
            ..
        }
        | State::Locked {
            incarnation: other,
            ..
        } => other == incarnation,
        State::Free { .. } | State::Claimed { .. } | State::Removed { .. } => false,
    }
}

/// The target of the locked object, once each field is copied there.
fn copy(s: &mut Section<'_>, targets: Targets, number: Number, source: u32) -> u32
    requires phase { s.old.local.stand.phase ≡ phase.Finish (finish.Move targets number source copy.Target) }
    ensures same { IsSame s.old s.new }
    ensures copied { s.new.local ≡ going s.old.local (s.old.local.steps + 1 + 2 * width_of s.old.shape number.coll)
        (goes (phase.Finish (finish.Move targets number source (copy_field s.old.shape number.coll result (width_of s.old.shape number.coll))))) }
{
    let coll = number.coll;
    let load = Op::Load {
        place: Place::Forward { coll, slot: source },
    };
    let target = s.take(Chosen::Go, load).forward();
    let width = s.region().shape().width(coll);
    for field in 0..width {
        let load = Op::Load {
            place: Place::Field {
                coll,
                slot: source,
                field,
            },
        };
        let value = s.take(Chosen::Go, load).plain();
        let put = Op::Exchange {
            place: Place::Field {
                coll,
                slot: target,
                field,
            },
            expect: Word::Plain(BLANK),
            put: Word::Plain(value),
        };
        s.take(Chosen::Go, put);
    }
    target
}

/// Moves the locked object to its target, and leaves its source.
fn move_object(s: &mut Section<'_>, targets: Targets, number: Number, source: u32)
    requires phase { s.old.local.stand.phase ≡ phase.Finish (finish.Move targets number source copy.Target) }
    requires home { number.coll ≡ targets.coll }
    ensures same { IsSame s.old s.new }
    ensures steps { s.new.local.steps + 4 ≤ s.old.local.steps + target_steps s.old.shape targets.coll }
    ensures moved { s.new.local ≡ going s.old.local s.new.local.steps
        (goes (phase.Finish (next_target s.old.shape (with_moved targets)))) }
{
    let target = copy(s, targets, number, source);
    let incarnation = number.incarnation;
    let swing = Op::Exchange {
        place: Place::Entry {
            coll: number.coll,
            entry: number.entry,
        },
        expect: Word::Entry(State::Locked {
            incarnation,
            slot: source,
        }),
        put: Word::Entry(State::Present {
            incarnation,
            slot: target,
        }),
    };
    s.take(Chosen::Go, swing);
    let coll = targets.coll;
    let settle = Op::Exchange {
        place: Place::Directory {
            coll,
            slot: targets.slot,
        },
        expect: Word::Directory(Dir::Incoming),
        put: Word::Directory(Dir::Valid),
    };
    s.take(Chosen::Go, settle);
    let stamp = s.epoch() + 1;
    let leave = Op::Store {
        place: Place::Directory { coll, slot: source },
        word: Word::Directory(Dir::Limbo(stamp)),
    };
    s.take(Chosen::Go, leave);
}

/// Gives the target up, whose object is gone or was left where it is.
fn give_up(s: &mut Section<'_>, targets: Targets, gone: bool) -> Targets
    requires phase { s.old.local.stand.phase ≡ phase.Finish (finish.GiveUp targets gone) }
    requires slot { targets.slot < 2 ^ 32 - 1 }
    requires tally { IsTally targets targets targets.slot }
    ensures same { IsSame s.old s.new }
    ensures tally { IsTally targets result (targets.slot + 1) }
    ensures passed { s.new.local ≡ going s.old.local (s.old.local.steps + 1) (goes (phase.Finish (next_target s.old.shape result))) }
{
    let stamp = s.epoch() + 1;
    let give_up = Op::Store {
        place: Place::Directory {
            coll: targets.coll,
            slot: targets.slot,
        },
        word: Word::Directory(Dir::Limbo(stamp)),
    };
    s.take(Chosen::Go, give_up);
    if gone {
        Targets {
            gone: targets.gone + 1,
            ..targets
        }
    } else {
        Targets {
            abandoned: targets.abandoned + 1,
            ..targets
        }
    }
}

/// Goes on with the finish at a target: its object is moved there, or it is given up.
fn finish_target(s: &mut Section<'_>, targets: Targets) -> Targets
    requires phase { s.old.local.stand.phase ≡ phase.Finish (finish.Back targets) }
    requires slot { targets.slot < 2 ^ 32 - 1 }
    requires tally { IsTally targets targets targets.slot }
    ensures same { IsSame s.old s.new }
    ensures steps { s.new.local.steps + 1 ≤ s.old.local.steps + target_steps s.old.shape targets.coll }
    ensures tally { IsTally targets result (targets.slot + 1) }
    ensures passed { s.new.local ≡ going s.old.local s.new.local.steps (goes (phase.Finish (next_target s.old.shape result))) }
{
    let load = Op::Load {
        place: Place::Back {
            coll: targets.coll,
            slot: targets.slot,
        },
    };
    let Some(number) = s.take(Chosen::Go, load).back() else {
        return give_up(s, targets, true);
    };
    let incarnation = number.incarnation;
    let place = Place::Entry {
        coll: number.coll,
        entry: number.entry,
    };
    let seen = s.take(Chosen::Go, Op::Load { place }).state();
    let source = match seen {
        State::Frozen {
            incarnation: other,
            slot,
        } if other == incarnation => slot,
        _ => return give_up(s, targets, !has_object(incarnation, seen)),
    };
    let expect = Word::Entry(State::Frozen {
        incarnation,
        slot: source,
    });
    let lock = Op::Exchange {
        place,
        expect,
        put: Word::Entry(State::Locked {
            incarnation,
            slot: source,
        }),
    };
    let word = s.take(Chosen::Go, lock);
    if !word.same(expect) {
        return give_up(s, targets, !has_object(incarnation, word.state()));
    }
    move_object(s, targets, number, source);
    Targets {
        moved: targets.moved + 1,
        ..targets
    }
}

/// Goes on with the finish at a slot.
fn finish_slot(s: &mut Section<'_>, targets: Targets) -> Targets
    requires phase { s.old.local.stand.phase ≡ phase.Finish (finish.Directory targets) }
    requires slot { targets.slot < 2 ^ 32 - 1 }
    requires tally { IsTally targets targets targets.slot }
    ensures same { IsSame s.old s.new }
    ensures steps { s.new.local.steps ≤ s.old.local.steps + target_steps s.old.shape targets.coll }
    ensures tally { IsTally targets result (targets.slot + 1) }
    ensures passed { s.new.local ≡ going s.old.local s.new.local.steps (goes (phase.Finish (next_target s.old.shape result))) }
{
    let load = Op::Load {
        place: Place::Directory {
            coll: targets.coll,
            slot: targets.slot,
        },
    };
    if is_incoming(s.take(Chosen::Go, load).dir()) {
        finish_target(s, targets)
    } else {
        targets
    }
}

/// The first slot of a finish.
fn finish_first(s: &mut Section<'_>, round: &Round) -> Targets
    requires idle { s.old.local.stand.phase ≡ phase.Idle }
    requires round { IsRoundOf s.old round.now }
    requires late { round.now.bound + 2 ≤ epoch_of s.old.local.stand.section }
    ensures same { IsSame s.old s.new }
    ensures steps { s.new.local.steps ≤ s.old.local.steps + target_steps s.old.shape round.now.coll }
    ensures tally { IsTally (first_target round.now.coll) result 1 }
    ensures passed { s.new.local ≡ going s.old.local s.new.local.steps (goes (phase.Finish (next_target s.old.shape result))) }
{
    let targets = Targets {
        coll: round.coll,
        slot: 0,
        moved: 0,
        abandoned: 0,
        gone: 0,
    };
    let load = Op::Load {
        place: Place::Directory {
            coll: round.coll,
            slot: 0,
        },
    };
    let _ = s.calm();
    if is_incoming(s.take(Chosen::Finish, load).dir()) {
        finish_target(s, targets)
    } else {
        targets
    }
}

/// The same as `finish`, as an equation on all that the pass knows.
fn finish_by_steps(r: Round, s: &mut Section<'_>) -> Finished
    requires idle { s.old.local.stand.phase ≡ phase.Idle }
    requires round { IsRoundOf s.old r }
    ensures same { IsSame s.old s.new }
    ensures few { s.new.local.steps ≤ s.old.local.steps + 1 + slots_of s.old.shape r.coll * (2 * width_of s.old.shape r.coll + 8) }
    ensures ends { Ends result r (epoch_of s.old.local.stand.section) s.old.local s.new.local }
{
    let _ = s.calm();
    if s.epoch() < r.bound + 2 {
        let own = Op::Load {
            place: Place::Section { pass: s.pass() },
        };
        s.take(Chosen::Finish, own);
        return Finished::Early(r);
    }
    let slots = s.region().shape().slots(r.coll);
    let mut targets = finish_first(s, &r);
    for slot in 1..slots {
        targets = finish_slot(s, Targets { slot, ..targets });
    }
    let none = Op::Store {
        place: Place::Round,
        word: Word::Round(None),
    };
    s.take(Chosen::Go, none);
    let Round {
        bound: _,
        coll: _,
        moves: _,
    } = r;
    Finished::Done {
        moved: u64::from(targets.moved),
        abandoned: u64::from(targets.abandoned),
        gone: u64::from(targets.gone),
    }
}

/// Finishes the round: each of its objects that no reader has met meanwhile is moved. Answers that it is early, and leaves the
/// round as it is, in a section whose epoch is less than two above the round's bound.
pub fn finish(r: Round, s: &mut Section<'_>) -> Finished
    requires idle { s.old.local.stand.phase ≡ phase.Idle }
    requires round { IsRoundOf s.old r }
    ensures same { IsSame s.old s.new }
    ensures done { Tells s.old.local s.new.local (finishes (finished_done (epoch_of s.old.local.stand.section) result)) }
    ensures ends { EndsBy s.new (epoch_of s.old.local.stand.section) r result }
    ensures stays { Stays s.old s.new }
    ensures scans { s.new.local.stand.scans ≡ s.old.local.stand.scans }
    ensures keeps { Keeps s.old.local s.new.local }
    ensures few { s.new.local.steps ≤ s.old.local.steps + 1 + slots_of s.old.shape r.coll * (2 * width_of s.old.shape r.coll + 8) }
{
    finish_by_steps(r, s)
}
