//! Beginning a round: it is opened, the objects are counted, and those that stand too high get a target and are frozen.
ghost use Rattle.std.specs.Prelude.{◌≡◌, ◌≤◌};
ghost use Rattle.smc_core.specs.Begin.{round_offer, round_seen, begin_offer, begin_counted, begin_counting, begin_change};
ghost use Rattle.smc_automaton.specs.Counted.{FewCounted};
ghost use Rattle.smc_automaton.specs.FitsPhase.{FitsBegin, FitsTarget};

use crate::count::{blocks_for, count_offer, counting, first_count};
use crate::op::{
    back, directory, entry_of, exchange, field_of, forward, frozen, leave_slot, load, present,
    store,
};
use crate::seen::{is_ripe_slot, is_source, is_valid};
use crate::step::{ends, goes};
use crate::walk::{
    blank_field, first_walk, next_source, past_target, source_owner, to_source, to_target,
    with_move,
};
use smc_core::{
    BeginPhase, Change, Count, Counting, Done, Kind, LAST_EPOCH, Offer, Phase, Walk, Word,
};
use smc_shape::{BLOCK_SLOTS, Place, Shape};
use smc_words::{BLANK, Dir, ENTRIES, Number, RoundWord};

/// The first step of a begin: the round word is exchanged from none to this pass's round, bound one above the section.
pub(crate) fn round_offer(pass: u32, epoch: u64, coll: u8) -> Offer
    requires { epoch ≤ LAST_EPOCH }
    ensures { result ≡ round_offer pass epoch coll }
{
    exchange(
        Kind::OpenRound,
        Place::Round,
        Word::Round(None),
        Word::Round(Some(RoundWord {
            bound: epoch + 1,
            pass,
            coll,
        })),
    )
}

/// What that step changes: where another round was seen, the call ends as busy.
pub(crate) fn round_seen(coll: u8, seen: Option<RoundWord>) -> Change
    ensures { result ≡ round_seen coll seen }
{
    match seen {
        None => goes(Phase::Begin(BeginPhase::Count(first_count(coll)))),
        Some(round) => ends(Done::Busy {
            bound: round.bound,
            pass: round.pass,
            coll: round.coll,
        }),
    }
}

/// The step of a begin, in a section at this epoch.
pub(crate) fn begin_offer(epoch: u64, next: BeginPhase) -> Offer
    requires { epoch ≤ LAST_EPOCH }
    ensures { result ≡ begin_offer epoch next }
{
    match next {
        BeginPhase::Count(next) => count_offer(next),
        BeginPhase::Nothing { .. } => store(Kind::CloseRound, Place::Round, Word::Round(None)),
        BeginPhase::SourceDirectory(walk) => load(
            Kind::LoadDirectory,
            directory(walk.coll, walk.source),
        ),
        BeginPhase::SourceBack(walk) => load(Kind::LoadBack, back(walk.coll, walk.source)),
        BeginPhase::SourceEntry { number, .. } => load(Kind::LoadEntry, entry_of(number)),
        BeginPhase::TargetDirectory { walk, .. } => load(
            Kind::LoadDirectory,
            directory(walk.coll, walk.target),
        ),
        BeginPhase::ClaimTarget { walk, seen, .. } => exchange(
            Kind::ClaimSlot,
            directory(walk.coll, walk.target),
            Word::Directory(seen),
            Word::Directory(Dir::Claimed),
        ),
        BeginPhase::BlankField { walk, field, .. } => store(
            Kind::StoreField,
            field_of(walk.coll, walk.target, field),
            Word::Plain(BLANK),
        ),
        BeginPhase::StoreBack { walk, number } => store(
            Kind::StoreBack,
            back(walk.coll, walk.target),
            Word::Back(Some(number)),
        ),
        BeginPhase::StoreForward { walk, .. } => store(
            Kind::StoreForward,
            forward(walk.coll, walk.source),
            Word::Forward(walk.target),
        ),
        BeginPhase::StoreIncoming { walk, .. } => store(
            Kind::StoreIncoming,
            directory(walk.coll, walk.target),
            Word::Directory(Dir::Incoming),
        ),
        BeginPhase::Freeze { walk, number } => exchange(
            Kind::Freeze,
            entry_of(number),
            present(number, walk.source),
            frozen(number, walk.source),
        ),
        BeginPhase::GiveUp(walk) => leave_slot(walk.coll, walk.target, epoch),
    }
}

/// After the count: where there are no more blocks than needed, the round is given up.
fn begin_counted(shape: &Shape, epoch: u64, coll: u8, count: Count) -> Change
    requires epoch { epoch ≤ LAST_EPOCH }
    requires few { count.objects ≤ ENTRIES }
    ensures { result ≡ begin_counted shape.now epoch coll count }
{
    let needed = blocks_for(count.objects);
    if count.blocks <= needed {
        goes(Phase::Begin(BeginPhase::Nothing { coll }))
    } else {
        to_source(shape, epoch, first_walk(coll, needed * BLOCK_SLOTS))
    }
}

/// The count goes on, or is done.
fn begin_counting(shape: &Shape, epoch: u64, walked: Counting) -> Change
    requires epoch { epoch ≤ LAST_EPOCH }
    requires few { FewCounted walked }
    ensures { result ≡ begin_counting shape.now epoch walked }
{
    match walked {
        Counting::Walks(next) => goes(Phase::Begin(BeginPhase::Count(next))),
        Counting::Counted { coll, count } => begin_counted(shape, epoch, coll, count),
    }
}

/// What a step of a begin changes, in a section at this epoch.
pub(crate) fn begin_change(shape: &Shape, epoch: u64, next: BeginPhase, seen: Word) -> Change
    requires epoch { epoch ≤ LAST_EPOCH }
    requires fits { FitsBegin next }
    ensures { result ≡ begin_change shape.now epoch next seen }
{
    match next {
        BeginPhase::Count(next) => begin_counting(shape, epoch, counting(shape, next, seen)),
        BeginPhase::Nothing { coll } => ends(Done::Nothing { coll }),
        BeginPhase::SourceDirectory(walk) => {
            if is_valid(seen.dir()) {
                goes(Phase::Begin(BeginPhase::SourceBack(walk)))
            } else {
                next_source(shape, epoch, walk)
            }
        }
        BeginPhase::SourceBack(walk) => source_owner(shape, epoch, walk, seen.back()),
        BeginPhase::SourceEntry { walk, number } => {
            if is_source(number, walk.source, seen.state()) {
                to_target(epoch, walk, number)
            } else {
                next_source(shape, epoch, walk)
            }
        }
        BeginPhase::TargetDirectory { walk, number } => {
            let seen = seen.dir();
            if is_ripe_slot(epoch, seen) {
                goes(Phase::Begin(BeginPhase::ClaimTarget { walk, number, seen }))
            } else {
                to_target(epoch, past_target(walk), number)
            }
        }
        BeginPhase::ClaimTarget {
            walk,
            number,
            seen: free,
        } => {
            if seen.same(Word::Directory(free)) {
                goes(Phase::Begin(blank_field(shape, walk, number, 0)))
            } else {
                to_target(epoch, past_target(walk), number)
            }
        }
        BeginPhase::BlankField {
            walk,
            number,
            field,
        } => goes(Phase::Begin(blank_field(shape, walk, number, field + 1))),
        BeginPhase::StoreBack { walk, number } => {
            goes(Phase::Begin(BeginPhase::StoreForward { walk, number }))
        }
        BeginPhase::StoreForward { walk, number } => {
            goes(Phase::Begin(BeginPhase::StoreIncoming { walk, number }))
        }
        BeginPhase::StoreIncoming { walk, number } => {
            goes(Phase::Begin(BeginPhase::Freeze { walk, number }))
        }
        BeginPhase::Freeze { walk, number } => freeze_seen(shape, epoch, walk, number, seen),
        BeginPhase::GiveUp(walk) => next_source(shape, epoch, past_target(walk)),
    }
}

/// Where the entry was frozen, the walk looks at the next source; else its target is given up.
fn freeze_seen(shape: &Shape, epoch: u64, walk: Walk, number: Number, seen: Word) -> Change
    requires epoch { epoch ≤ LAST_EPOCH }
    requires target { FitsTarget walk }
    ensures { result ≡ begin_change shape.now epoch (BeginPhase.Freeze walk number) seen }
{
    if seen.same(present(number, walk.source)) {
        next_source(shape, epoch, with_move(past_target(walk)))
    } else {
        goes(Phase::Begin(BeginPhase::GiveUp(walk)))
    }
}
