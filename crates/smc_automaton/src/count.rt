//! The walk that counts the objects of a collection, and the blocks that they lie in.
ghost use Rattle.std.specs.Prelude.{◌≡◌, ◌≤◌, ◌<◌, ◌+◌};
ghost use Rattle.smc_core.specs.Count.{no_count, block_of, blocks_for, with_object, count_offer, count_next, count_owner, counting, survey_change};
ghost use Rattle.smc_automaton.specs.FitsPhase.{FitsCount, FitsCounting};
ghost use Rattle.smc_automaton.specs.Counted.{FewCounted};

use crate::op::{back, directory, entry_of, load};
use crate::seen::{has_object_at, is_valid};
use crate::size::slots_of;
use crate::step::{ends, goes};
use smc_core::{Change, Count, CountPhase, Counting, Done, Kind, Offer, Phase, Word};
use smc_shape::{BLOCK_SLOTS, Shape};
use smc_words::{ENTRIES, Number};

/// Nothing is counted yet.
const NO_COUNT: Count = Count {
    objects: 0,
    blocks: 0,
    next: 0,
};

/// The walk begins at the first slot.
pub(crate) fn first_count(coll: u8) -> CountPhase
    ensures is { result ≡ CountPhase.Directory coll 0 no_count }
    ensures fits { FitsCounting result }
{
    CountPhase::Directory {
        coll,
        slot: 0,
        count: NO_COUNT,
    }
}

/// The block of a slot.
fn block_of(slot: u32) -> u32
    ensures { result ≡ block_of slot }
{
    slot / BLOCK_SLOTS
}

/// The blocks that so many objects need.
pub(crate) fn blocks_for(objects: u32) -> u32
    requires { objects ≤ ENTRIES }
    ensures { result ≡ blocks_for objects }
{
    (objects + BLOCK_SLOTS - 1) / BLOCK_SLOTS
}

/// One more object is counted, and its block where no object of it was counted before.
fn with_object(slot: u32, count: Count) -> Count
    requires slot { slot < ENTRIES }
    requires count { FitsCount slot count }
    ensures { result ≡ with_object slot count }
{
    let block = block_of(slot);
    Count {
        objects: count.objects + 1,
        blocks: if block < count.next {
            count.blocks
        } else {
            count.blocks + 1
        },
        next: block + 1,
    }
}

/// The step of a counting walk.
pub(crate) fn count_offer(next: CountPhase) -> Offer
    ensures { result ≡ count_offer next }
{
    match next {
        CountPhase::Directory { coll, slot, .. } => load(
            Kind::LoadDirectory,
            directory(coll, slot),
        ),
        CountPhase::Back { coll, slot, .. } => load(Kind::LoadBack, back(coll, slot)),
        CountPhase::Entry { number, .. } => load(Kind::LoadEntry, entry_of(number)),
    }
}

/// The walk goes on with the next slot, or has passed all.
fn count_next(shape: &Shape, coll: u8, slot: u32, count: Count) -> Counting
    requires slot { slot < ENTRIES }
    requires count { FitsCount (slot + 1) count }
    ensures is { result ≡ count_next shape.now coll slot count }
    ensures few { FewCounted result }
{
    if slot + 1 < slots_of(shape, coll) {
        Counting::Walks(CountPhase::Directory {
            coll,
            slot: slot + 1,
            count,
        })
    } else {
        Counting::Counted { coll, count }
    }
}

/// The entry of the slot's owner is loaded; a slot without one is passed.
fn count_owner(shape: &Shape, coll: u8, slot: u32, count: Count, owner: Option<Number>) -> Counting
    requires slot { slot < ENTRIES }
    requires count { FitsCount slot count }
    ensures is { result ≡ count_owner shape.now coll slot count owner }
    ensures few { FewCounted result }
{
    match owner {
        None => count_next(shape, coll, slot, count),
        Some(number) => Counting::Walks(CountPhase::Entry {
            coll,
            slot,
            count,
            number,
        }),
    }
}

/// Where the walk is after a step: an object counts where it is present in the slot that names it.
pub(crate) fn counting(shape: &Shape, next: CountPhase, seen: Word) -> Counting
    requires { FitsCounting next }
    ensures is { result ≡ counting shape.now next seen }
    ensures few { FewCounted result }
{
    match next {
        CountPhase::Directory { coll, slot, count } => {
            if is_valid(seen.dir()) {
                Counting::Walks(CountPhase::Back { coll, slot, count })
            } else {
                count_next(shape, coll, slot, count)
            }
        }
        CountPhase::Back { coll, slot, count } => {
            count_owner(shape, coll, slot, count, seen.back())
        }
        CountPhase::Entry {
            coll,
            slot,
            count,
            number,
        } => {
            let count = if has_object_at(number.incarnation, slot, seen.state()) {
                with_object(slot, count)
            } else {
                count
            };
            count_next(shape, coll, slot, count)
        }
    }
}

/// What a step of a survey changes.
pub(crate) fn survey_change(walked: Counting) -> Change
    ensures { result ≡ survey_change walked }
{
    match walked {
        Counting::Walks(next) => goes(Phase::Survey(next)),
        Counting::Counted { coll, count } => ends(Done::Surveyed {
            coll,
            objects: u64::from(count.objects),
            blocks: u64::from(count.blocks),
        }),
    }
}
