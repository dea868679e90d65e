//! The walk that counts the objects of a collection, and the blocks that they lie in.
ghost use Rattle.std.specs.Prelude.{◌≡◌, ℕ, ◌+◌, ◌*◌, ◌-◌, ◌^◌, ◌<◌, ◌≤◌, true, false, length};
ghost use Rattle.smc_shape.specs.Layout.{slots_of};
ghost use Rattle.smc_core.specs.declared.done.Done.TheVariants as done;
ghost use Rattle.smc_core.specs.declared.phase.Phase.TheVariants as phase;
ghost use Rattle.smc_core.specs.declared.phase.moves.CountPhase.TheVariants as walk;
ghost use Rattle.smc_core.specs.Count.{count_next, is_valid, no_count, with_object};
ghost use Rattle.smc_core.specs.Section.{epoch_of};
ghost use Rattle.smc_core.specs.Words.{has_object_at};
ghost use Rattle.smc_region.specs.Callers.{IsSame, answered_by};
ghost use Rattle.smc_trace.specs.Named.{surveys};
ghost use Rattle.smc_does.specs.Does.{Does, Stays};
ghost use Rattle.smc_compact.specs.Calls.{Keeps};
ghost use Rattle.smc_compact.specs.Counting.{IsFew, counting_change, counts, going, passes_slot};
ghost use Rattle.smc_compact.specs.Shown.{Counts, CountsSlot, Shows, ShowsIn, with_slot};

use smc_core::{Count, Op, State};
use smc_region::{Chosen, Section};
use smc_shape::{BLOCK_SLOTS, Place};
use smc_words::Dir;

/// How many objects of a collection were counted, and in how many blocks of 64 slots.
#[derive(Clone, Copy, Debug, PartialEq, Eq)]
pub struct Census {
    pub objects: u64,
    pub blocks: u64,
}

fn is_valid(dir: Dir) -> bool
    ensures { result ≡ is_valid dir }
{
    match dir {
        Dir::Valid => true,
        Dir::Free | Dir::Claimed | Dir::Incoming | Dir::Limbo(_) => false,
    }
}

fn has_object_at(incarnation: u32, slot: u32, seen: State) -> bool
    ensures { result ≡ has_object_at incarnation slot seen }
{
    match seen {
        State::Present {
            incarnation: other,
            slot: there,
        }
        | State::Frozen {
            incarnation: other,
            slot: there,
        }
        | State::Locked {
            incarnation: other,
            slot: there,
        } => other == incarnation && there == slot,
        State::Free { .. } | State::Claimed { .. } | State::Removed { .. } => false,
    }
}

fn with_object(slot: u32, count: Count) -> Count
    requires slot { slot < 2 ^ 32 - 1 }
    requires few { IsFew slot count }
    ensures { result ≡ with_object slot count }
{
    let block = slot / BLOCK_SLOTS;
    Count {
        objects: count.objects + 1,
        blocks: if block < count.next {
            count.blocks
        } else {
            count.blocks + 1
        },
        next: block + 1,
    }
}

/// Nothing is counted yet.
pub(crate) fn no_count() -> Count
    ensures { result ≡ no_count }
{
    Count {
        objects: 0,
        blocks: 0,
        next: 0,
    }
}

/// The count with an object in the slot, or none.
fn with_slot(slot: u32, has: bool, count: Count) -> Count
    requires slot { slot < 2 ^ 32 - 1 }
    requires few { IsFew slot count }
    ensures is { result ≡ with_slot slot has count }
    ensures few { IsFew (slot + 1) result }
{
    if has { with_object(slot, count) } else { count }
}

/// Whether the owner of the slot is in it; the walk goes on behind the slot.
fn sees_owner<const BEGINS: bool>(s: &mut Section<'_>, c: u8, slot: u32, count: Count) -> bool
    requires phase { s.old.local.stand.phase ≡ counts BEGINS (walk.Back c slot count) }
    ensures same { IsSame s.old s.new }
    ensures steps { s.new.local.steps ≤ s.old.local.steps + 2 }
    ensures later { s.old.local.steps ≤ s.new.local.steps }
    ensures passed { s.new.local ≡ going s.old.local s.new.local.steps (passes_slot BEGINS s.old c slot result count) }
    ensures shown { ShowsIn s.old.shape s.old.number s.old.local.steps s.new.local.steps c slot true result }
{
    let load = Op::Load {
        place: Place::Back { coll: c, slot },
    };
    let Some(number) = s.take(Chosen::Go, load).back() else {
        return false;
    };
    let load = Op::Load {
        place: Place::Entry {
            coll: number.coll,
            entry: number.entry,
        },
    };
    has_object_at(number.incarnation, slot, s.take(Chosen::Go, load).state())
}

/// Whether an object is in the slot; the walk goes on behind it.
fn sees_object<const BEGINS: bool>(s: &mut Section<'_>, c: u8, slot: u32, count: Count) -> bool
    requires phase { s.old.local.stand.phase ≡ counts BEGINS (walk.Directory c slot count) }
    ensures same { IsSame s.old s.new }
    ensures steps { s.new.local.steps ≤ s.old.local.steps + 3 }
    ensures later { s.old.local.steps ≤ s.new.local.steps }
    ensures passed { s.new.local ≡ going s.old.local s.new.local.steps (passes_slot BEGINS s.old c slot result count) }
    ensures shown { Shows s.old.shape s.old.number s.old.local.steps s.new.local.steps c slot result }
{
    let load = Op::Load {
        place: Place::Directory { coll: c, slot },
    };
    if is_valid(s.take(Chosen::Go, load).dir()) {
        sees_owner::<BEGINS>(s, c, slot, count)
    } else {
        false
    }
}

/// The same of the first slot, with which a survey starts.
fn sees_first(s: &mut Section<'_>, c: u8) -> bool
    requires idle { s.old.local.stand.phase ≡ phase.Idle }
    requires coll { c < length s.old.shape.colls }
    ensures same { IsSame s.old s.new }
    ensures steps { s.new.local.steps ≤ s.old.local.steps + 3 }
    ensures later { s.old.local.steps ≤ s.new.local.steps }
    ensures passed { s.new.local ≡ going s.old.local s.new.local.steps (passes_slot false s.old c 0 result no_count) }
    ensures shown { Shows s.old.shape s.old.number s.old.local.steps s.new.local.steps c 0 result }
{
    let load = Op::Load {
        place: Place::Directory { coll: c, slot: 0 },
    };
    let _ = s.calm();
    if is_valid(s.take(Chosen::Survey { coll: c }, load).dir()) {
        sees_owner::<false>(s, c, 0, no_count())
    } else {
        false
    }
}

/// Counts the object in the slot, if there is one.
pub(crate) fn count_slot<const BEGINS: bool>(
    s: &mut Section<'_>,
    c: u8,
    slot: u32,
    count: Count,
) -> Count
    requires phase { s.old.local.stand.phase ≡ counts BEGINS (walk.Directory c slot count) }
    requires slot { slot < 2 ^ 32 - 1 }
    requires few { IsFew slot count }
    ensures same { IsSame s.old s.new }
    ensures steps { s.new.local.steps ≤ s.old.local.steps + 3 }
    ensures later { s.old.local.steps ≤ s.new.local.steps }
    ensures few { IsFew (slot + 1) result }
    ensures counted { s.new.local ≡ going s.old.local s.new.local.steps
        (counting_change BEGINS s.old.shape (epoch_of s.old.local.stand.section) (count_next s.old.shape c slot result)) }
    ensures shown { CountsSlot s.old.shape s.old.number s.old.local.steps s.new.local.steps c slot count result }
{
    let has = sees_object::<BEGINS>(s, c, slot, count);
    with_slot(slot, has, count)
}

/// The first slot of a survey.
fn count_first(s: &mut Section<'_>, c: u8) -> Count
    requires idle { s.old.local.stand.phase ≡ phase.Idle }
    requires coll { c < length s.old.shape.colls }
    ensures same { IsSame s.old s.new }
    ensures steps { s.new.local.steps ≤ s.old.local.steps + 3 }
    ensures later { s.old.local.steps ≤ s.new.local.steps }
    ensures few { IsFew 1 result }
    ensures counted { s.new.local ≡ going s.old.local s.new.local.steps
        (counting_change false s.old.shape (epoch_of s.old.local.stand.section) (count_next s.old.shape c 0 result)) }
    ensures shown { CountsSlot s.old.shape s.old.number s.old.local.steps s.new.local.steps c 0 no_count result }
{
    let has = sees_first(s, c);
    with_slot(0, has, no_count())
}

/// The same as `survey`, as an equation on all that the pass knows.
fn survey_by_steps(s: &mut Section<'_>, c: u8) -> Census
    requires idle { s.old.local.stand.phase ≡ phase.Idle }
    requires coll { c < length s.old.shape.colls }
    ensures same { IsSame s.old s.new }
    ensures few { s.new.local.steps ≤ s.old.local.steps + 3 * slots_of s.old.shape c }
    ensures answered { s.new.local ≡ answered_by s.old.local s.new.local.steps (done.Surveyed c result.objects result.blocks) }
    ensures counted { Counts s.old.shape s.old.number s.old.local.steps s.new.local.steps c result.objects result.blocks }
{
    let slots = s.region().shape().slots(c);
    let mut count = count_first(s, c);
    for slot in 1..slots {
        count = count_slot::<false>(s, c, slot, count);
    }
    Census {
        objects: u64::from(count.objects),
        blocks: u64::from(count.blocks),
    }
}

/// Counts the objects of a collection, and the blocks that they lie in.
pub fn survey(s: &mut Section<'_>, c: u8) -> Census
    requires idle { s.old.local.stand.phase ≡ phase.Idle }
    requires coll { c < length s.old.shape.colls }
    ensures done { Does s.old s.new (surveys c result.objects result.blocks) }
    ensures stays { Stays s.old s.new }
    ensures scans { s.new.local.stand.scans ≡ s.old.local.stand.scans }
    ensures keeps { Keeps s.old.local s.new.local }
    ensures counted { Counts s.old.shape s.old.number s.old.local.steps s.new.local.steps c result.objects result.blocks }
    ensures few { s.new.local.steps ≤ s.old.local.steps + 3 * slots_of s.old.shape c }
{
    survey_by_steps(s, c)
}
