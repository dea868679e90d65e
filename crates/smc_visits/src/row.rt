//! The row of an object that a section holds.
ghost use Rattle.std.specs.Prelude.{◌≡◌, ◌≢◌, ◌+◌, ◌^◌, ◌<◌, ◌≤◌, Some, None, IfSome, MatchBool, length, option_map, if◌then◌else◌};
ghost use Rattle.std.specs.List.{AllByRecursion};
ghost use Rattle.smc_shape.specs.Layout.{Layout, width_of};
ghost use Rattle.smc_core.specs.declared.phase.Phase.TheVariants.{Idle};
ghost use Rattle.smc_region.specs.Looks.{slot_found};
ghost use Rattle.smc_trace.specs.Named.{looks};
ghost use Rattle.smc_does.specs.Does.{Does, DoesSome, IsHeld, Stays};
ghost use Rattle.smc_objects.specs.Alone.{reads_all};
ghost use Rattle.smc_objects.specs.Fields.{AreFieldsOf};
ghost use Rattle.smc_types.specs.Columns as columns;
ghost use Rattle.smc_plan.specs.Leaves.{leaves_words};
ghost use Rattle.smc_visits.specs.Rows.{FitsHop, FitsRecord, Follows, ReadsLeaf, RowOfVisit};

use smc_objects::{HeldFields, fields, read_at};
use smc_plan::{Hop, Leaf};
use smc_region::{Held, Section};
use smc_words::Number;

/// Whether the object has so many fields.
#[inline(always)]
fn has_width(object: HeldFields, width: u32) -> bool
    ensures { (shape : Layout) → AreFieldsOf shape object
        → MatchBool result (width_of shape object.held.number.coll ≡ width) (width_of shape object.held.number.coll ≢ width) }
{
    object.width() == width
}

/// Looks an object up, which is held from then on if it is here.
#[inline(always)]
fn look(s: &mut Section<'_>, number: Number) -> Option<Held>
    requires idle { s.old.local.stand.phase ≡ Idle }
    ensures done { Does s.old s.new (looks number (slot_found result)) }
    ensures holds { IfSome result (λ held. IsHeld s.new held × (held.number ≡ number)) }
    ensures stays { Stays s.old s.new }
    ensures scans { s.new.local.stand.scans ≡ s.old.local.stand.scans }
{
    s.deref(number)
}

/// Looks an object up, and finds its fields.
#[inline(always)]
fn find(s: &mut Section<'_>, number: Number) -> Option<HeldFields>
    requires idle { s.old.local.stand.phase ≡ Idle }
    ensures done { Does s.old s.new (looks number (slot_found (option_map (λ found. found.held) result))) }
    ensures holds { IfSome result (λ found. IsHeld s.new found.held × (found.held.number ≡ number)) }
    ensures here { IfSome result (AreFieldsOf s.old.shape) }
    ensures stays { Stays s.old s.new }
    ensures scans { s.new.local.stand.scans ≡ s.old.local.stand.scans }
{
    match look(s, number) {
        None => None,
        Some(held) => Some(fields(s, held)),
    }
}

/// Follows references from an object: reads the word of each, and looks its object up.
fn follow(s: &mut Section<'_>, object: HeldFields, hops: &[Hop]) -> Option<HeldFields>
    requires idle { s.old.local.stand.phase ≡ Idle }
    requires good { IsHeld s.old object.held }
    requires here { AreFieldsOf s.old.shape object }
    requires fits { AllByRecursion FitsHop hops.now }
    ensures done { DoesSome s.old s.new (Follows s.old.shape object.held.number hops.now (option_map (λ last. last.held.number) result)) }
    ensures holds { IfSome result (λ last. IsHeld s.new last.held × AreFieldsOf s.old.shape last) }
    ensures stays { Stays s.old s.new }
    ensures scans { s.new.local.stand.scans ≡ s.old.local.stand.scans }
{
    let Some((hop, later)) = hops.split_first() else {
        return Some(object);
    };
    if !has_width(object, hop.width) {
        return None;
    }
    let word = read_at(s, object, hop.at);
    let Some(number) = Number::unpack(word) else {
        return None;
    };
    match find(s, number) {
        None => None,
        Some(next) => follow(s, next, later),
    }
}

/// Reads the words of a column that begins at place `at`, in order.
fn read_column(s: &mut Section<'_>, object: HeldFields, at: u32, words: &mut [u64])
    requires idle { s.old.local.stand.phase ≡ Idle }
    requires good { IsHeld s.old object.held }
    requires here { AreFieldsOf s.old.shape object }
    requires within { at + length words.old ≤ width_of s.old.shape object.held.number.coll }
    requires small { at + length words.old < 2 ^ 32 }
    ensures done { Does s.old s.new (reads_all object.held.number at words.new) }
    ensures long { length words.new ≡ length words.old }
    ensures stays { Stays s.old s.new }
    ensures scans { s.new.local.stand.scans ≡ s.old.local.stand.scans }
{
    let Some((word, later)) = words.split_first_mut() else {
        return;
    };
    *word = read_at(s, object, at);
    read_column(s, object, at + 1, later);
}

/// Reads the words of a leaf: follows its path, and reads its column. Answers whether they are there.
fn read_leaf(s: &mut Section<'_>, object: HeldFields, leaf: &Leaf, words: &mut [u64]) -> bool
    requires idle { s.old.local.stand.phase ≡ Idle }
    requires good { IsHeld s.old object.held }
    requires here { AreFieldsOf s.old.shape object }
    requires fits { FitsRecord leaf.now }
    requires long { length words.old ≡ columns.width_of leaf.now.kind }
    ensures done { DoesSome s.old s.new (ReadsLeaf s.old.shape object.held.number leaf.now (if result then Some words.new else None)) }
    ensures stays { Stays s.old s.new }
    ensures scans { s.new.local.stand.scans ≡ s.old.local.stand.scans }
{
    let Some(last) = follow(s, object, leaf.hops.as_slice()) else {
        return false;
    };
    if !has_width(last, leaf.width) {
        return false;
    }
    read_column(s, last, leaf.at, words);
    true
}

/// Reads the row of an object by its fields, leaf by leaf. Answers whether it is whole.
fn read_leaves(s: &mut Section<'_>, object: HeldFields, leaves: &[Leaf], row: &mut [u64]) -> bool
    requires idle { s.old.local.stand.phase ≡ Idle }
    requires good { IsHeld s.old object.held }
    requires here { AreFieldsOf s.old.shape object }
    requires fits { AllByRecursion FitsRecord leaves.now }
    requires long { length row.old ≡ leaves_words leaves.now }
    ensures done { DoesSome s.old s.new (RowOfVisit s.old.shape object.held.number leaves.now (if result then Some row.new else None)) }
    ensures stays { Stays s.old s.new }
    ensures scans { s.new.local.stand.scans ≡ s.old.local.stand.scans }
{
    let Some((leaf, later)) = leaves.split_first() else {
        return true;
    };
    let (words, rest) = row.split_at_mut(leaf.kind.width() as usize);
    if !read_leaf(s, object, leaf, words) {
        return false;
    }
    read_leaves(s, object, later, rest)
}

/// Reads the row of an object, leaf by leaf. Answers whether it is whole; where it is not, the words say nothing.
///
/// It is not whole where a reference on a path is null, or its object is not here.
pub fn read_row(s: &mut Section<'_>, held: Held, leaves: &[Leaf], row: &mut [u64]) -> bool
    requires idle { s.old.local.stand.phase ≡ Idle }
    requires good { IsHeld s.old held }
    requires fits { AllByRecursion FitsRecord leaves.now }
    requires long { length row.old ≡ leaves_words leaves.now }
    ensures done { DoesSome s.old s.new (RowOfVisit s.old.shape held.number leaves.now (if result then Some row.new else None)) }
    ensures stays { Stays s.old s.new }
    ensures scans { s.new.local.stand.scans ≡ s.old.local.stand.scans }
{
    let object = fields(s, held);
    read_leaves(s, object, leaves, row)
}
