//! Edits of the objects of a collection, each as is decided by its row.
ghost use Rattle.std.specs.Prelude.{◌≡◌, ℕ, ◌+◌, ◌-◌, ◌^◌, ◌<◌, ◌≤◌, ◌++◌, List, Option, length};
ghost use Rattle.std.specs.List.{AllByRecursion};
ghost use Rattle.smc_shape.specs.Layout.{width_of};
ghost use Rattle.smc_core.specs.declared.phase.Phase.TheVariants.{Idle};
ghost use Rattle.smc_region.specs.Callers.{IsPassOf, IsSame};
ghost use Rattle.smc_trace.specs.Trace.{CallEnd};
ghost use Rattle.smc_does.specs.Does.{Does, DoesSome, IsHeld, Stays};
ghost use Rattle.smc_objects.specs.Alone.{InSection};
ghost use Rattle.smc_plan.specs.Leaves.{leaves_words};
ghost use Rattle.smc_visits.specs.Rows.{FitsRecord, RowOfVisit};
ghost use Rattle.smc_visits.specs.Edits.{AreFew, EditsRows, FitsEdit, edit_calls, edit_of, with_edit};

use crate::row::read_row;
use smc_objects::{Scan, remove, write};
use smc_plan::Leaf;
use smc_region::{Held, Pass, Region, Section};

/// What is done with an object behind its row.
#[derive(Clone, Copy, Debug, PartialEq, Eq)]
pub enum Edit {
    /// Nothing: the row is not kept.
    Leave,
    /// The object is removed.
    Remove,
    /// The word is written into the field.
    Write { field: u32, value: u64 },
    /// Nothing, though the row is kept: there is no word for the value.
    Skip,
}

/// What decides by the row of an object how it is edited.
pub trait DecideEdit {
    ghost use Rattle.smc_visits.specs.declared.edits.Edit.{Edit};

    // How many words each row has.
    ghost words: { Self → ℕ };

    // The fields below this one may be written.
    ghost width: { Self → ℕ };

    // What is decided by a row.
    ghost edit: { Self → List ℕ → Edit };

    /// Decides by this row.
    fn decide(&self, row: &[u64]) -> Edit
        requires long { length row.now ≡ words self.now }
        ensures edit { result ≡ edit self.now row.now }
        ensures fits { FitsEdit (width self.now) result };
}

/// How many objects were edited.
#[derive(Clone, Copy, Debug, PartialEq, Eq)]
pub struct Edits {
    /// The objects that were removed by these edits, and not before.
    pub removed: u64,
    /// The words that were written.
    pub written: u64,
    /// The rows that were kept, and their objects left.
    pub skipped: u64,
}

impl Edits {
    /// The counts with that of one edit more.
    fn with(self, edit: Edit, first: bool) -> Edits
        requires few { AreFew self (2 ^ 32) }
        ensures { result ≡ with_edit self edit first }
    {
        match edit {
            Edit::Leave => self,
            Edit::Remove => Edits {
                removed: self.removed + u64::from(first),
                ..self
            },
            Edit::Write { .. } => Edits {
                written: self.written + 1,
                ..self
            },
            Edit::Skip => Edits {
                skipped: self.skipped + 1,
                ..self
            },
        }
    }
}

/// Edits an object. Answers whether it was removed, and not before.
fn apply(s: &mut Section<'_>, held: Held, edit: Edit) -> bool
    requires idle { s.old.local.stand.phase ≡ Idle }
    requires good { IsHeld s.old held }
    requires fits { FitsEdit (width_of s.old.shape held.number.coll) edit }
    ensures done { Does s.old s.new (edit_calls held.number edit result) }
    ensures stays { Stays s.old s.new }
    ensures scans { s.new.local.stand.scans ≡ s.old.local.stand.scans }
{
    match edit {
        Edit::Leave | Edit::Skip => false,
        Edit::Remove => remove(s, held),
        Edit::Write { field, value } => {
            write(s, held, field, value);
            false
        }
    }
}

/// Reads the row of an object, and edits it as is decided by that. Answers the edit, and whether it was removed, and not before.
fn edit_one<E: DecideEdit>(
    s: &mut Section<'_>,
    held: Held,
    leaves: &[Leaf],
    row: &mut [u64],
    by: &E,
) -> (Edit, bool)
    requires idle { s.old.local.stand.phase ≡ Idle }
    requires good { IsHeld s.old held }
    requires fits { AllByRecursion FitsRecord leaves.now }
    requires long { length row.old ≡ leaves_words leaves.now }
    requires words { leaves_words leaves.now ≡ E.words by.now }
    requires width { E.width by.now ≤ width_of s.old.shape held.number.coll }
    ensures done { (got : Option (List ℕ)) × (calls : List CallEnd) × RowOfVisit s.old.shape held.number leaves.now got calls
        × (result.0 ≡ edit_of (E.edit by.now) got) × Does s.old s.new (calls ++ edit_calls held.number result.0 result.1) }
    ensures stays { Stays s.old s.new }
    ensures scans { s.new.local.stand.scans ≡ s.old.local.stand.scans }
{
    if !read_row(s, held, leaves, row) {
        return (Edit::Leave, false);
    }
    let edit = by.decide(row);
    (edit, apply(s, held, edit))
}

/// Edits the objects that a scan of the collection `c` comes to.
fn edit_all<E: DecideEdit>(
    s: &mut Section<'_>,
    c: u8,
    leaves: &[Leaf],
    row: &mut [u64],
    by: &E,
) -> Edits
    requires idle { s.old.local.stand.phase ≡ Idle }
    requires coll { c < length s.old.shape.colls }
    requires room { length s.old.local.stand.scans < 2 ^ 32 - 1 }
    requires fits { AllByRecursion FitsRecord leaves.now }
    requires long { length row.old ≡ leaves_words leaves.now }
    requires words { leaves_words leaves.now ≡ E.words by.now }
    requires width { E.width by.now ≤ width_of s.old.shape c }
    ensures done { DoesSome s.old s.new (EditsRows s.old.shape c leaves.now (E.edit by.now) result) }
    ensures idle { s.new.local.stand.phase ≡ Idle }
{
    let slots = s.region().shape().slots(c);
    let mut scan = Scan::begin(s, c);
    let mut edits = Edits {
        removed: 0,
        written: 0,
        skipped: 0,
    };
    loop {
        let Some(met) = scan.next(s) else {
            return edits;
        };
        let (edit, first) = edit_one(s, met, leaves, row, by);
        edits = edits.with(edit, first);
    }
}

/// Scans the collection `c` to its end, in a section of its own, and edits each object whose row is whole as `by` decides.
/// Each row is read into `row`, which has a place for each word of the leaves. Answers how many objects were edited.
pub fn edit_rows<E: DecideEdit>(
    pass: Pass,
    region: &Region,
    c: u8,
    leaves: &[Leaf],
    row: &mut [u64],
    by: &E,
) -> (Pass, Edits)
    requires here { IsPassOf region.now pass }
    requires coll { c < length pass.shape.colls }
    requires fits { AllByRecursion FitsRecord leaves.now }
    requires long { length row.old ≡ leaves_words leaves.now }
    requires words { leaves_words leaves.now ≡ E.words by.now }
    requires width { E.width by.now ≤ width_of pass.shape c }
    ensures done { DoesSome pass result.0 (InSection (EditsRows pass.shape c leaves.now (E.edit by.now) result.1)) }
    ensures home { IsSame pass result.0 }
{
    let mut section = pass.enter(region);
    let edits = edit_all(&mut section, c, leaves, row, by);
    (section.leave(), edits)
}
