//! The rows of the objects of a collection, by a scan in a section of its own.
ghost use Rattle.std.specs.Prelude.{◌≡◌, ℕ, ◌-◌, ◌^◌, ◌<◌, ◌++◌, [], ◌∷◌, List, Option, OnOk, length, option_to_list};
ghost use Rattle.std.specs.List.{AllByRecursion};
ghost use Rattle.smc_core.specs.declared.phase.Phase.TheVariants.{Idle};
ghost use Rattle.smc_region.specs.Callers.{IsPassOf, IsSame};
ghost use Rattle.smc_trace.specs.Trace.{CallEnd};
ghost use Rattle.smc_does.specs.Does.{Does, DoesSome, IsHeld, OwnsNone, Stays};
ghost use Rattle.smc_objects.specs.Alone.{InSection};
ghost use Rattle.smc_plan.specs.Leaves.{leaves_words};
ghost use Rattle.smc_visits.specs.Rows.{FitsRecord, RowOfVisit};
ghost use Rattle.smc_visits.specs.Visits.{TakesRows};

use crate::row::read_row;
use smc_objects::Scan;
use smc_plan::Leaf;
use smc_region::{Held, Pass, Region, Section};
use smc_words::NoMemory;

/// What takes the rows of a scan, one after another.
pub trait TakeRow {
    // How many words each row has.
    ghost words: { Self → ℕ };

    // What is known of it whichever rows it takes.
    ghost About: { Type 0 };

    ghost about: { Self → About };

    // It has taken these rows, in this order.
    ghost has: { Self → List (List ℕ) → Type 0 };

    /// Takes one row more.
    ///
    /// # Errors
    /// Memory was refused. Of what was taken nothing is said.
    fn take(&mut self, row: &[u64]) -> Result<(), NoMemory>
        requires long { length row.now ≡ words self.old }
        ensures taken { (rows : List (List ℕ)) → has self.old rows → OnOk result (has self.new (rows ++ row.now ∷ [])) }
        ensures words { words self.new ≡ words self.old }
        ensures about { about self.new ≡ about self.old };
}

/// Reads the row of an object, which is taken if it is whole.
fn take_row<T: TakeRow>(
    s: &mut Section<'_>,
    held: Held,
    leaves: &[Leaf],
    row: &mut [u64],
    rows: &mut T,
) -> Result<(), NoMemory>
    requires idle { s.old.local.stand.phase ≡ Idle }
    requires good { IsHeld s.old held }
    requires fits { AllByRecursion FitsRecord leaves.now }
    requires long { length row.old ≡ leaves_words leaves.now }
    requires words { leaves_words leaves.now ≡ T.words rows.old }
    ensures done { OnOk result ((got : Option (List ℕ)) × DoesSome s.old s.new (RowOfVisit s.old.shape held.number leaves.now got)
        × ((before : List (List ℕ)) → T.has rows.old before → T.has rows.new (before ++ option_to_list got))) }
    ensures does { (calls : List CallEnd) × Does s.old s.new calls }
    ensures stays { Stays s.old s.new }
    ensures scans { s.new.local.stand.scans ≡ s.old.local.stand.scans }
    ensures words { T.words rows.new ≡ T.words rows.old }
    ensures about { T.about rows.new ≡ T.about rows.old }
{
    if !read_row(s, held, leaves, row) {
        return Ok(());
    }
    rows.take(row)?;
    Ok(())
}

/// Takes the rows of the objects that a scan of the collection `c` comes to.
fn take_rows<T: TakeRow>(
    s: &mut Section<'_>,
    c: u8,
    leaves: &[Leaf],
    row: &mut [u64],
    rows: &mut T,
) -> Result<(), NoMemory>
    requires idle { s.old.local.stand.phase ≡ Idle }
    requires coll { c < length s.old.shape.colls }
    requires room { length s.old.local.stand.scans < 2 ^ 32 - 1 }
    requires fits { AllByRecursion FitsRecord leaves.now }
    requires long { length row.old ≡ leaves_words leaves.now }
    requires words { leaves_words leaves.now ≡ T.words rows.old }
    ensures done { OnOk result (DoesSome s.old s.new (TakesRows s.old.shape c leaves.now (T.has rows.old) (T.has rows.new))) }
    ensures does { (calls : List CallEnd) × Does s.old s.new calls }
    ensures idle { s.new.local.stand.phase ≡ Idle }
    ensures about { T.about rows.new ≡ T.about rows.old }
{
    let slots = s.region().shape().slots(c);
    let mut scan = Scan::begin(s, c);
    loop {
        let Some(met) = scan.next(s) else {
            return Ok(());
        };
        take_row(s, met, leaves, row, rows)?;
    }
}

/// Scans the collection `c` to its end, in a section of its own, and hands each whole row to `rows`. Each row is read into
/// `row`, which has a place for each word of the leaves.
///
/// # Errors
/// Memory was refused by `rows`. The pass is outside, and of the rows nothing is said.
pub fn scan_rows<T: TakeRow>(
    pass: Pass,
    region: &Region,
    c: u8,
    leaves: &[Leaf],
    row: &mut [u64],
    rows: &mut T,
) -> (Pass, Result<(), NoMemory>)
    requires here { IsPassOf region.now pass }
    requires coll { c < length pass.shape.colls }
    requires fits { AllByRecursion FitsRecord leaves.now }
    requires long { length row.old ≡ leaves_words leaves.now }
    requires words { leaves_words leaves.now ≡ T.words rows.old }
    ensures done { OnOk result.1 (DoesSome pass result.0 (InSection (TakesRows pass.shape c leaves.now (T.has rows.old) (T.has rows.new)))) }
    ensures home { IsSame pass result.0 }
    ensures free { OwnsNone pass → OwnsNone result.0 }
    ensures about { T.about rows.new ≡ T.about rows.old }
{
    let mut section = pass.enter(region);
    let done = take_rows(&mut section, c, leaves, row, rows);
    (section.leave(), done)
}
