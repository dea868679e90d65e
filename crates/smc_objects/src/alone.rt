//! Calls that open a section of their own, as scripts use them.
ghost use Rattle.std.specs.Prelude.{◌≡◌, ◌-◌, ◌^◌, ◌<◌, IfOk, IsTrue, length};
ghost use Rattle.smc_words.specs.Number.{FitsNumber};
ghost use Rattle.smc_words.specs.declared.layout.TheConstants.{BLANK};
ghost use Rattle.smc_shape.specs.Layout.{width_of};
ghost use Rattle.smc_core.specs.declared.phase.Phase.TheVariants.{Idle};
ghost use Rattle.smc_core.specs.Add.{has_no_blank};
ghost use Rattle.smc_region.specs.Callers.{IsPassOf, IsSame};
ghost use Rattle.smc_does.specs.Does.{Does, DoesSome, IsHeld, Stays};
ghost use Rattle.smc_objects.specs.Alone.{AddsRow, AdvancesThrice, CountsObjects, InSection, ReadsObject, RemovesObject, SetsField, TriesAdd, reads_all};

use crate::adding::{Full, add};
use crate::field::{read, write};
use crate::removal::remove;
use crate::scan::Scan;
use smc_region::{Held, Pass, Region, Section};
use smc_words::Number;

/// One try to add an object of these words.
fn try_one(pass: Pass, region: &Region, c: u8, words: &[u64]) -> (Pass, Result<Number, Full>)
    requires here { IsPassOf region.now pass }
    requires coll { c < length pass.shape.colls }
    requires width { length words.now ≡ width_of pass.shape c }
    requires values { IsTrue (has_no_blank words.now) }
    ensures done { DoesSome pass result.0 (InSection (TriesAdd c words.now result.1)) }
    ensures home { IsSame pass result.0 }
    ensures number { IfOk result.1 (λ number. FitsNumber number × (number.coll ≡ c)) }
{
    let mut section = pass.enter(region);
    let answer = add(&mut section, c, words);
    (section.leave(), answer)
}

/// Three advances, behind which what was left before them may be used again if no section stands in the way.
fn advance_thrice(pass: &mut Pass, region: &Region)
    requires here { IsPassOf region.now pass.old }
    ensures done { DoesSome pass.old pass.new AdvancesThrice }
    ensures home { IsSame pass.old pass.new }
{
    pass.advance(region);
    pass.advance(region);
    pass.advance(region);
}

/// Adds an object of these words. Where a first try is refused the pass advances three times and tries once more.
///
/// # Errors
/// The second try was refused too.
pub fn add_one(pass: Pass, region: &Region, c: u8, words: &[u64]) -> (Pass, Result<Number, Full>)
    requires here { IsPassOf region.now pass }
    requires coll { c < length pass.shape.colls }
    requires width { length words.now ≡ width_of pass.shape c }
    requires values { IsTrue (has_no_blank words.now) }
    ensures done { DoesSome pass result.0 (AddsRow c words.now result.1) }
    ensures home { IsSame pass result.0 }
    ensures number { IfOk result.1 (λ number. FitsNumber number × (number.coll ≡ c)) }
{
    let (mut pass, answer) = try_one(pass, region, c, words);
    match answer {
        Ok(number) => (pass, Ok(number)),
        Err(_) => {
            advance_thrice(&mut pass, region);
            try_one(pass, region, c, words)
        }
    }
}

/// Reads the fields of an object that the section holds, in order.
fn read_fields(s: &mut Section<'_>, held: Held, width: u32, words: &mut [u64])
    requires idle { s.old.local.stand.phase ≡ Idle }
    requires good { IsHeld s.old held }
    requires width { width ≡ width_of s.old.shape held.number.coll }
    requires long { length words.old ≡ width }
    ensures done { Does s.old s.new (reads_all held.number 0 words.new) }
    ensures stays { Stays s.old s.new }
{
    for field in 0..width {
        words[field as usize] = read(s, held, field);
    }
}

/// Looks the object up, and reads its fields where it is here. Answers whether it was.
fn read_found(s: &mut Section<'_>, number: Number, words: &mut [u64]) -> bool
    requires idle { s.old.local.stand.phase ≡ Idle }
    requires coll { number.coll < length s.old.shape.colls }
    requires long { length words.old ≡ width_of s.old.shape number.coll }
    ensures done { DoesSome s.old s.new (ReadsObject number result words.new) }
    ensures idle { s.new.local.stand.phase ≡ Idle }
{
    let Some(held) = s.deref(number) else {
        return false;
    };
    let width = s.region().shape().width(number.coll);
    read_fields(s, held, width, words);
    true
}

/// Reads the fields of the object into these words. Answers whether it was here; where it was not, the words say nothing.
pub fn read_one(pass: Pass, region: &Region, number: Number, words: &mut [u64]) -> (Pass, bool)
    requires here { IsPassOf region.now pass }
    requires coll { number.coll < length pass.shape.colls }
    requires long { length words.old ≡ width_of pass.shape number.coll }
    ensures done { DoesSome pass result.0 (InSection (ReadsObject number result.1 words.new)) }
    ensures home { IsSame pass result.0 }
{
    let mut section = pass.enter(region);
    let found = read_found(&mut section, number, words);
    (section.leave(), found)
}

/// Looks the object up, and writes a field where it is here. Answers whether it was.
fn write_found(s: &mut Section<'_>, number: Number, field: u32, value: u64) -> bool
    requires idle { s.old.local.stand.phase ≡ Idle }
    requires field { field < width_of s.old.shape number.coll }
    requires value { value < BLANK }
    ensures done { DoesSome s.old s.new (SetsField number field value result) }
    ensures idle { s.new.local.stand.phase ≡ Idle }
{
    let Some(held) = s.deref(number) else {
        return false;
    };
    write(s, held, field, value);
    true
}

/// Writes a field of the object. Answers whether it was here.
pub fn set_one(pass: Pass, region: &Region, number: Number, field: u32, value: u64) -> (Pass, bool)
    requires here { IsPassOf region.now pass }
    requires field { field < width_of pass.shape number.coll }
    requires value { value < BLANK }
    ensures done { DoesSome pass result.0 (InSection (SetsField number field value result.1)) }
    ensures home { IsSame pass result.0 }
{
    let mut section = pass.enter(region);
    let found = write_found(&mut section, number, field, value);
    (section.leave(), found)
}

/// Looks the object up, and removes it where it is here. Answers whether this call removed it.
fn remove_found(s: &mut Section<'_>, number: Number) -> bool
    requires idle { s.old.local.stand.phase ≡ Idle }
    ensures done { DoesSome s.old s.new (RemovesObject number result) }
    ensures idle { s.new.local.stand.phase ≡ Idle }
{
    let Some(held) = s.deref(number) else {
        return false;
    };
    remove(s, held)
}

/// Removes the object. Answers whether this call removed it, and no call before it.
pub fn remove_one(pass: Pass, region: &Region, number: Number) -> (Pass, bool)
    requires here { IsPassOf region.now pass }
    ensures done { DoesSome pass result.0 (InSection (RemovesObject number result.1)) }
    ensures home { IsSame pass result.0 }
{
    let mut section = pass.enter(region);
    let gone = remove_found(&mut section, number);
    (section.leave(), gone)
}

/// Counts the objects that a scan comes to.
fn count(s: &mut Section<'_>, c: u8) -> u64
    requires idle { s.old.local.stand.phase ≡ Idle }
    requires coll { c < length s.old.shape.colls }
    requires room { length s.old.local.stand.scans < 2 ^ 32 - 1 }
    ensures done { DoesSome s.old s.new (CountsObjects c result) }
    ensures idle { s.new.local.stand.phase ≡ Idle }
{
    let slots = s.region().shape().slots(c);
    let mut scan = Scan::begin(s, c);
    let mut count = 0u64;
    loop {
        let Some(_met) = scan.next(s) else {
            return count;
        };
        count += 1;
    }
}

/// Counts the objects of the collection `c`, by a scan.
pub fn count_objects(pass: Pass, region: &Region, c: u8) -> (Pass, u64)
    requires here { IsPassOf region.now pass }
    requires coll { c < length pass.shape.colls }
    ensures done { DoesSome pass result.0 (InSection (CountsObjects c result.1)) }
    ensures home { IsSame pass result.0 }
{
    let mut section = pass.enter(region);
    let objects = count(&mut section, c);
    (section.leave(), objects)
}
