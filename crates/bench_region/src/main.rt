//! A bench, which `bench/act.sh` reads: enters and leaves a section, and loads the fields of an object, so many times that
//! the machine code of both loops can be timed and counted.
//!
//! With `sections` it does the first ten million times, with another word the second; with none each a thousand times.
//! Nothing stands on it.
#![tactic(auto)]

ghost use Rattle.std.specs.Prelude.{◌≡◌, ◌<◌, ◌^◌, ◌∷◌, [], IsTrue, IfOk, Some, length};
ghost use Rattle.smc_shape.specs.Layout.{asked, width_of};
ghost use Rattle.smc_shape.specs.Places.{at};
ghost use Rattle.smc_shape.specs.declared.place.Place.TheVariants.{Field};
ghost use Rattle.smc_core.specs.declared.phase.Phase.TheVariants.{Idle, Add};
ghost use Rattle.smc_core.specs.declared.phase.objects.AddPhase.TheVariants.{FindEntry, StoreBack};
ghost use Rattle.smc_core.specs.Add.{takes};
ghost use Rattle.smc_core.specs.Offer.{held_slot};
ghost use Rattle.smc_rules.specs.Reads.{object};
ghost use Rattle.smc_region.specs.Callers.{IsPassOf, IsSame};

use smc_core::{Kind, Op, Opening, State, Word};
use smc_region::{Act, Chosen, Held, Pass, Region, Section};
use smc_shape::{CollShape, Place, Shape};
use smc_words::{Dir, Number};
use std::alloc::{AllocError, Global};
use std::env;

/// Enters and leaves so many times.
#[inline(never)]
fn enter_and_leave(region: &Region, pass: Pass, turns: u32) -> Pass
    requires { IsPassOf region.now pass }
    ensures { IsPassOf region.now result }
{
    let mut pass = pass;
    for _ in 0..turns {
        pass = pass.enter(region).leave();
    }
    pass
}

/// The sum of the fields of an object that the section holds, each loaded so many times by the index of its word, so many
/// strides behind that of the first one.
#[inline(never)]
fn read_fields(section: &mut Section<'_>, held: Held, first: usize, width: u32, turns: u32) -> u64
    requires idle { section.old.local.stand.phase ≡ Idle }
    requires held { held_slot section.old.local.stand.held held.number ≡ Some held.place }
    requires first { first ≡ at section.old.shape (Field held.number.coll held.place 0) }
    requires small { first < 2 ^ 32 }
    requires width { width ≡ width_of section.old.shape held.number.coll }
    ensures same { IsSame section.old section.new }
    ensures idle { section.new.local.stand.phase ≡ Idle }
    ensures held { held_slot section.new.local.stand.held held.number ≡ Some held.place }
{
    let number = held.number();
    let stride = Shape::field_stride();
    let mut sum = 0u64;
    let _ = section.calm();
    for _ in 0..turns {
        for field in 0..width {
            let load = Act {
                kind: Kind::LoadField,
                word: first + field as usize * stride,
                expect: 0,
                put: 0,
            };
            let value = section.act(Chosen::Read { number, field }, load);
            sum = sum.wrapping_add(value);
        }
    }
    sum
}

/// Starts the add of a region's first object. Answers whether it has claimed the first slot.
fn claim_first_slot(section: &mut Section<'_>, words: &[u64]) -> bool
    requires idle { section.old.local.stand.phase ≡ Idle }
    requires takes { IsTrue (takes section.old.shape 0 0 words.now) }
    ensures same { IsSame section.old section.new }
    ensures claimed { IsTrue result → section.new.local.stand.phase ≡ Add (FindEntry 0 0 0 0) }
    ensures words { IsTrue result → section.new.local.stand.words ≡ words.now }
{
    let place = Place::Directory { coll: 0, slot: 0 };
    let free = Word::Directory(Dir::Free);
    let add = Chosen::Add {
        coll: 0,
        from: 0,
        words,
    };
    let _ = section.calm();
    if !section.take(add, Op::Load { place }).same(free) {
        return false;
    }
    let claim = Op::Exchange {
        place,
        expect: free,
        put: Word::Directory(Dir::Claimed),
    };
    section.take(Chosen::Go, claim).same(free)
}

/// Goes on with that add. Answers whether it has claimed the first entry.
fn claim_first_entry(section: &mut Section<'_>) -> bool
    requires claimed { section.old.local.stand.phase ≡ Add (FindEntry 0 0 0 0) }
    ensures same { IsSame section.old section.new }
    ensures claimed { IsTrue result → section.new.local.stand.phase ≡ Add (StoreBack 0 (object 1 0 0)) }
    ensures words { IsTrue result → section.new.local.stand.words ≡ section.old.local.stand.words }
{
    let place = Place::Entry { coll: 0, entry: 0 };
    let blank = Word::Entry(State::Free {
        incarnation: 0,
        stamp: 0,
    });
    let _ = section.calm();
    if section.epoch() < 2 || !section.take(Chosen::Go, Op::Load { place }).same(blank) {
        return false;
    }
    let claim = Op::Exchange {
        place,
        expect: blank,
        put: Word::Entry(State::Claimed { incarnation: 1 }),
    };
    section.take(Chosen::Go, claim).same(blank)
}

/// Starts the add of a region's first object. Answers whether it has claimed the first slot and the first entry.
fn claim_first(section: &mut Section<'_>, words: &[u64]) -> bool
    requires idle { section.old.local.stand.phase ≡ Idle }
    requires takes { IsTrue (takes section.old.shape 0 0 words.now) }
    ensures same { IsSame section.old section.new }
    ensures claimed { IsTrue result → section.new.local.stand.phase ≡ Add (StoreBack 0 (object 1 0 0)) }
    ensures words { IsTrue result → section.new.local.stand.words ≡ words.now }
{
    claim_first_slot(section, words) && claim_first_entry(section)
}

/// Goes on with that add to its end.
fn store_first(section: &mut Section<'_>, words: &[u64])
    requires claimed { section.old.local.stand.phase ≡ Add (StoreBack 0 (object 1 0 0)) }
    requires words { section.old.local.stand.words ≡ words.now }
    requires width { length words.now ≡ width_of section.old.shape 0 }
    ensures same { IsSame section.old section.new }
    ensures idle { section.new.local.stand.phase ≡ Idle }
{
    let number = Number {
        incarnation: 1,
        entry: 0,
        coll: 0,
    };
    let _ = section.calm();
    let own = Op::Store {
        place: Place::Back { coll: 0, slot: 0 },
        word: Word::Back(Some(number)),
    };
    section.take(Chosen::Go, own);
    let mut field = 0;
    for word in words {
        let store = Op::Store {
            place: Place::Field {
                coll: 0,
                slot: 0,
                field,
            },
            word: Word::Plain(*word),
        };
        section.take(Chosen::Go, store);
        field += 1;
    }
    let valid = Op::Store {
        place: Place::Directory { coll: 0, slot: 0 },
        word: Word::Directory(Dir::Valid),
    };
    section.take(Chosen::Go, valid);
    let live = Op::Store {
        place: Place::Entry { coll: 0, entry: 0 },
        word: Word::Entry(State::Present {
            incarnation: 1,
            slot: 0,
        }),
    };
    section.take(Chosen::Go, live);
}

/// Opens a region of two passes and one collection of 64 slots and 8 fields, and gives its last pass.
fn open(alloc: Global) -> Result<(Region, Pass), AllocError>
    ensures { IfOk result (λ opened. IsPassOf opened.0 opened.1
        × (opened.0.about.shape ≡ asked 2 (record { width = 8; slots = 64 } ∷ []))) }
{
    let colls = Vec::from_slice(
        alloc,
        &[CollShape {
            width: 8,
            slots: 64,
        }],
    )?;
    let Ok(shape) = Shape::new(2, colls) else {
        return Err(AllocError);
    };
    let Ok((region, mut passes)) = Region::open(alloc, shape, Opening::plain()) else {
        return Err(AllocError);
    };
    let Some(pass) = passes.pop() else {
        return Err(AllocError);
    };
    Ok((region, pass))
}

/// Reads an object of the words 0 to 7 so many times, and answers the sum.
fn add_and_read(region: &Region, pass: Pass, turns: u32) -> Option<u64>
    requires here { IsPassOf region.now pass }
    requires shape { region.now.about.shape ≡ asked 2 (record { width = 8; slots = 64 } ∷ []) }
{
    let words = [0, 1, 2, 3, 4, 5, 6, 7];
    let mut section = pass.enter(region);
    if !claim_first(&mut section, &words) {
        return None;
    }
    store_first(&mut section, &words);
    let number = Number {
        incarnation: 1,
        entry: 0,
        coll: 0,
    };
    let held = section.deref(number)?;
    let field = Op::Load {
        place: Place::Field {
            coll: 0,
            slot: held.place(),
            field: 0,
        },
    };
    section.take(Chosen::Read { number, field: 0 }, field);
    let shape = section.region().shape();
    let (first, width) = (shape.field_at(0, held.place(), 0), shape.width(0));
    if first >= 1 << 32 {
        return None;
    }
    Some(read_fields(&mut section, held, first, width, turns))
}

fn main(rt: HostRuntime) -> Result<(), AllocError> {
    let Ok(mut words) = env::args(&rt) else {
        return Err(AllocError);
    };
    let (sections, turns) = match words.nth(1) {
        None => (1_000, 1_000),
        Some(what) if what.as_str() == "sections" => (10_000_000, 0),
        Some(_) => (0, 10_000_000),
    };
    let (region, pass) = open(rt.alloc())?;
    let pass = enter_and_leave(&region, pass, sections);
    match add_and_read(&region, pass, turns) {
        Some(sum) if sum == u64::from(turns) * 28 => Ok(()),
        _ => Err(AllocError),
    }
}
