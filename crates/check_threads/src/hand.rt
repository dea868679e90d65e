//! The calls of one thread, on objects of its own and on those that it meets.
ghost use Rattle.std.specs.Prelude.{◌≡◌, ◌≢◌, ◌<◌, ◌≤◌, ◌-◌, ◌^◌, length};
ghost use Rattle.smc_shape.specs.Layout.{width_of};
ghost use Rattle.smc_core.specs.declared.phase.Phase.TheVariants.{Idle};
ghost use Rattle.smc_region.specs.Callers.{IsPassOf, IsSame};
ghost use Rattle.smc_does.specs.Does.{Stays};

use crate::replay::Made;
use smc_model::{Event, Record};
use smc_objects::{Scan, add_one, read, read_one, remove_one, set_one};
use smc_region::{Pass, Region, Section};
use smc_words::{NoMemory, Number};
use std::alloc::Global;
use std::sync::atomic::{AtomicU64, Ordering};

/// What a thread knows, and what it has done.
#[derive(Drop)]
pub struct Hand {
    alloc: Global,
    /// What was drawn last.
    drawn: u64,
    /// How many words it has made up, each another one.
    words: u32,
    /// The objects that it has added.
    own: Vec<Number>,
    /// Those that it has met in its latest scan.
    met: Vec<Number>,
    made: Vec<Made>,
}

impl Hand {
    /// A thread that has done nothing; what it is to do is drawn from `seed` on.
    pub fn new(alloc: Global, seed: u64) -> Hand {
        Hand {
            alloc,
            drawn: seed,
            words: 0,
            own: Vec::new(alloc),
            met: Vec::new(alloc),
            made: Vec::new(alloc),
        }
    }

    /// What it has done.
    pub fn into_made(self) -> Vec<Made> {
        let Hand { made, .. } = self;
        made
    }

    /// A number below this one.
    fn draw(&mut self, below: usize) -> usize
        requires { 0 < below }
        ensures { result < below }
    {
        self.drawn = self
            .drawn
            .wrapping_mul(0x5851_f42d_4c95_7f2d)
            .wrapping_add(0x1405_7b7e_f767_814f);
        (self.drawn >> 33) as usize % below
    }

    /// A word that it has not made up before.
    fn word(&mut self) -> u64
        ensures { result < 2 ^ 32 }
    {
        self.words = self.words.wrapping_add(1);
        u64::from(self.words)
    }

    /// One of its own objects, or one of those that it met.
    fn pick(&mut self, own: bool) -> Option<Number> {
        let many = if own { self.own.len() } else { self.met.len() };
        if many == 0 {
            return None;
        }
        let at = self.draw(many);
        if own {
            self.own.get(at).copied()
        } else {
            self.met.get(at).copied()
        }
    }

    /// Notes what was told by a call between these two moments.
    fn note(&mut self, from: u64, until: u64, event: Event) -> Result<(), NoMemory> {
        self.made.push(Made { from, until, event })?;
        Ok(())
    }

    /// Notes an object that was added.
    fn note_added(
        &mut self,
        from: u64,
        until: u64,
        number: Number,
        word: u64,
    ) -> Result<(), NoMemory> {
        let words = Record::of(self.alloc, &[word])?;
        self.own.push(number)?;
        self.note(
            from,
            until,
            Event::Add {
                number,
                coll: number.coll,
                words,
            },
        )
    }

    /// Notes a look-up of an object, and what was said of it where it was here.
    fn note_found(
        &mut self,
        from: u64,
        until: u64,
        number: Number,
        here: bool,
        event: Event,
    ) -> Result<(), NoMemory> {
        self.note(from, until, Event::Look { number, here })?;
        if here {
            self.note(from, until, event)?;
        }
        Ok(())
    }

    /// Adds an object.
    fn add(
        &mut self,
        region: &Region,
        clock: &AtomicU64,
        pass: Pass,
    ) -> (Pass, Result<(), NoMemory>)
        requires here { IsPassOf region.now pass }
        requires coll { 0 < length region.now.about.shape.colls }
        requires width { width_of region.now.about.shape 0 ≡ 1 }
        ensures here { IsPassOf region.now result.0 × (result.0.number ≡ pass.number) }
    {
        let word = self.word();
        let from = clock.fetch_add(1, Ordering::SeqCst);
        let (pass, answer) = add_one(pass, region, 0, &[word]);
        let until = clock.fetch_add(1, Ordering::SeqCst);
        match answer {
            Ok(number) => (pass, self.note_added(from, until, number, word)),
            Err(_) => (pass, Ok(())),
        }
    }

    /// Writes the field of an object of its own.
    fn set(
        &mut self,
        region: &Region,
        clock: &AtomicU64,
        pass: Pass,
        number: Number,
    ) -> (Pass, Result<(), NoMemory>)
        requires here { IsPassOf region.now pass }
        requires coll { number.coll ≡ 0 }
        requires width { width_of region.now.about.shape 0 ≡ 1 }
        ensures here { IsPassOf region.now result.0 × (result.0.number ≡ pass.number) }
    {
        let value = self.word();
        let from = clock.fetch_add(1, Ordering::SeqCst);
        let (pass, here) = set_one(pass, region, number, 0, value);
        let until = clock.fetch_add(1, Ordering::SeqCst);
        let write = Event::Write {
            number,
            field: 0,
            value,
        };
        (pass, self.note_found(from, until, number, here, write))
    }

    /// Reads the field of an object.
    fn get(
        &mut self,
        region: &Region,
        clock: &AtomicU64,
        pass: Pass,
        number: Number,
    ) -> (Pass, Result<(), NoMemory>)
        requires here { IsPassOf region.now pass }
        requires coll { number.coll ≡ 0 }
        requires some { 0 < length region.now.about.shape.colls }
        requires width { width_of region.now.about.shape 0 ≡ 1 }
        ensures here { IsPassOf region.now result.0 × (result.0.number ≡ pass.number) }
    {
        let mut words = [0u64; 1];
        let from = clock.fetch_add(1, Ordering::SeqCst);
        let (pass, here) = read_one(pass, region, number, &mut words);
        let until = clock.fetch_add(1, Ordering::SeqCst);
        let read = Event::Read {
            number,
            field: 0,
            value: words[0],
        };
        (pass, self.note_found(from, until, number, here, read))
    }

    /// Removes an object. Where another thread was first, it is not here any more when the call ends.
    fn remove(
        &mut self,
        region: &Region,
        clock: &AtomicU64,
        pass: Pass,
        number: Number,
    ) -> (Pass, Result<(), NoMemory>)
        requires here { IsPassOf region.now pass }
        ensures here { IsPassOf region.now result.0 × (result.0.number ≡ pass.number) }
    {
        let from = clock.fetch_add(1, Ordering::SeqCst);
        let (pass, first) = remove_one(pass, region, number);
        let until = clock.fetch_add(1, Ordering::SeqCst);
        let remove = Event::Remove { number, first };
        (pass, self.note_found(from, until, number, first, remove))
    }

    /// Visits each object, and reads its field.
    fn visit(&mut self, s: &mut Section<'_>, clock: &AtomicU64) -> Result<(), NoMemory>
        requires idle { s.old.local.stand.phase ≡ Idle }
        requires coll { 0 < length s.old.shape.colls }
        requires width { width_of s.old.shape 0 ≡ 1 }
        requires room { length s.old.local.stand.scans < 2 ^ 32 - 1 }
        ensures same { IsSame s.old s.new }
        ensures idle { s.new.local.stand.phase ≡ Idle }
    {
        let slots = s.region().shape().slots(0);
        let mut scan = Scan::begin(s, 0);
        'visits: loop {
            let from = clock.fetch_add(1, Ordering::SeqCst);
            let Some(held) = scan.next(s) else {
                return Ok(());
            };
            let value = read(s, held, 0);
            let until = clock.fetch_add(1, Ordering::SeqCst);
            let number = held.number();
            let event = Event::Read {
                number,
                field: 0,
                value,
            };
            self.met.push(number)?;
            self.note_found(from, until, number, true, event)?;
        }
    }

    /// Visits each object in a section of its own.
    fn scan(
        &mut self,
        region: &Region,
        clock: &AtomicU64,
        pass: Pass,
    ) -> (Pass, Result<(), NoMemory>)
        requires here { IsPassOf region.now pass }
        requires coll { 0 < length region.now.about.shape.colls }
        requires width { width_of region.now.about.shape 0 ≡ 1 }
        ensures here { IsPassOf region.now result.0 × (result.0.number ≡ pass.number) }
    {
        self.met.clear();
        let mut section = pass.enter(region);
        let visited = self.visit(&mut section, clock);
        (section.leave(), visited)
    }

    /// Makes a call that has to do with an object which it knows.
    fn touch(
        &mut self,
        region: &Region,
        clock: &AtomicU64,
        pass: Pass,
        drawn: usize,
        number: Number,
    ) -> (Pass, Result<(), NoMemory>)
        requires here { IsPassOf region.now pass }
        requires coll { 0 < length region.now.about.shape.colls }
        requires width { width_of region.now.about.shape 0 ≡ 1 }
        ensures here { IsPassOf region.now result.0 × (result.0.number ≡ pass.number) }
    {
        if number.coll != 0 {
            return (pass, Ok(()));
        }
        match drawn {
            0 | 1 => self.remove(region, clock, pass, number),
            2 => self.set(region, clock, pass, number),
            _ => self.get(region, clock, pass, number),
        }
    }

    /// Makes one call.
    pub fn make(
        &mut self,
        region: &Region,
        clock: &AtomicU64,
        pass: Pass,
    ) -> (Pass, Result<(), NoMemory>)
        requires here { IsPassOf region.now pass }
        requires coll { 0 < length region.now.about.shape.colls }
        requires width { width_of region.now.about.shape 0 ≡ 1 }
        ensures here { IsPassOf region.now result.0 × (result.0.number ≡ pass.number) }
    {
        if self.draw(64) == 0 {
            return self.scan(region, clock, pass);
        }
        let drawn = self.draw(8);
        if drawn > 4 {
            return self.add(region, clock, pass);
        }
        match self.pick(drawn == 0 || drawn == 2) {
            Some(number) => self.touch(region, clock, pass, drawn, number),
            None => (pass, Ok(())),
        }
    }
}
