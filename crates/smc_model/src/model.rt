ghost use Rattle.std.specs.Prelude.{◌≡◌, OnErr};
ghost use Rattle.smc_model.specs.World.{empty_world, is_present, word_of, Fits, IsAllowed, IsAdd, count_of, total_of, HasField};

use crate::tree::{mark_removed, put_new, write_word};
use crate::{Event, Object, Record, Reply};
use smc_words::{BLANK, NoMemory, Number};
use std::alloc::Global;
use std::collections::BTreeMap;
use std::marker;

/// A plain world that runs: all objects in one map, and every event at one moment.
#[derive(Drop)]
pub struct Model {
    alloc: Global,
    objects: BTreeMap<Number, Object>,
}

impl marker::Model for Model {
    ghost use Rattle.std.specs.FinMap as map;
    ghost use Rattle.smc_model.specs.World.{World, coded_world};

    ghost Value = { World };

    ghost coded = { coded_world };

    ghost view = { λ m. map.from_entries m.objects.entries };
}

impl Model {
    /// The empty world.
    pub fn new(alloc: Global) -> Self
        ensures { result ≡ empty_world }
    {
        Model {
            alloc,
            objects: BTreeMap::new(alloc),
        }
    }

    /// Lets an event happen where it fits. Where it does not, or memory is refused, the world stays as it was.
    pub fn apply(&mut self, event: &Event) -> Result<Reply, NoMemory>
        ensures done { result ≡ Ok Reply.Fits → Fits self.old event.now self.new }
        ensures cause { result ≡ Ok Reply.Unfit → ¬ (IsAllowed self.old event.now) }
        ensures kept { result ≡ Ok Reply.Unfit → self.new ≡ self.old }
        ensures kept_at_err { OnErr result (self.new ≡ self.old) }

        // Memory is wanted only where an object is added.
        ensures adding { OnErr result (IsAdd event.now) }
        ensures allowed { OnErr result (IsAllowed self.old event.now) }
    {
        match event {
            Event::Add {
                number,
                coll,
                words,
            } => self.add(*number, *coll, words),
            Event::Look { number, here } => Ok(Reply::of(self.is_present(*number) == *here)),
            Event::Read {
                number,
                field,
                value,
            } => Ok(Reply::of(self.word(*number, *field) == Some(*value))),
            Event::Write {
                number,
                field,
                value,
            } => Ok(self.write(*number, *field, *value)),
            Event::Remove { number, first } => Ok(self.remove(*number, *first)),
            Event::Begin { .. }
            | Event::Visit { .. }
            | Event::End { .. }
            | Event::Enter
            | Event::Leave
            | Event::Told { .. }
            | Event::Refused { .. } => Ok(Reply::Fits),
        }
    }

    fn add(&mut self, number: Number, coll: u8, words: &Record) -> Result<Reply, NoMemory>
        ensures done { result ≡ Ok Reply.Fits → Fits self.old (Event.Add number coll words.now) self.new }
        ensures cause { result ≡ Ok Reply.Unfit → ¬ (IsAllowed self.old (Event.Add number coll words.now)) }
        ensures kept { result ≡ Ok Reply.Unfit → self.new ≡ self.old }
        ensures kept_at_err { OnErr result (self.new ≡ self.old) }
        ensures allowed { OnErr result (IsAllowed self.old (Event.Add number coll words.now)) }
    {
        if number.coll != coll {
            return Ok(Reply::Unfit);
        }
        put_new(self.alloc, &mut self.objects, number, words)
    }

    fn is_present(&self, number: Number) -> bool
        ensures { result ≡ is_present self.now number }
    {
        match self.objects.get(&number) {
            Some(object) => object.present,
            None => false,
        }
    }

    fn word(&self, number: Number, field: u32) -> Option<u64>
        ensures { result ≡ word_of self.now number field }
    {
        match self.objects.get(&number) {
            Some(object) => object.words.word(field),
            None => None,
        }
    }

    fn write(&mut self, number: Number, field: u32, value: u64) -> Reply
        ensures done { result ≡ Reply.Fits → Fits self.old (Event.Write number field value) self.new }
        ensures cause { result ≡ Reply.Unfit → ¬ (IsAllowed self.old (Event.Write number field value)) }
        ensures kept { result ≡ Reply.Unfit → self.new ≡ self.old }
    {
        if value == BLANK {
            return Reply::Unfit;
        }
        write_word(&mut self.objects, number, field, value)
    }

    fn remove(&mut self, number: Number, first: bool) -> Reply
        ensures done { result ≡ Reply.Fits → Fits self.old (Event.Remove number first) self.new }
        ensures cause { result ≡ Reply.Unfit → ¬ (IsAllowed self.old (Event.Remove number first)) }
        ensures kept { result ≡ Reply.Unfit → self.new ≡ self.old }
    {
        mark_removed(&mut self.objects, number, first)
    }

    /// How many present objects the collection has.
    pub fn count(&self, coll: u8) -> u64
        ensures { result ≡ count_of self.now coll }
    {
        let mut count = 0;
        for object in self.objects.values() {
            if object.is_present_in(coll) {
                count += 1;
            }
        }
        count
    }

    /// The sum of a field's words over the present objects of the collection.
    pub fn total(&self, coll: u8, field: u32) -> u128
        requires { HasField self.now coll field }
        ensures { result ≡ total_of self.now coll field }
    {
        let mut total = 0;
        for object in self.objects.values() {
            if object.is_present_in(coll) {
                total += u128::from(object.words.words()[field as usize]);
            }
        }
        total
    }
}

#[cfg(test)]
mod tests;
