ghost use Rattle.std.specs.Prelude.{◌≡◌, OnErr, IsSome, IsTrue};
ghost use Rattle.std.specs.BTreeMap.{get, IsUnchanged};
ghost use Rattle.smc_words.specs.Number.{number_cmp};
ghost use Rattle.smc_model.specs.Tree.{SetsAt, ChangesAt, HasWordAt, IsPresentAt};
ghost use Rattle.smc_model.specs.World.{new_object, with_word, removed};

use crate::{Object, Record, Reply};
use smc_words::{NoMemory, Number};
use std::alloc::Global;
use std::collections::BTreeMap;
use std::collections::btree_map::Entry;

// Puts an object under a number that the map has not, in one search.
pub(crate) fn put_new(
    alloc: Global,
    objects: &mut BTreeMap<Number, Object>,
    number: Number,
    words: &Record,
) -> Result<Reply, NoMemory>
    ensures done { result ≡ Ok Reply.Fits → SetsAt objects.old objects.new number (new_object number.coll words.now) }
    ensures absent { result ≡ Ok Reply.Fits → get number_cmp objects.old number ≡ None }
    ensures cause { result ≡ Ok Reply.Unfit → IsSome (get number_cmp objects.old number) }
    ensures kept { result ≡ Ok Reply.Unfit → IsUnchanged objects.old objects.new }
    ensures kept_at_err { OnErr result (IsUnchanged objects.old objects.new) }
    ensures absent_at_err { OnErr result (get number_cmp objects.old number ≡ None) }
{
    match objects.entry(number)? {
        Entry::Occupied(_) => Ok(Reply::Unfit),
        Entry::Vacant(place) => {
            let words = Record::of(alloc, words.words())?;
            place.insert(Object {
                coll: number.coll,
                words,
                present: true,
            });
            Ok(Reply::Fits)
        }
    }
}

// Writes a word of the number's object, if there is such a word.
#[tactic(auto, using(std::proofs::lemmas::Map::Steps::set_value_same))]
pub(crate) fn write_word(
    objects: &mut BTreeMap<Number, Object>,
    number: Number,
    field: u32,
    value: u64,
) -> Reply
    ensures done { result ≡ Reply.Fits → ChangesAt objects.old objects.new number (λ object. with_word object field value) }
    ensures there { result ≡ Reply.Fits → HasWordAt objects.old number field }
    ensures cause { result ≡ Reply.Unfit → ¬ (HasWordAt objects.old number field) }
    ensures kept { result ≡ Reply.Unfit → IsUnchanged objects.old objects.new }
{
    match objects.get_mut(&number) {
        Some(object) if (field as usize) < object.words.len() => {
            object.words.set(field as usize, value);
            Reply::Fits
        }
        _ => Reply::Unfit,
    }
}

// Marks the number's object as removed, if `first` says whether it was present.
#[tactic(auto, using(std::proofs::lemmas::Map::Steps::set_value_same))]
pub(crate) fn mark_removed(
    objects: &mut BTreeMap<Number, Object>,
    number: Number,
    first: bool,
) -> Reply
    ensures done { result ≡ Reply.Fits → ChangesAt objects.old objects.new number removed }
    ensures there { result ≡ Reply.Fits → IsPresentAt objects.old number first }
    ensures cause { result ≡ Reply.Unfit → ¬ (IsPresentAt objects.old number first) }
    ensures kept { result ≡ Reply.Unfit → IsUnchanged objects.old objects.new }
{
    match objects.get_mut(&number) {
        Some(object) if object.present == first => {
            object.present = false;
            Reply::Fits
        }
        _ => Reply::Unfit,
    }
}
