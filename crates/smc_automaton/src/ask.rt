//! What a call asks of its collection and of its section before it may be made.
ghost use Rattle.std.specs.Prelude.{◌≡◌};
ghost use Rattle.smc_core.specs.Add.{has_no_blank, is_value, takes};
ghost use Rattle.smc_core.specs.Offer.{held_slot};

use crate::seen::same_number;
use crate::size::{has_coll, slots_of, width_of};
use smc_core::Held;
use smc_model::Record;
use smc_shape::Shape;
use smc_words::{BLANK, Number};
use std::collections::LinkedList;

/// Whether a word may stand in a field of an object: the largest one, which is the blank one, may not.
pub(crate) fn is_value(word: u64) -> bool
    ensures { result ≡ is_value word }
{
    word < BLANK
}

/// Whether each word of the record may.
fn has_no_blank(words: &[u64]) -> bool
    ensures { result ≡ has_no_blank words.now }
{
    for word in words {
        if !is_value(*word) {
            return false;
        }
    }
    true
}

/// Whether the collection takes such words, sought from this index on.
pub(crate) fn takes(shape: &Shape, coll: u8, from: u32, words: &Record) -> bool
    ensures { result ≡ takes shape.now coll from words.now }
{
    has_coll(shape, coll)
        && from < slots_of(shape, coll)
        && words.len() == width_of(shape, coll) as usize
        && has_no_blank(words.words())
}

/// The slot in which a section holds an object, if it does.
pub(crate) fn held_slot(held: &LinkedList<Held>, number: Number) -> Option<u32>
    ensures { result ≡ held_slot held.now number }
{
    for pair in held {
        if same_number(pair.number, number) {
            return Some(pair.slot);
        }
    }
    None
}
