//! The words of a region as numbers: how they are packed and read.
ghost use Rattle.std.specs.Prelude.{◌≡◌};
ghost use Rattle.smc_core.specs.Row.{packed, entry_of, state_in, unpacked, unpacked_dir, unpacked_entry, unpacked_number, unpacked_round, FitsState};
ghost use Rattle.smc_row.specs.Words.{PartsFit};

use smc_core::{State, Word};
use smc_shape::Place;
use smc_words::{Dir, ENTRIES, Entry, Number, RoundWord};

/// The number that stands for a word.
#[inline(always)]
pub fn packed(word: Word) -> u64
    requires { PartsFit word }
    ensures { result ≡ packed word }
{
    match word {
        Word::Plain(number) => number,
        Word::Round(None) | Word::Back(None) => 0,
        Word::Round(Some(round)) => round.pack(),
        Word::Entry(state) => entry_of(state).pack(),
        Word::Directory(dir) => dir.pack(),
        Word::Back(Some(number)) => number.pack(),
        Word::Forward(slot) => u64::from(slot),
    }
}

/// What a number says at a place.
#[inline(always)]
pub fn unpacked(place: Place, number: u64) -> Word
    ensures { result ≡ unpacked place number }
{
    match place {
        Place::Epoch | Place::Section { .. } | Place::Field { .. } => Word::Plain(number),
        Place::Round => Word::Round(unpacked_round(number)),
        Place::Entry { .. } => Word::Entry(state_in(unpacked_entry(number))),
        Place::Directory { .. } => Word::Directory(unpacked_dir(number)),
        Place::Back { .. } => Word::Back(unpacked_number(number)),
        Place::Forward { .. } => Word::Forward((number % u64::from(ENTRIES)) as u32),
    }
}

/// An entry with these marks.
#[inline(always)]
fn entry_with(
    incarnation: u32,
    payload: u64,
    frozen: bool,
    locked: bool,
    gone: bool,
    free: bool,
) -> Entry
    ensures { result ≡ record {
      incarnation = incarnation;
      payload = payload;
      frozen = frozen;
      locked = locked;
      gone = gone;
      free = free;
    } }
{
    Entry {
        incarnation,
        payload,
        frozen,
        locked,
        gone,
        free,
    }
}

/// The entry in this state.
#[inline(always)]
fn entry_of(state: State) -> Entry
    ensures { result ≡ entry_of state }
{
    match state {
        State::Free { incarnation, stamp } => {
            entry_with(incarnation, stamp, false, false, true, true)
        }
        State::Claimed { incarnation } => entry_with(incarnation, 0, false, true, true, true),
        State::Present { incarnation, slot } => {
            entry_with(incarnation, u64::from(slot), false, false, false, false)
        }
        State::Frozen { incarnation, slot } => {
            entry_with(incarnation, u64::from(slot), true, false, false, false)
        }
        State::Locked { incarnation, slot } => {
            entry_with(incarnation, u64::from(slot), true, true, false, false)
        }
        State::Removed {
            incarnation,
            slot,
            frozen,
            locked,
        } => entry_with(incarnation, u64::from(slot), frozen, locked, true, false),
    }
}

/// The state that an entry is in.
#[inline(always)]
fn state_in(entry: Entry) -> State
    ensures { result ≡ state_in entry }
{
    let incarnation = entry.incarnation;
    let slot = (entry.payload % u64::from(ENTRIES)) as u32;
    match entry {
        Entry {
            free: true,
            locked: true,
            ..
        } => State::Claimed { incarnation },
        Entry {
            free: true,
            payload,
            ..
        } => State::Free {
            incarnation,
            stamp: payload,
        },
        Entry {
            gone: true,
            frozen,
            locked,
            ..
        } => State::Removed {
            incarnation,
            slot,
            frozen,
            locked,
        },
        Entry { locked: true, .. } => State::Locked { incarnation, slot },
        Entry { frozen: true, .. } => State::Frozen { incarnation, slot },
        _ => State::Present { incarnation, slot },
    }
}

#[inline(always)]
fn unpacked_entry(number: u64) -> Entry
    ensures { result ≡ unpacked_entry number }
{
    Entry::unpack(number)
}

/// A number that is no directory word says what nobody may use.
#[inline(always)]
fn unpacked_dir(number: u64) -> Dir
    ensures { result ≡ unpacked_dir number }
{
    match Dir::unpack(number) {
        Some(dir) => dir,
        None => Dir::Claimed,
    }
}

#[inline(always)]
fn unpacked_number(number: u64) -> Option<Number>
    ensures { result ≡ unpacked_number number }
{
    Number::unpack(number)
}

#[inline(always)]
fn unpacked_round(number: u64) -> Option<RoundWord>
    ensures { result ≡ unpacked_round number }
{
    RoundWord::unpack(number)
}
