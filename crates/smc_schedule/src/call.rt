ghost use Rattle.std.specs.Prelude.{◌≡◌, IfOk};
ghost use Rattle.smc_schedule.specs.Calls.{add_of, call_from, call_of, index_of, name_of, plain_of, read_of, value_of, values_of, write_of};

use crate::name::{Name, is_name};
use crate::verb::{Verb, read_verb};
use smc_lines::{Words, read_number};
use smc_model::Record;
use smc_words::NoMemory;
use std::alloc::Global;

/// A call as a line of a schedule writes it, with the names of its objects.
#[derive(Debug, Drop)]
pub enum StartCall {
    Enter,
    Leave,
    Advance,
    Add {
        name: Name,
        from: u32,
        words: Record,
    },
    Look {
        name: Name,
    },
    Read {
        name: Name,
        field: u32,
    },
    Write {
        name: Name,
        field: u32,
        value: u64,
    },
    Remove {
        name: Name,
    },
    Scan,
    Next,
    Begin,
    Finish,
    Cancel,
}

/// The number of a word that fits a `u32`.
pub fn read_index(word: &str) -> Option<u32>
    ensures { result ≡ index_of word.now }
{
    match read_number(word, u64::from(u32::MAX)) {
        Some(number) => Some(number as u32),
        None => None,
    }
}

// The number of a word that fits a `u64`.
fn read_value(word: &str) -> Option<u64>
    ensures { result ≡ value_of word.now }
{
    read_number(word, u64::MAX)
}

// This call, where no word is left.
fn read_plain(mut words: Words<'_>, call: StartCall) -> Option<StartCall>
    ensures { result ≡ plain_of call words.entry }
{
    match words.next_word() {
        None => Some(call),
        Some(_) => None,
    }
}

// The name that is the only word.
fn read_name(alloc: Global, mut words: Words<'_>) -> Result<Option<Name>, NoMemory>
    ensures { IfOk result (λ name. name ≡ name_of words.entry) }
{
    let (Some(name), None) = (words.next_word(), words.next_word()) else {
        return Ok(None);
    };
    if !is_name(name) {
        return Ok(None);
    }
    Ok(Some(Name::of(alloc, name)?))
}

// The arguments of `read`.
fn read_read(alloc: Global, mut words: Words<'_>) -> Result<Option<StartCall>, NoMemory>
    ensures { IfOk result (λ call. call ≡ read_of words.entry) }
{
    let (Some(name), Some(field), None) = (words.next_word(), words.next_word(), words.next_word())
    else {
        return Ok(None);
    };
    let Some(field) = read_index(field) else {
        return Ok(None);
    };
    if !is_name(name) {
        return Ok(None);
    }
    let name = Name::of(alloc, name)?;
    Ok(Some(StartCall::Read { name, field }))
}

// The arguments of `write`.
fn read_write(alloc: Global, mut words: Words<'_>) -> Result<Option<StartCall>, NoMemory>
    ensures { IfOk result (λ call. call ≡ write_of words.entry) }
{
    let (Some(name), Some(field), Some(value), None) = (
        words.next_word(),
        words.next_word(),
        words.next_word(),
        words.next_word(),
    ) else {
        return Ok(None);
    };
    let (Some(field), Some(value)) = (read_index(field), read_value(value)) else {
        return Ok(None);
    };
    if !is_name(name) {
        return Ok(None);
    }
    let name = Name::of(alloc, name)?;
    Ok(Some(StartCall::Write { name, field, value }))
}

// The values that all the words spell.
fn read_values(alloc: Global, mut words: Words<'_>) -> Result<Option<Record>, NoMemory>
    ensures { IfOk result (λ values. values ≡ values_of words.entry) }
{
    let mut values = Vec::new(alloc);
    while let Some(word) = words.next_word() {
        let Some(value) = read_value(word) else {
            return Ok(None);
        };
        values.push(value)?;
    }
    Ok(Some(Record::of(alloc, &values)?))
}

// The arguments of `add`, where a record has so many fields.
fn read_add(alloc: Global, mut words: Words<'_>, width: u32) -> Result<Option<StartCall>, NoMemory>
    ensures { IfOk result (λ call. call ≡ add_of width words.entry) }
{
    let (Some(name), Some(from)) = (words.next_word(), words.next_word()) else {
        return Ok(None);
    };
    let Some(from) = read_index(from) else {
        return Ok(None);
    };
    let Some(words) = read_values(alloc, words)? else {
        return Ok(None);
    };
    if !is_name(name) || words.len() != width as usize {
        return Ok(None);
    }
    let name = Name::of(alloc, name)?;
    Ok(Some(StartCall::Add { name, from, words }))
}

// The call with this verb and these arguments.
fn read_arguments(
    alloc: Global,
    verb: Verb,
    words: Words<'_>,
    width: u32,
) -> Result<Option<StartCall>, NoMemory>
    ensures { IfOk result (λ call. call ≡ call_of width verb words.entry) }
{
    match verb {
        Verb::Enter => Ok(read_plain(words, StartCall::Enter)),
        Verb::Leave => Ok(read_plain(words, StartCall::Leave)),
        Verb::Advance => Ok(read_plain(words, StartCall::Advance)),
        Verb::Add => read_add(alloc, words, width),
        Verb::Look => Ok(read_name(alloc, words)?.map(|name| StartCall::Look { name })),
        Verb::Read => read_read(alloc, words),
        Verb::Write => read_write(alloc, words),
        Verb::Remove => Ok(read_name(alloc, words)?.map(|name| StartCall::Remove { name })),
        Verb::Scan => Ok(read_plain(words, StartCall::Scan)),
        Verb::Next => Ok(read_plain(words, StartCall::Next)),
        Verb::Begin => Ok(read_plain(words, StartCall::Begin)),
        Verb::Finish => Ok(read_plain(words, StartCall::Finish)),
        Verb::Cancel => Ok(read_plain(words, StartCall::Cancel)),
    }
}

/// The call that begins with this word and goes on with the others, where a record has so many fields.
pub fn read_call(
    alloc: Global,
    word: &str,
    words: Words<'_>,
    width: u32,
) -> Result<Option<StartCall>, NoMemory>
    ensures { IfOk result (λ call. call ≡ call_from width word.now words.entry) }
{
    match read_verb(word) {
        Some(verb) => read_arguments(alloc, verb, words, width),
        None => Ok(None),
    }
}
