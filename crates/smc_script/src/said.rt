//! What a line says, by the names that were given before it and by nothing else that went before.
ghost use Rattle.std.specs.Prelude.{◌≡◌, ◌&&◌, ℕ, true, codes, bytes_eq, IfOk, option_map};
ghost use Rattle.std.specs.Char.{is_ascii_digit};
ghost use Rattle.std.specs.List.{list_all};
ghost use Rattle.smc_lines.specs.Numbers.{is_number};
ghost use Rattle.smc_lines.specs.Words.{words};
ghost use Rattle.smc_query.specs.Trees.{Word};
ghost use Rattle.smc_script.specs.Names as naming;
ghost use Rattle.smc_script.specs.Says as spec;
ghost use Rattle.smc_script.specs.Says.{IsSaid, IsSaidBy, SaidTree, compact, drop_said, get, load_said, name_said, remove, room_said, said_tree, stat, slots_asked, slots_within, table_said};

use crate::limits::{MAX_DIGITS, MAX_FILE, MAX_SLOTS};
use crate::name::{FileName, FoldName, ScriptName, is_script_name};
use crate::names::Names;
use crate::query::{say_delete, say_query, say_update};
use crate::row::{say_add, say_set};
use crate::table::table_named;
use crate::verb::{Verb, verb_of};
use smc_lines::{Words, read_number, split_word};
use smc_query::{Cond, Expr, Query};
use smc_shape::BLOCK_SLOTS;
use smc_tokens::Name;
use smc_types::{Catalog, Row, Value};
use smc_words::NoMemory;
use std::alloc::Global;

/// What a line says.
#[derive(Debug, Drop)]
pub enum Said {
    /// A room for this table, with so many slots in whole blocks; with none where their number is out of range.
    Room {
        table: u32,
        slots: Option<u32>,
    },
    Load {
        table: u32,
        file: FileName,
    },
    Add {
        table: u32,
        name: ScriptName,
        row: Row,
    },
    Get {
        name: ScriptName,
    },
    /// A value of the column, where the named object has such a column.
    Set {
        name: ScriptName,
        column: Name,
        value: Option<Value>,
    },
    Remove {
        name: ScriptName,
    },
    Delete {
        table: u32,
        filter: Cond,
    },
    Update {
        table: u32,
        column: Name,
        value: Expr,
        filter: Option<Cond>,
    },
    Query {
        query: Query,
    },
    Compact {
        table: u32,
    },
    Stat {
        table: u32,
    },
    DropFold {
        name: FoldName,
    },
    Group,
    Worker,
    End,
}

// Printable ASCII other than the space.
fn is_file_byte(byte: u8) -> bool
    ensures { result ≡ spec.is_file_byte byte }
{
    32 < byte && byte < 127
}

fn are_file_bytes(bytes: &[u8]) -> bool
    ensures { result ≡ list_all spec.is_file_byte bytes.now }
{
    bytes.iter().all(|byte| is_file_byte(*byte))
}

fn is_file_name(word: &str) -> bool
    ensures { result ≡ spec.is_file_name word.now }
{
    let bytes = word.as_bytes();
    (0 < bytes.len()) & (bytes.len() <= MAX_FILE) & are_file_bytes(bytes)
}

fn are_digits(bytes: &[u8]) -> bool
    ensures { result ≡ list_all is_ascii_digit bytes.now }
{
    bytes.iter().all(|byte| byte.is_ascii_digit())
}

// One or more digits.
fn is_digits(word: &str) -> bool
    ensures { result ≡ is_number word.now }
{
    let bytes = word.as_bytes();
    (0 < bytes.len()) & are_digits(bytes)
}

// A number of slots in its range, rounded up to whole blocks.
fn slots_within(slots: u32) -> Option<u32>
    ensures { result ≡ slots_within slots }
{
    if slots == 0 || slots > MAX_SLOTS {
        return None;
    }
    Some(slots.div_ceil(BLOCK_SLOTS) * BLOCK_SLOTS)
}

// The slots that digits ask for.
fn slots_asked(digits: &str) -> Option<u32>
    requires { is_number digits.now ≡ true }
    ensures { result ≡ slots_asked digits.now }
{
    if digits.len() > MAX_DIGITS {
        return None;
    }
    match read_number(digits, u64::from(MAX_SLOTS)) {
        Some(slots) => slots_within(slots as u32),
        None => None,
    }
}

// TABLE N
fn read_room(catalog: &Catalog, mut words: Words<'_>) -> Option<Said>
    ensures { option_map said_tree result ≡ room_said catalog.now words.entry }
{
    let (Some(table), Some(digits), None) = (
        words.next_word(),
        words.next_word(),
        words.next_word(),
    ) else {
        return None;
    };
    if !is_digits(digits) {
        return None;
    }
    let table = table_named(catalog, table)?;
    let slots = slots_asked(digits);
    Some(Said::Room { table, slots })
}

// TABLE FILE
fn read_load(
    alloc: Global,
    catalog: &Catalog,
    mut words: Words<'_>,
) -> Result<Option<Said>, NoMemory>
    ensures { IfOk result (λ said. option_map said_tree said ≡ load_said catalog.now words.entry) }
{
    let (Some(table), Some(file), None) = (words.next_word(), words.next_word(), words.next_word())
    else {
        return Ok(None);
    };
    if !is_file_name(file) {
        return Ok(None);
    }
    let Some(table) = table_named(catalog, table) else {
        return Ok(None);
    };
    let file = FileName::of(alloc, file)?;
    Ok(Some(Said::Load { table, file }))
}

// TABLE
fn read_table(catalog: &Catalog, mut words: Words<'_>) -> Option<u32>
    ensures { (say : ℕ → SaidTree) → option_map say result ≡ table_said say catalog.now words.entry }
{
    let (Some(table), None) = (words.next_word(), words.next_word()) else {
        return None;
    };
    table_named(catalog, table)
}

// NAME
fn read_name(alloc: Global, mut words: Words<'_>) -> Result<Option<ScriptName>, NoMemory>
    ensures { (say : Word → SaidTree) → IfOk result (λ name. option_map say name ≡ name_said say words.entry) }
{
    let (Some(name), None) = (words.next_word(), words.next_word()) else {
        return Ok(None);
    };
    if !is_script_name(name) {
        return Ok(None);
    }
    Ok(Some(ScriptName::of(alloc, name)?))
}

// NAME
fn say_get(alloc: Global, text: &str) -> Result<Option<Said>, NoMemory>
    ensures { IfOk result (λ said. option_map said_tree said ≡ name_said get (words text.now)) }
{
    Ok(read_name(alloc, Words::of(text))?.map(|name| Said::Get { name }))
}

// NAME
fn say_remove(alloc: Global, text: &str) -> Result<Option<Said>, NoMemory>
    ensures { IfOk result (λ said. option_map said_tree said ≡ name_said remove (words text.now)) }
{
    Ok(read_name(alloc, Words::of(text))?.map(|name| Said::Remove { name }))
}

// TABLE
fn say_compact(catalog: &Catalog, text: &str) -> Option<Said>
    ensures { option_map said_tree result ≡ table_said compact catalog.now (words text.now) }
{
    read_table(catalog, Words::of(text)).map(|table| Said::Compact { table })
}

// TABLE
fn say_stat(catalog: &Catalog, text: &str) -> Option<Said>
    ensures { option_map said_tree result ≡ table_said stat catalog.now (words text.now) }
{
    read_table(catalog, Words::of(text)).map(|table| Said::Stat { table })
}

fn is_drop(word: &str, name: &str) -> bool
    ensures { result ≡ (bytes_eq word.now (codes "fold") && naming.is_script_name name.now) }
{
    (word == "fold") & is_script_name(name)
}

// fold NAME
fn read_drop(alloc: Global, mut words: Words<'_>) -> Result<Option<Said>, NoMemory>
    ensures { IfOk result (λ said. option_map said_tree said ≡ drop_said words.entry) }
{
    let (Some(word), Some(name), None) = (words.next_word(), words.next_word(), words.next_word())
    else {
        return Ok(None);
    };
    if !is_drop(word, name) {
        return Ok(None);
    }
    let name = FoldName::of(alloc, name)?;
    Ok(Some(Said::DropFold { name }))
}

// What the text behind the word of a command says.
fn read_behind(
    alloc: Global,
    catalog: &Catalog,
    names: &Names,
    verb: Verb,
    text: &str,
) -> Result<Option<Said>, NoMemory>
    ensures { IfOk result (IsSaidBy catalog.now names.now verb text.now) }
{
    match verb {
        Verb::Room => Ok(read_room(catalog, Words::of(text))),
        Verb::Load => read_load(alloc, catalog, Words::of(text)),
        Verb::Add => say_add(alloc, catalog, text),
        Verb::Get => say_get(alloc, text),
        Verb::Set => say_set(alloc, catalog, names, text),
        Verb::Remove => say_remove(alloc, text),
        Verb::Delete => say_delete(alloc, catalog, text),
        Verb::Update => say_update(alloc, catalog, text),
        Verb::Query => say_query(alloc, text),
        Verb::Compact => Ok(say_compact(catalog, text)),
        Verb::Stat => Ok(say_stat(catalog, text)),
        Verb::Drop => read_drop(alloc, Words::of(text)),
    }
}

// What a word of groups says, which is a line of its own.
fn mark_of(word: &str) -> Option<Said>
    ensures { option_map said_tree result ≡ spec.mark_of word.now }
{
    if word == "group" {
        return Some(Said::Group);
    }
    if word == "worker" {
        return Some(Said::Worker);
    }
    if word == "end" {
        return Some(Said::End);
    }
    None
}

/// What a line says; `None` where it is no command.
pub fn read_said(
    alloc: Global,
    catalog: &Catalog,
    names: &Names,
    line: &str,
) -> Result<Option<Said>, NoMemory>
    ensures { IfOk result (IsSaid catalog.now names.now line.now) }
{
    let (word, behind) = split_word(line);
    let Some(text) = behind else {
        return Ok(mark_of(word));
    };
    let Some(verb) = verb_of(word) else {
        return Ok(None);
    };
    read_behind(alloc, catalog, names, verb, text)
}
