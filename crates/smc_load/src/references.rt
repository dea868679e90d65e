//! The words of a row's references, which are found by key.
ghost use Rattle.std.specs.Prelude.{◌≡◌, ◌<◌, ◌≤◌, ◌++◌, length, take, IfSome, IsTrue, OnOk};
ghost use Rattle.smc_words.specs.declared.layout.TheConstants.{BLANK};
ghost use Rattle.smc_core.specs.Add.{has_no_blank};
ghost use Rattle.smc_types.specs.Columns.{columns_width};
ghost use Rattle.smc_words.specs.Number.{FitsNumber};
ghost use Rattle.smc_load.specs.Loading as loading;
ghost use Rattle.smc_load.specs.Loading.{record_of, reference_of, resolved};

use smc_types::{Column, FieldType, Keys, WIDTH_MAX};
use smc_words::{NoMemory, Number};

/// Puts the words of the references behind those of a row: of each the number of the object that stands under its key,
/// null where there is none.
pub(crate) fn push_references(
    words: &mut Vec<u64>,
    columns: &[Column],
    keys: &Keys,
) -> Result<(), NoMemory>
    requires { columns_width columns.now ≤ WIDTH_MAX }
    ensures done { OnOk result (words.new.items ≡ record_of columns.now keys.now words.old.items) }
    ensures values { IsTrue (has_no_blank words.old.items) → OnOk result (IsTrue (has_no_blank words.new.items)) }
{
    let row = words.len();
    for column in columns {
        push_reference(words, row, columns, keys, column)?;
    }
    Ok(())
}

// Puts the word of a column behind those that are there, where it is a reference of the row in the first words.
fn push_reference(
    words: &mut Vec<u64>,
    row: usize,
    columns: &[Column],
    keys: &Keys,
    column: &Column,
) -> Result<(), NoMemory>
    requires narrow { columns_width columns.now ≤ WIDTH_MAX }
    requires row { row ≤ length words.old.items }
    ensures done { OnOk result (words.new.items ≡ words.old.items
        ++ reference_of columns.now keys.now (take row words.old.items) column.now.kind column.now.by) }
    ensures values { IsTrue (has_no_blank words.old.items) → OnOk result (IsTrue (has_no_blank words.new.items)) }
{
    if let FieldType::RefTo(table) = column.kind {
        let (own, _) = words.split_at(row);
        let word = resolve(own, columns, keys, table, column.by);
        words.push(word)?;
    }
    Ok(())
}

// The word of a reference to that table, whose key stands in the column `by` of a row with these words.
fn resolve(words: &[u64], columns: &[Column], keys: &Keys, table: u32, by: Option<u32>) -> u64
    requires { columns_width columns.now ≤ WIDTH_MAX }
    ensures word { result ≡ resolved columns.now keys.now words.now table by }
    ensures value { result < BLANK }
{
    match by {
        Some(by) => reference_word(keys.get(table, key_at(words, columns, by))),
        None => Number::NULL,
    }
}

// The word of a reference to that object, null where there is none.
fn reference_word(number: Option<Number>) -> u64
    requires { IfSome number FitsNumber }
    ensures word { result ≡ loading.reference_word number }
    ensures value { result < BLANK }
{
    match number {
        Some(number) => number.pack(),
        None => Number::NULL,
    }
}

// The key in that column of a row with these words.
fn key_at(words: &[u64], columns: &[Column], by: u32) -> u64
    requires { columns_width columns.now ≤ WIDTH_MAX }
    ensures { result ≡ loading.key_at columns.now words.now by }
{
    let place = place_of(columns, by as usize);
    words.get(place as usize).copied().unwrap_or(0)
}

/// Where the words of a column of the file begin in a record.
pub fn place_of(columns: &[Column], at: usize) -> u32
    requires { columns_width columns.now ≤ WIDTH_MAX }
    ensures { result ≡ loading.place_of columns.now at }
{
    let (before, _) = columns.split_at(columns.len().min(at));
    width_of(before)
}

// How many words these columns take together.
fn width_of(columns: &[Column]) -> u32
    requires { columns_width columns.now ≤ WIDTH_MAX }
    ensures { result ≡ columns_width columns.now }
{
    let mut words = 0;
    for column in columns {
        words += column.kind.width();
    }
    words
}
