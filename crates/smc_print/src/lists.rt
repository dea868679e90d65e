//! The parts of a query behind its table: the condition, the lists of paths, output columns and keys, and how many rows.
#![tactic(auto, using(crate::proofs::WriteLaws::writing))]

ghost use Rattle.std.specs.Prelude.{map, OnOk};
ghost use Rattle.smc_query.specs.Trees.{call_tree, filter_tree, item_tree, key_tree, path_tree};
ghost use Rattle.smc_tokens.specs.declared.sign.Sign.TheVariants as signs;
ghost use Rattle.smc_print.specs.TokenText.{Writes};
ghost use Rattle.smc_print.specs.Printed.{listed, by_tokens, call_tokens, filter_tokens, first_tokens, item_tokens, key_tokens, label_tokens, path_tokens, show_tokens, sort_tokens};

use crate::cond::write_cond;
use crate::expr::{write_argument, write_between, write_path};
use crate::token::{write_name, write_number, write_sign, write_word};
use smc_query::{Cond, Item, ItemCall, Items, Path, Paths, SortKey, SortKeys};
use smc_tokens::{Name, Reserved, Sign};
use smc_words::NoMemory;

/// Writes the condition behind `where`, where there is one.
pub fn write_filter(text: &mut String, filter: &Option<Cond>) -> Result<(), NoMemory>
    ensures { OnOk result (Writes text.old text.new (filter_tokens (filter_tree filter.now))) }
{
    match filter {
        None => Ok(()),
        Some(cond) => {
            write_word(text, Reserved::Where)?;
            write_cond(text, cond)
        }
    }
}

/// Writes the paths behind `by`, where there are any.
pub fn write_by(text: &mut String, by: &Paths) -> Result<(), NoMemory>
    ensures { OnOk result (Writes text.old text.new (by_tokens (map path_tree by.now))) }
{
    let paths = by.as_slice();
    if paths.is_empty() {
        return Ok(());
    }
    write_word(text, Reserved::By)?;
    write_paths(text, paths)
}

// Writes paths with commas between.
fn write_paths(text: &mut String, paths: &[Path]) -> Result<(), NoMemory>
    ensures { OnOk result (Writes text.old text.new (listed signs.Comma path_tokens (map path_tree paths.now))) }
{
    for (place, path) in paths.iter().enumerate() {
        write_between(text, place, Sign::Comma)?;
        write_path(text, path)?;
    }
    Ok(())
}

/// Writes the output columns behind `show`.
pub fn write_show(text: &mut String, items: &Items) -> Result<(), NoMemory>
    ensures { OnOk result (Writes text.old text.new (show_tokens (map item_tree items.now))) }
{
    write_word(text, Reserved::Show)?;
    write_items(text, items.as_slice())
}

// Writes output columns with commas between.
fn write_items(text: &mut String, items: &[Item]) -> Result<(), NoMemory>
    ensures { OnOk result (Writes text.old text.new (listed signs.Comma item_tokens (map item_tree items.now))) }
{
    for (place, item) in items.iter().enumerate() {
        write_between(text, place, Sign::Comma)?;
        write_item(text, item)?;
    }
    Ok(())
}

// Writes an output column.
fn write_item(text: &mut String, item: &Item) -> Result<(), NoMemory>
    ensures { OnOk result (Writes text.old text.new (item_tokens (item_tree item.now))) }
{
    write_call(text, &item.call)?;
    write_label(text, &item.label)
}

// Writes a call.
fn write_call(text: &mut String, call: &ItemCall) -> Result<(), NoMemory>
    ensures { OnOk result (Writes text.old text.new (call_tokens (call_tree call.now))) }
{
    match call {
        ItemCall::Count => {
            write_word(text, Reserved::Count)?;
            write_sign(text, Sign::Open)?;
            write_sign(text, Sign::Close)
        }
        ItemCall::Sum(of) => {
            write_word(text, Reserved::Sum)?;
            write_argument(text, of)
        }
        ItemCall::Avg(of) => {
            write_word(text, Reserved::Avg)?;
            write_argument(text, of)
        }
        ItemCall::Min(of) => {
            write_word(text, Reserved::Min)?;
            write_argument(text, of)
        }
        ItemCall::Max(of) => {
            write_word(text, Reserved::Max)?;
            write_argument(text, of)
        }
        ItemCall::Fold { name, of } => {
            write_word(text, Reserved::Fold)?;
            write_name(text, name)?;
            write_argument(text, of)
        }
    }
}

// Writes the label of an output column, where it has one.
fn write_label(text: &mut String, label: &Option<Name>) -> Result<(), NoMemory>
    ensures { OnOk result (Writes text.old text.new (label_tokens label.now)) }
{
    match label {
        None => Ok(()),
        Some(name) => {
            write_word(text, Reserved::As)?;
            write_name(text, name)
        }
    }
}

/// Writes the keys behind `sort`, where there are any.
pub fn write_sort(text: &mut String, sort: &SortKeys) -> Result<(), NoMemory>
    ensures { OnOk result (Writes text.old text.new (sort_tokens (map key_tree sort.now))) }
{
    let keys = sort.as_slice();
    if keys.is_empty() {
        return Ok(());
    }
    write_word(text, Reserved::Sort)?;
    write_keys(text, keys)
}

// Writes sort keys with commas between.
fn write_keys(text: &mut String, keys: &[SortKey]) -> Result<(), NoMemory>
    ensures { OnOk result (Writes text.old text.new (listed signs.Comma key_tokens (map key_tree keys.now))) }
{
    for (place, key) in keys.iter().enumerate() {
        write_between(text, place, Sign::Comma)?;
        write_key(text, key)?;
    }
    Ok(())
}

// Writes a sort key.
fn write_key(text: &mut String, key: &SortKey) -> Result<(), NoMemory>
    ensures { OnOk result (Writes text.old text.new (key_tokens (key_tree key.now))) }
{
    write_path(text, &key.path)?;
    if key.desc {
        return write_word(text, Reserved::Desc);
    }
    Ok(())
}

/// Writes the number of rows behind `first`, where there is one.
pub fn write_first(text: &mut String, first: Option<u64>) -> Result<(), NoMemory>
    ensures { OnOk result (Writes text.old text.new (first_tokens first)) }
{
    match first {
        None => Ok(()),
        Some(rows) => {
            write_word(text, Reserved::First)?;
            write_number(text, rows, 0)
        }
    }
}
