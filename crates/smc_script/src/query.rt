//! The texts of a script that are of the grammar of queries.
ghost use Rattle.std.specs.Prelude.{◌≡◌, codes, IfOk, option_map};
ghost use Rattle.smc_script.specs.Says.{ColumnSays, CondSays, EditSays, IsCondRead, IsEditRead, IsQueryRead, IsReadAs, QuerySays, SaysDelete, SaysUpdate, is_memory};
ghost use Rattle.smc_script.specs.Says as says;
ghost use Rattle.smc_script.specs.declared.said.Said.TheVariants as said;

use crate::cut::cut_two;
use crate::said::Said;
use crate::table::table_named;
use smc_lang::laws::one_thing;
use smc_lang::{Cond, Expr, ParseFault, Query, parse, parse_cond, parse_edit};
use smc_tokens::Name;
use smc_types::Catalog;
use smc_words::NoMemory;
use std::alloc::Global;

// Whether memory was refused; any other fault is one of the text.
fn is_memory(fault: ParseFault) -> bool
    ensures { result ≡ is_memory fault }
{
    match fault {
        ParseFault::NoMemory => true,
        _ => false,
    }
}

// The query of a text.
fn read_query(alloc: Global, text: &str) -> Result<Option<Query>, NoMemory>
    ensures { IfOk result (IsQueryRead text.now) }
{
    // A text that is wrong somewhere is no query.
    one_thing();
    let fault = match parse(alloc, text) {
        Ok(query) => return Ok(Some(query)),
        Err(fault) => fault,
    };
    if is_memory(fault) {
        return Err(NoMemory);
    }
    Ok(None)
}

// The query that was read, as what a line says.
fn query_said(found: Option<Query>) -> Option<Said>
    ensures { result ≡ option_map (λ query. said.Query query) found }
{
    match found {
        Some(query) => Some(Said::Query { query }),
        None => None,
    }
}

/// What a text behind the word `query` says.
pub fn say_query(alloc: Global, text: &str) -> Result<Option<Said>, NoMemory>
    ensures { IfOk result (IsReadAs (QuerySays text.now)) }
{
    let found = match read_query(alloc, text) {
        Ok(found) => found,
        Err(fault) => return Err(fault),
    };
    Ok(query_said(found))
}

// The condition of a text.
fn read_cond(alloc: Global, text: &str) -> Result<Option<Cond>, NoMemory>
    ensures { IfOk result (IsCondRead text.now) }
{
    // A text that is wrong somewhere is no condition.
    one_thing();
    let fault = match parse_cond(alloc, text) {
        Ok(cond) => return Ok(Some(cond)),
        Err(fault) => fault,
    };
    if is_memory(fault) {
        return Err(NoMemory);
    }
    Ok(None)
}

// The value of a text, and the condition behind it.
fn read_edit(alloc: Global, text: &str) -> Result<Option<(Expr, Option<Cond>)>, NoMemory>
    ensures { IfOk result (IsEditRead text.now) }
{
    // A text that is wrong somewhere is no value.
    one_thing();
    let fault = match parse_edit(alloc, text) {
        Ok(edit) => return Ok(Some(edit)),
        Err(fault) => fault,
    };
    if is_memory(fault) {
        return Err(NoMemory);
    }
    Ok(None)
}

// What a text says that is to be a condition on the table's objects.
fn say_cond(alloc: Global, table: u32, text: &str) -> Result<Option<Said>, NoMemory>
    ensures { IfOk result (IsReadAs (CondSays table text.now)) }
{
    match read_cond(alloc, text) {
        Ok(Some(filter)) => Ok(Some(Said::Delete { table, filter })),
        Ok(None) => Ok(None),
        Err(fault) => Err(fault),
    }
}

// The table, where this word stands behind its name.
fn table_before(catalog: &Catalog, expected: &str, table: &str, word: &str) -> Option<u32>
    ensures { result ≡ says.table_before catalog.now expected.now table.now word.now }
{
    if word != expected {
        return None;
    }
    table_named(catalog, table)
}

/// What a text behind the word `delete` says.
pub fn say_delete(alloc: Global, catalog: &Catalog, text: &str) -> Result<Option<Said>, NoMemory>
    ensures { IfOk result (IsReadAs (SaysDelete catalog.now text.now)) }
{
    let Some(cut) = cut_two(text) else {
        return Ok(None);
    };
    let Some(table) = table_before(catalog, "where", cut.first, cut.second) else {
        return Ok(None);
    };
    say_cond(alloc, table, cut.text)
}

// What a text says that is to be a value for the column of the table's objects.
fn say_edit(alloc: Global, table: u32, column: &str, text: &str) -> Result<Option<Said>, NoMemory>
    ensures { IfOk result (IsReadAs (EditSays table column.now text.now)) }
{
    let (value, filter) = match read_edit(alloc, text) {
        Ok(Some(edit)) => edit,
        Ok(None) => return Ok(None),
        Err(fault) => return Err(fault),
    };
    let column = Name::of(String::from_str(alloc, column)?);
    Ok(Some(Said::Update {
        table,
        column,
        value,
        filter,
    }))
}

// The table, where a column and a sign of equality stand behind it.
fn column_before(table: u32, column: &str, sign: &str) -> Option<u32>
    ensures { result ≡ says.column_before table column.now sign.now }
{
    if sign != "=" || column.is_empty() {
        return None;
    }
    Some(table)
}

// COLUMN = EXPR [where COND]
fn say_column(alloc: Global, table: u32, text: &str) -> Result<Option<Said>, NoMemory>
    ensures { IfOk result (IsReadAs (ColumnSays table text.now)) }
{
    let Some(cut) = cut_two(text) else {
        return Ok(None);
    };
    let Some(table) = column_before(table, cut.first, cut.second) else {
        return Ok(None);
    };
    say_edit(alloc, table, cut.first, cut.text)
}

/// What a text behind the word `update` says.
pub fn say_update(alloc: Global, catalog: &Catalog, text: &str) -> Result<Option<Said>, NoMemory>
    ensures { IfOk result (IsReadAs (SaysUpdate catalog.now text.now)) }
{
    let Some(cut) = cut_two(text) else {
        return Ok(None);
    };
    let Some(table) = table_before(catalog, "set", cut.first, cut.second) else {
        return Ok(None);
    };
    say_column(alloc, table, cut.text)
}
