//! The answer of a query, and its text.
ghost use Rattle.std.specs.Prelude.{◌≡◌, ◌++◌, List, map, All, IfOk, OnOk};
ghost use Rattle.std.specs.List.{flat_map};
ghost use Rattle.smc_meaning.specs.Cells.{CanPrint, column_seen};
ghost use Rattle.smc_meaning.specs.Orders.{ordered};
ghost use Rattle.smc_meaning.specs.Printed.{answer_text, further_text, row_line, row_text};

use crate::Cell;
use crate::cell::{print_column, print_whole};
use crate::order::{keep_first, sort_rows};
use smc_plan::OrderKey;
use smc_words::NoMemory;
use std::alloc::Global;
use std::marker::Model;

/// What stands between the columns of a row.
const BAR: u8 = b'|';

/// What ends a line.
const NEWLINE: u8 = b'\n';

/// What stands before the number of rows.
const ROWS: &[u8] = b"rows ";

/// One row of an answer: its columns from the left, `None` where a column has no value. Contracts see a list.
#[derive(Debug, Drop)]
pub struct AnswerRow {
    columns: Vec<Option<Cell>>,
}

impl Model for AnswerRow {
    ghost use Rattle.std.specs.Prelude.{All, List, Option, map};
    ghost use Rattle.smc_meaning.specs.Values.{Cell as CellValue};
    ghost use Rattle.smc_meaning.specs.Cells.{CanPrint, column_seen};

    ghost Value = { List (Option CellValue) };

    ghost view = { λ row. map column_seen row.columns.items };

    ghost invariant = { λ row. All CanPrint (map column_seen row.columns.items) };
}

impl AnswerRow {
    /// From a vector, which takes no memory.
    pub fn of(columns: Vec<Option<Cell>>) -> AnswerRow
        requires { All CanPrint (map column_seen columns.items) }
        ensures { result ≡ map column_seen columns.items }
    {
        AnswerRow { columns }
    }

    /// Its columns.
    pub fn as_slice(&self) -> &[Option<Cell>]
        ensures columns { map column_seen result.now ≡ self.now }
        ensures printable { All CanPrint self.now }
    {
        self.columns.as_slice()
    }
}

/// The answer of a query: its rows in order. Contracts see a list.
#[derive(Debug, Drop)]
pub struct Answer {
    rows: Vec<AnswerRow>,
}

impl Model for Answer {
    ghost use Rattle.std.specs.Prelude.{List, Option};
    ghost use Rattle.smc_meaning.specs.Values.{Cell as CellValue};

    ghost Value = { List (List (Option CellValue)) };

    ghost view = { λ answer. answer.rows.items };
}

impl Answer {
    /// From a vector, which takes no memory.
    pub fn of(rows: Vec<AnswerRow>) -> Answer
        ensures { result ≡ rows.items }
    {
        Answer { rows }
    }

    /// The first so many of these rows in order, and all where no number is given; takes no memory.
    pub fn ordered(keys: &[OrderKey], first: Option<u64>, mut rows: Vec<AnswerRow>) -> Answer
        ensures { result ≡ ordered keys.now first rows.items }
    {
        sort_rows(keys, &mut rows);
        keep_first(first, &mut rows);
        Answer::of(rows)
    }

    /// Its rows, in order.
    pub fn as_slice(&self) -> &[AnswerRow]
        ensures { result.now ≡ self.now }
    {
        self.rows.as_slice()
    }

    /// Its text: a line with the number of rows, then a line for each.
    pub fn text(&self, alloc: Global) -> Result<Vec<u8>, NoMemory>
        ensures { IfOk result (λ text. text.items ≡ answer_text self.now) }
    {
        let rows = self.as_slice();
        let mut text = Vec::from_slice(alloc, ROWS)?;
        print_whole(&mut text, rows.len() as u128)?;
        text.push(NEWLINE)?;
        print_rows(&mut text, rows)?;
        Ok(text)
    }
}

// Puts the lines of these rows behind what is there.
fn print_rows(text: &mut Vec<u8>, rows: &[AnswerRow]) -> Result<(), NoMemory>
    ensures { OnOk result (text.new.items ≡ text.old.items ++ flat_map row_line rows.now) }
{
    for row in rows {
        print_row(text, row)?;
        text.push(NEWLINE)?;
    }
    Ok(())
}

// Puts the columns of a row behind what is there, with bars between them.
fn print_row(text: &mut Vec<u8>, row: &AnswerRow) -> Result<(), NoMemory>
    ensures { OnOk result (text.new.items ≡ text.old.items ++ row_text row.now) }
{
    match row.as_slice().split_first() {
        Some((first, further)) => {
            print_column(text, first)?;
            print_further(text, further)
        }
        None => Ok(()),
    }
}

// Puts further columns behind what is there, a bar before each.
fn print_further(text: &mut Vec<u8>, columns: &[Option<Cell>]) -> Result<(), NoMemory>
    requires { All CanPrint (map column_seen columns.now) }
    ensures { OnOk result (text.new.items ≡ text.old.items ++ flat_map further_text (map column_seen columns.now)) }
{
    for column in columns {
        text.push(BAR)?;
        print_column(text, column)?;
    }
    Ok(())
}
