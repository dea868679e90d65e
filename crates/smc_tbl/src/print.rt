//! A row printed as one line, with a bar behind each field.
ghost use Rattle.std.specs.Prelude.{◌≡◌, ◌++◌, ◌∷◌, [], List, ℕ, None, IfOk, OnOk, decimal};
ghost use Rattle.smc_types.specs.Columns.{value_kinds};
ghost use Rattle.smc_types.specs.Faults.{value_fault};
ghost use Rattle.smc_tbl.specs.Printed.{PrintsBehind, PrintsRow, amount_text, hundredths_text};
ghost use Rattle.smc_types.specs.Days.{IsDay};
ghost use Rattle.smc_tbl.specs.TableText.{FitsColumns};

use crate::bytes::BAR;
use crate::numbers::{MINUS, POINT, ZERO_DIGIT};
use itoa::Buffer;
use smc_types::{FieldType, Row, Schema, Value, day_text};
use smc_words::NoMemory;
use std::alloc::Global;

/// The line of a row, without an end.
pub fn print_row(alloc: Global, row: &Row, schema: &Schema) -> Result<Vec<u8>, NoMemory>
    requires { FitsColumns (value_kinds schema.now.columns) row.now }
    ensures { IfOk result (λ line. PrintsRow (value_kinds schema.now.columns) row.now line.items) }
{
    let values = row.as_slice();
    let columns = schema.columns.as_slice();
    let mut line = Vec::new(alloc);
    let mut place = 0;
    for column in columns {
        if !column.kind.is_reference() {
            print_value(&mut line, column.kind, &values[place])?;
            line.push(BAR)?;
            place += 1;
        }
    }
    Ok(line)
}

// Puts the text of a value behind what is there.
fn print_value(line: &mut Vec<u8>, kind: FieldType, value: &Value) -> Result<(), NoMemory>
    requires { value_fault kind value.now ≡ None }
    ensures { OnOk result (PrintsBehind kind value.now line.old.items line.new.items) }
{
    match (kind, value) {
        (FieldType::Count, Value::Number(count)) => print_number(line, *count as u64),
        (FieldType::Amount, Value::Number(amount)) => print_amount(line, *amount),
        (FieldType::Rate, Value::Number(rate)) => print_hundredths(line, *rate as u64),
        (FieldType::Day, Value::Day(day)) => print_day(line, *day),
        (FieldType::Text(_), Value::Text(text)) => Ok(line.extend_from_slice(text.as_slice())?),
        _ => unreachable!(),
    }
}

// Puts a number behind what is there.
fn print_number(line: &mut Vec<u8>, number: u64) -> Result<(), NoMemory>
    ensures { OnOk result (line.new.items ≡ line.old.items ++ decimal number) }
{
    let mut buffer = Buffer::new();
    line.extend_from_slice(buffer.format(number).as_bytes())?;
    Ok(())
}

// Puts hundredths behind what is there, with two decimals.
fn print_hundredths(line: &mut Vec<u8>, units: u64) -> Result<(), NoMemory>
    ensures { OnOk result (line.new.items ≡ line.old.items ++ hundredths_text units) }
{
    print_number(line, units / 100)?;
    let decimals = (units % 100) as u8;
    line.extend_from_slice(&[
        POINT,
        ZERO_DIGIT + decimals / 10,
        ZERO_DIGIT + decimals % 10,
    ])?;
    Ok(())
}

// Puts an amount behind what is there.
fn print_amount(line: &mut Vec<u8>, amount: i128) -> Result<(), NoMemory>
    requires { value_fault FieldType.Amount (Value.Number amount) ≡ None }
    ensures { OnOk result (line.new.items ≡ line.old.items ++ amount_text amount) }
{
    if amount < 0 {
        line.push(MINUS)?;
    }
    print_hundredths(line, amount.unsigned_abs() as u64)
}

// Puts a day behind what is there.
fn print_day(line: &mut Vec<u8>, day: i32) -> Result<(), NoMemory>
    requires { IsDay day }
    ensures { OnOk result (PrintsBehind FieldType.Day (Value.Day day) line.old.items line.new.items) }
{
    match day_text(day) {
        Some(text) => Ok(line.extend_from_slice(&text)?),
        None => unreachable!(),
    }
}
