//! A line read by the columns of its table.
ghost use Rattle.std.specs.Prelude.{◌≡◌, ◌∷◌, ◌++◌, ◌↔◌, ℕ, List, false, IsTrue, IfOk, IfErr, Err};
ghost use Rattle.smc_types.specs.Columns.{is_reference, value_kinds};
ghost use Rattle.smc_types.specs.Texts.{IsText};
ghost use Rattle.smc_tbl.specs.Column.{TakesField};
ghost use Rattle.smc_tbl.specs.TableText.{FieldsGive, FitsColumns, Gives, IsDivided, UnlessMemory};

use crate::TblFault;
use crate::bytes::{BAR, MAX_LINE, is_text, split_at_byte};
use crate::fields::read_value;
use smc_types::laws::a_text_says_a_day_in_range;
use smc_types::{Column, FieldType, Row, Schema, Value};
use std::alloc::Global;

/// Reads a line without its end.
pub fn read_row(alloc: Global, line: &[u8], schema: &Schema) -> Result<Row, TblFault>
    ensures gives { UnlessMemory result (Gives schema.now line.now) }
    ensures fits { IfOk result (FitsColumns (value_kinds schema.now.columns)) }
{
    // What a text says is within the range of a day.
    a_text_says_a_day_in_range();
    if line.len() > MAX_LINE {
        return Err(TblFault::LineTooLong);
    }
    if !is_text(line) {
        return Err(TblFault::BadText);
    }
    read_columns(alloc, line, schema)
}

// The values of a line of text, one for each column.
fn read_columns(alloc: Global, line: &[u8], schema: &Schema) -> Result<Row, TblFault>
    requires { IsText line.now }
    ensures { UnlessMemory result (FieldsGive (value_kinds schema.now.columns) line.now) }
{
    let columns = schema.columns.as_slice();
    let mut values = Vec::with_capacity(alloc, schema.file as usize)?;
    let mut rest = line;
    for (place, column) in columns.iter().enumerate() {
        if !column.kind.is_reference() {
            let (_, behind) = columns.split_at(place + 1);
            let (value, later) = match read_column(alloc, column.kind, rest, behind) {
                Ok(read) => read,
                Err(fault) => return Err(fault),
            };
            values.push(value)?;
            rest = later;
        }
    }
    if !rest.is_empty() {
        return Err(TblFault::FieldCount);
    }
    Ok(Row::of(values))
}

// The value of the first column, and the bytes behind its field. A fault is that of a line with these columns behind it.
fn read_column<'a>(
    alloc: Global,
    kind: FieldType,
    line: &'a [u8],
    behind: &[Column],
) -> Result<(Value, &'a [u8]), TblFault>
    requires column { is_reference kind ≡ false }
    requires text { IsText line.now }
    ensures read { IfOk result (λ read. TakesField kind line.now read.0 read.1.now) }
    ensures fault { IfErr result (λ fault. UnlessMemory (Err fault) (FieldsGive (kind ∷ value_kinds behind.now) line.now)) }
{
    let Some((field, later)) = split_at_byte(line, BAR) else {
        return Err(TblFault::FieldCount);
    };
    match read_value(alloc, kind, field) {
        Ok(value) => Ok((value, later)),
        // The number of fields is tested before each of them.
        Err(fault) if is_divided(later, behind) => Err(fault),
        Err(_) => Err(TblFault::FieldCount),
    }
}

/// Whether the line has one field for each of these columns.
pub(crate) fn is_divided(line: &[u8], columns: &[Column]) -> bool
    ensures { IsTrue result ↔ IsDivided (value_kinds columns.now) line.now }
{
    let mut rest = line;
    for column in columns {
        if !column.kind.is_reference() {
            let Some((_, later)) = split_at_byte(rest, BAR) else {
                return false;
            };
            rest = later;
        }
    }
    rest.is_empty()
}
