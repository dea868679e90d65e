//! The value of one field, by the type of its column.
ghost use Rattle.std.specs.Prelude.{◌≡◌, ◌↔◌, false, IfOk, IsTrue};
ghost use Rattle.smc_types.specs.Columns.{is_reference};
ghost use Rattle.smc_types.specs.Texts.{IsText};
ghost use Rattle.smc_tbl.specs.Alone as alone;
ghost use Rattle.smc_tbl.specs.Alone.{IsFieldRead, IsFieldText};
ghost use Rattle.smc_tbl.specs.Column.{FieldGives, number_read};
ghost use Rattle.smc_tbl.specs.TableText.{UnlessMemory};

use crate::TblFault;
use crate::bytes::{BAR, is_text, split_at_byte};
use crate::numbers::{read_amount, read_count, read_rate};
use smc_types::{FieldType, RowText, Value, read_day};
use smc_words::NoMemory;
use std::alloc::Global;

/// The value that a field of a line of text spells in a column.
pub fn read_value(alloc: Global, kind: FieldType, field: &[u8]) -> Result<Value, TblFault>
    requires column { is_reference kind ≡ false }
    requires text { IsText field.now }
    ensures { UnlessMemory result (FieldGives kind field.now) }
{
    match kind {
        FieldType::Count => of_number(read_count(field)),
        FieldType::Amount => of_number(read_amount(field)),
        FieldType::Rate => of_number(read_rate(field)),
        FieldType::Day => match read_day(field) {
            Some(day) => Ok(Value::Day(day)),
            None => Err(TblFault::Date),
        },
        FieldType::Text(width) => {
            if field.len() > width as usize {
                return Err(TblFault::TextTooLong);
            }
            Ok(Value::Text(RowText::of(Vec::from_slice(alloc, field)?)))
        }
        FieldType::RefTo(_) => unreachable!(),
    }
}

/// A number that was read, or its fault.
fn of_number(number: Option<i64>) -> Result<Value, TblFault>
    ensures { result ≡ number_read number }
{
    match number {
        Some(number) => Ok(Value::Number(i128::from(number))),
        None => Err(TblFault::Number),
    }
}

// Whether the text can be one field of a line.
fn is_field(text: &[u8]) -> bool
    ensures { IsTrue result ↔ IsFieldText text.now }
{
    match split_at_byte(text, BAR) {
        Some(_) => false,
        None => is_text(text),
    }
}

// Whether memory was refused; any other fault is one of the field.
fn is_memory(fault: TblFault) -> bool
    ensures { result ≡ alone.is_memory fault }
{
    match fault {
        TblFault::NoMemory => true,
        _ => false,
    }
}

/// The value that a text spells which is one field of a column and stands alone; none where it spells no value.
///
/// No text spells a reference.
pub fn read_field(alloc: Global, kind: FieldType, text: &[u8]) -> Result<Option<Value>, NoMemory>
    ensures { IfOk result (IsFieldRead kind text.now) }
{
    if kind.is_reference() || !is_field(text) {
        return Ok(None);
    }
    let fault = match read_value(alloc, kind, text) {
        Ok(value) => return Ok(Some(value)),
        Err(fault) => fault,
    };
    if is_memory(fault) {
        return Err(NoMemory);
    }
    Ok(None)
}
