ghost use Rattle.std.specs.Prelude.{◌≡◌, false, length, IfOk};
ghost use Rattle.smc_types.specs.Columns.{width_of, columns_width, is_reference};
ghost use Rattle.smc_types.specs.Rows.{value_of, row_of};

use crate::cells::{day_in, number_in};
use crate::text::read_text;
use crate::{FieldType, Row, Schema, Value};
use smc_words::NoMemory;
use std::alloc::Global;

/// The row that stands in the words of a record.
pub fn decode(alloc: Global, words: &[u64], schema: &Schema) -> Result<Row, NoMemory>
    requires { length words.now ≡ columns_width schema.now.columns }
    ensures { IfOk result (λ row. row ≡ row_of schema.now.columns words.now) }
{
    let columns = schema.columns.as_slice();
    let mut values = Vec::with_capacity(alloc, columns.len())?;
    let mut at = 0;
    for column in columns {
        let width = column.kind.width() as usize;
        let (_, rest) = words.split_at(at);
        let (field, _) = rest.split_at(width);
        if !column.kind.is_reference() {
            values.push(read_value(alloc, column.kind, field)?)?;
        }
        at += width;
    }
    Ok(Row::of(values))
}

/// The value that stands in the words of a column.
fn read_value(alloc: Global, kind: FieldType, words: &[u64]) -> Result<Value, NoMemory>
    requires words { length words.now ≡ width_of kind }
    requires value { is_reference kind ≡ false }
    ensures { IfOk result (λ value. value ≡ value_of kind words.now) }
{
    match kind {
        FieldType::Count | FieldType::Amount | FieldType::Rate => {
            Ok(Value::Number(number_in(kind, words[0])))
        }
        FieldType::Day => Ok(Value::Day(day_in(words[0]))),
        FieldType::Text(width) => Ok(Value::Text(read_text(alloc, words, width)?)),
        FieldType::RefTo(_) => unreachable!(),
    }
}
