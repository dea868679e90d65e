//! Rows and values as the words of their columns.
ghost use Rattle.std.specs.Prelude.{◌≡◌, ◌<◌, ◌∷◌, [], IfOk, IsTrue, None, true};
ghost use Rattle.smc_words.specs.declared.layout.TheConstants.{BLANK};
ghost use Rattle.smc_types.specs.Columns as kinds;
ghost use Rattle.smc_types.specs.Faults.{value_fault};
ghost use Rattle.smc_types.specs.Records.{value_words};
ghost use Rattle.smc_types.specs.Schemas.{files_first};
ghost use Rattle.smc_script.specs.Tables.{is_editable};
ghost use Rattle.smc_replies.specs.Objects as objects;

use smc_types::{Column, FieldType, Row, Schema, Value, encode, moved};
use smc_words::{NoMemory, Number};
use std::alloc::Global;

// How many of the columns are references.
fn reference_count(columns: &[Column]) -> usize
    ensures { result ≡ kinds.reference_count columns.now }
{
    columns
        .iter()
        .filter(|column| column.kind.is_reference())
        .count()
}

/// The words of a row alone, without those of its references.
pub(crate) fn words_of(alloc: Global, row: &Row, schema: &Schema) -> Result<Vec<u64>, NoMemory>
    requires { IsTrue (files_first schema.now) }
    ensures { IfOk result (λ words. words.items ≡ objects.words_of schema.now row.now) }
{
    let count = reference_count(schema.columns.as_slice());
    let nulls = vec![in alloc; Number::NULL; count]?;
    let Ok(mut words) = encode(alloc, row, schema, &nulls) else {
        return Err(NoMemory);
    };
    // The references stand last.
    words.truncate(words.len() - count);
    Ok(words)
}

/// The word of a value in a column of numbers or days.
pub(crate) fn word_of(kind: FieldType, value: &Value) -> u64
    requires writes { is_editable kind ≡ true }
    requires fits { value_fault kind value.now ≡ None }
    ensures word { value_words kind value.now ≡ result ∷ [] }
    ensures below { result < BLANK }
{
    match (kind, value) {
        (FieldType::Count, Value::Number(number)) => *number as u64,
        (FieldType::Amount | FieldType::Rate, Value::Number(number)) => moved(*number as i64),
        (FieldType::Day, Value::Day(day)) => moved(i64::from(*day)),
        _ => unreachable!(),
    }
}
