ghost use Rattle.std.specs.Prelude.{◌≡◌, ◌≤ℤ◌, ◌<ℤ◌, ◌++◌, ◌∷◌, [], pos, neg_ℤ, unsigned_abs, length, All, IsTrue, IfOk, OnOk, IfErr, None};
ghost use Rattle.smc_types.specs.Columns.{width_of, columns_width, value_count, value_kinds, reference_count, references_last};
ghost use Rattle.smc_types.specs.Faults.{range_fault, text_fault, value_fault, values_fault, row_fault, IsCause};
ghost use Rattle.smc_types.specs.Records.{value_words, record_words, row_words};
ghost use Rattle.smc_types.specs.References.{IsReference, IsFilled};
ghost use Rattle.smc_types.specs.Rows.{IsValue, row_of};
ghost use Rattle.smc_types.specs.Numbers.{moved};
ghost use Rattle.smc_types.specs.Texts.{text_words};

use crate::number::{AMOUNT_MAX, COUNT_MAX, DAY_MAX, DAY_MIN, OFFSET, RATE_MAX, is_from, moved};
use crate::text::push_text;
use crate::{Column, FieldType, Row, Schema, Value};
use smc_words::NoMemory;
use std::alloc::Global;
use thiserror::Error;

/// Why a row has no words.
#[derive(Clone, Copy, Debug, PartialEq, Eq, Error)]
pub enum EncodeFault {
    #[error("the row has not one value for each column")]
    Columns,
    #[error("a value is of another kind than its column")]
    Kind,
    #[error("a number or a day is outside the range of its column")]
    Range,
    #[error("a text is longer than its column")]
    Long,
    #[error("no memory")]
    NoMemory,
}

/// The words of a row and of its references, in the order of the columns.
pub fn encode(
    alloc: Global,
    row: &Row,
    schema: &Schema,
    refs: &[u64],
) -> Result<Vec<u64>, EncodeFault>
    requires count { length refs.now ≡ reference_count schema.now.columns }
    requires each { All IsReference refs.now }
    ensures done { IfOk result (λ words.
        words.items ≡ record_words schema.now.columns row.now refs.now) }
    ensures good { OnOk result (row_fault schema.now.columns row.now ≡ None) }
    ensures cause { IfErr result (IsCause (row_fault schema.now.columns row.now)) }
    ensures width { IfOk result (λ words. length words.items ≡ columns_width schema.now.columns) }

    // What was encoded is read back. References that stand last in the schema stand last in the
    // words, as given. No word is the blank one.
    ensures back { IfOk result (λ words. row_of schema.now.columns words.items ≡ row.now) }
    ensures last { IsTrue (references_last schema.now.columns) → IfOk result (λ words.
        words.items ≡ row_words (value_kinds schema.now.columns) row.now ++ refs.now) }
    ensures filled { IfOk result (λ words. All IsFilled words.items) }
{
    let columns = schema.columns.as_slice();
    let values = row.as_slice();
    if values.len() != value_count(columns) {
        return Err(EncodeFault::Columns);
    }
    let Ok(mut words) = Vec::with_capacity(alloc, schema.width() as usize) else {
        return Err(EncodeFault::NoMemory);
    };
    push_record(&mut words, columns, values, refs)?;
    Ok(words)
}

/// How many of the columns are no references.
fn value_count(columns: &[Column]) -> usize
    ensures { result ≡ value_count columns.now }
{
    columns
        .iter()
        .filter(|column| !column.kind.is_reference())
        .count()
}

/// Puts the words of a row and of its references behind those that are there.
fn push_record(
    words: &mut Vec<u64>,
    columns: &[Column],
    values: &[Value],
    refs: &[u64],
) -> Result<(), EncodeFault>
    requires values { length values.now ≡ value_count columns.now }
    requires references { length refs.now ≡ reference_count columns.now }
    ensures done { OnOk result (
        words.new.items ≡ words.old.items ++ record_words columns.now values.now refs.now) }
    ensures good { OnOk result (values_fault (value_kinds columns.now) values.now ≡ None) }
    ensures texts { OnOk result (All IsValue values.now) }
    ensures cause { IfErr result (IsCause (values_fault (value_kinds columns.now) values.now)) }
{
    let mut value = 0;
    let mut reference = 0;
    for column in columns {
        if column.kind.is_reference() {
            push(words, refs[reference])?;
            reference += 1;
        } else {
            push_value(words, column.kind, &values[value])?;
            value += 1;
        }
    }
    Ok(())
}

/// Puts the words of a value behind those that are there.
fn push_value(words: &mut Vec<u64>, kind: FieldType, value: &Value) -> Result<(), EncodeFault>
    ensures done { OnOk result (words.new.items ≡ words.old.items ++ value_words kind value.now) }
    ensures good { OnOk result (value_fault kind value.now ≡ None) }
    ensures text { OnOk result (IsValue value.now) }
    ensures cause { IfErr result (IsCause (value_fault kind value.now)) }
{
    match (kind, value) {
        (FieldType::Count, Value::Number(number)) => push_count(words, *number),
        (FieldType::Amount, Value::Number(number)) => push_moved(
            words,
            -AMOUNT_MAX,
            AMOUNT_MAX,
            *number,
        ),
        (FieldType::Rate, Value::Number(number)) => push_moved(words, 0, RATE_MAX, *number),
        (FieldType::Day, Value::Day(day)) => {
            push_moved(
                words,
                i128::from(DAY_MIN),
                i128::from(DAY_MAX),
                i128::from(*day),
            )
        }
        (FieldType::Text(width), Value::Text(text)) => push_within(words, width, text.as_slice()),
        _ => Err(EncodeFault::Kind),
    }
}

/// Puts the word of a Count behind those that are there.
fn push_count(words: &mut Vec<u64>, number: i128) -> Result<(), EncodeFault>
    ensures done { OnOk result (words.new.items ≡ words.old.items ++ unsigned_abs number ∷ []) }
    ensures good { OnOk result (range_fault (pos 0) COUNT_MAX number ≡ None) }
    ensures cause { IfErr result (IsCause (range_fault (pos 0) COUNT_MAX number)) }
{
    if !is_from(0, COUNT_MAX, number) {
        return Err(EncodeFault::Range);
    }
    push(words, number as u64)
}

/// Puts the word of an Amount, a Rate or a Day behind those that are there.
fn push_moved(
    words: &mut Vec<u64>,
    least: i128,
    greatest: i128,
    number: i128,
) -> Result<(), EncodeFault>
    requires low { neg_ℤ OFFSET ≤ℤ least }
    requires high { greatest <ℤ OFFSET }
    ensures done { OnOk result (words.new.items ≡ words.old.items ++ moved number ∷ []) }
    ensures good { OnOk result (range_fault least greatest number ≡ None) }
    ensures cause { IfErr result (IsCause (range_fault least greatest number)) }
{
    if !is_from(least, greatest, number) {
        return Err(EncodeFault::Range);
    }
    push(words, moved(number as i64))
}

/// Puts the words of a text behind those that are there.
fn push_within(words: &mut Vec<u64>, width: u32, text: &[u8]) -> Result<(), EncodeFault>
    ensures done { OnOk result (
        words.new.items ≡ words.old.items ++ text_words (width_of (FieldType.Text width)) text.now) }
    ensures good { OnOk result (text_fault width text.now ≡ None) }
    ensures cause { IfErr result (IsCause (text_fault width text.now)) }
{
    if text.len() > width as usize {
        return Err(EncodeFault::Long);
    }
    match push_text(words, text, FieldType::Text(width).width()) {
        Ok(()) => Ok(()),
        Err(NoMemory) => Err(EncodeFault::NoMemory),
    }
}

/// Puts a word behind those that are there.
fn push(words: &mut Vec<u64>, word: u64) -> Result<(), EncodeFault>
    ensures done { OnOk result (words.new.items ≡ words.old.items ++ word ∷ []) }
    ensures cause { IfErr result (λ fault. fault ≡ EncodeFault.NoMemory) }
{
    match words.push(word) {
        Ok(()) => Ok(()),
        Err(_) => Err(EncodeFault::NoMemory),
    }
}
