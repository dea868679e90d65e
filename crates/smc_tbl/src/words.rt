//! A line read into the words of its record, with no value between.
ghost use Rattle.std.specs.Prelude.{◌≡◌, ◌∷◌, ◌++◌, [], false, IfOk, IfErr, OnOk};
ghost use Rattle.smc_types.specs.Columns.{is_reference, value_kinds};
ghost use Rattle.smc_types.specs.Texts.{IsText};
ghost use Rattle.smc_tbl.specs.Column.{FieldGives};
ghost use Rattle.smc_tbl.specs.TableText.{FieldsGive, Gives, UnlessMemory};
ghost use Rattle.smc_tbl.specs.Words.{AreRowWords, ColumnAddsWords, FieldAddsWords, LineAddsWords, SpellsWords};

use crate::TblFault;
use crate::bytes::{BAR, MAX_LINE, is_text, split_at_byte};
use crate::grammar::is_divided;
use crate::numbers::{read_amount, read_count, read_rate};
use smc_types::laws::a_text_says_a_day_in_range;
use smc_types::{Column, FieldType, Schema, moved, push_text, read_day};
use smc_words::NoMemory;

/// Reads a line without its end into the words of its record, in place of what `into` held.
///
/// A fault is the one that `read_row` answers. After it, `into` says nothing.
pub fn read_words(line: &[u8], schema: &Schema, into: &mut Vec<u64>) -> Result<(), TblFault>
    ensures spelled { OnOk result (SpellsWords schema.now line.now into.new.items) }
    ensures fits { OnOk result (AreRowWords schema.now into.new.items) }
    ensures fault { IfErr result (λ fault. UnlessMemory (Err fault) (Gives schema.now line.now)) }
{
    // What a text says is within the range of a day.
    a_text_says_a_day_in_range();
    if line.len() > MAX_LINE {
        return Err(TblFault::LineTooLong);
    }
    if !is_text(line) {
        return Err(TblFault::BadText);
    }
    into.clear();
    push_fields(into, schema.columns.as_slice(), line)
}

// The words of the fields of a line of text, one for each column.
fn push_fields(into: &mut Vec<u64>, columns: &[Column], line: &[u8]) -> Result<(), TblFault>
    requires { IsText line.now }
    ensures spelled { OnOk result (LineAddsWords (value_kinds columns.now) line.now into.old.items into.new.items) }
    ensures fault { IfErr result (λ fault. UnlessMemory (Err fault) (FieldsGive (value_kinds columns.now) line.now)) }
{
    match columns {
        [] if line.is_empty() => Ok(()),
        [] => Err(TblFault::FieldCount),
        [column, behind @ ..] if column.kind.is_reference() => push_fields(into, behind, line),
        [column, behind @ ..] => match push_column(into, column.kind, line, behind) {
            Ok(rest) => push_fields(into, behind, rest),
            Err(fault) => Err(fault),
        },
    }
}

// The words of the first column, and the bytes behind its field. A fault is that of a line with these columns behind it.
fn push_column<'a>(
    into: &mut Vec<u64>,
    kind: FieldType,
    line: &'a [u8],
    behind: &[Column],
) -> Result<&'a [u8], TblFault>
    requires column { is_reference kind ≡ false }
    requires text { IsText line.now }
    ensures spelled { IfOk result (λ rest. ColumnAddsWords kind line.now rest.now into.old.items into.new.items) }
    ensures fault { IfErr result (λ fault. UnlessMemory (Err fault) (FieldsGive (kind ∷ value_kinds behind.now) line.now)) }
{
    let Some((field, later)) = split_at_byte(line, BAR) else {
        return Err(TblFault::FieldCount);
    };
    match push_field(into, kind, field) {
        Ok(()) => Ok(later),
        // The number of fields is tested before each of them.
        Err(fault) if is_divided(later, behind) => Err(fault),
        Err(_) => Err(TblFault::FieldCount),
    }
}

// The words of the value that a field spells in a column.
fn push_field(into: &mut Vec<u64>, kind: FieldType, field: &[u8]) -> Result<(), TblFault>
    requires column { is_reference kind ≡ false }
    requires text { IsText field.now }
    ensures spelled { OnOk result (FieldAddsWords kind field.now into.old.items into.new.items) }
    ensures fault { IfErr result (λ fault. UnlessMemory (Err fault) (FieldGives kind field.now)) }
{
    match kind {
        FieldType::Count => match read_count(field) {
            Some(count) => push(into, count as u64),
            None => Err(TblFault::Number),
        },
        FieldType::Amount => match read_amount(field) {
            Some(amount) => push(into, moved(amount)),
            None => Err(TblFault::Number),
        },
        FieldType::Rate => match read_rate(field) {
            Some(rate) => push(into, moved(rate)),
            None => Err(TblFault::Number),
        },
        FieldType::Day => push_day(into, field),
        FieldType::Text(width) => push_within(into, width, field),
        FieldType::RefTo(_) => unreachable!(),
    }
}

// The word of a day.
fn push_day(into: &mut Vec<u64>, field: &[u8]) -> Result<(), TblFault>
    ensures spelled { OnOk result (FieldAddsWords FieldType.Day field.now into.old.items into.new.items) }
    ensures fault { IfErr result (λ fault. UnlessMemory (Err fault) (FieldGives FieldType.Day field.now)) }
{
    // What a text says is within the range of a day.
    a_text_says_a_day_in_range();
    match read_day(field) {
        Some(day) => push(into, moved(i64::from(day))),
        None => Err(TblFault::Date),
    }
}

// The words of a text that is no wider than its column.
fn push_within(into: &mut Vec<u64>, width: u32, field: &[u8]) -> Result<(), TblFault>
    requires { IsText field.now }
    ensures spelled { OnOk result (FieldAddsWords (FieldType.Text width) field.now into.old.items into.new.items) }
    ensures fault { IfErr result (λ fault. UnlessMemory (Err fault) (FieldGives (FieldType.Text width) field.now)) }
{
    if field.len() > width as usize {
        return Err(TblFault::TextTooLong);
    }
    match push_text(into, field, FieldType::Text(width).width()) {
        Ok(()) => Ok(()),
        Err(NoMemory) => Err(TblFault::NoMemory),
    }
}

// One word behind those that are there.
fn push(into: &mut Vec<u64>, word: u64) -> Result<(), TblFault>
    ensures done { OnOk result (into.new.items ≡ into.old.items ++ word ∷ []) }
    ensures cause { IfErr result (λ fault. fault ≡ TblFault.NoMemory) }
{
    match into.push(word) {
        Ok(()) => Ok(()),
        Err(_) => Err(TblFault::NoMemory),
    }
}
