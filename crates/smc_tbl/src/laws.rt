//! What holds of table text, as theorems over the definitions: functions with no body of their own, whose clauses are the laws.
ghost use Rattle.std.specs.Prelude.{◌≡◌, ◌≤◌, ◌⊎◌, None, All, List, ℕ, length};
ghost use Rattle.std.specs.List.{Contains};
ghost use Rattle.smc_types.specs.declared.schema.Schema.{Schema};
ghost use Rattle.smc_types.specs.Columns.{value_kinds};
ghost use Rattle.smc_types.specs.Faults.{value_fault};
ghost use Rattle.smc_types.specs.Rows.{IsValue};
ghost use Rattle.smc_types.specs.declared.column.FieldType.{FieldType};
ghost use Rattle.smc_types.specs.declared.row.Value.{Value};
ghost use Rattle.smc_types.specs.Tables.{the_tables};
ghost use Rattle.smc_tbl.specs.Alone.{SpellsAlone};
ghost use Rattle.smc_tbl.specs.Printed.{PrintsRow, longest_row};
ghost use Rattle.smc_tbl.specs.TableText.{FitsColumns, GivesOne, IsShort, SpellsRow};

use smc_types::laws::{a_text_says_a_day_in_range, a_text_says_one_day};

/// Every line gives one thing and no other: a row, or its first fault.
pub fn one_reading()
    ensures { (schema : Schema) (line : List ℕ) → GivesOne schema line }
{
    a_text_says_one_day();
}

/// A text that is one field spells one value of a column, or none.
pub fn one_field()
    ensures one { (kind : FieldType) (text : List ℕ) (a b : Value) → SpellsAlone kind text a → SpellsAlone kind text b → a ≡ b }
    ensures some { (kind : FieldType) (text : List ℕ) → ((value : Value) × SpellsAlone kind text value) ⊎ ((value : Value) → ¬ SpellsAlone kind text value) }
{
    a_text_says_one_day();
}

/// What a line or a field spells is within the ranges and widths of its columns, and its texts can stand in a row.
pub fn what_is_spelled_fits()
    ensures row { (schema : Schema) (line : List ℕ) (row : List Value) → SpellsRow schema line row → FitsColumns (value_kinds schema.columns) row }
    ensures texts { (schema : Schema) (line : List ℕ) (row : List Value) → SpellsRow schema line row → All IsValue row }
    ensures value { (kind : FieldType) (text : List ℕ) (value : Value) → SpellsAlone kind text value → value_fault kind value ≡ None }
{
    // What a text says is within the range of a day.
    a_text_says_a_day_in_range();
}

/// What is printed of a row that a line spells is a line that spells it too, unless it is longer than a line may be.
pub fn a_printed_row_is_spelled()
    ensures { (schema : Schema) (row : List Value) (line printed : List ℕ) → SpellsRow schema line row
        → PrintsRow (value_kinds schema.columns) row printed → IsShort printed → SpellsRow schema printed row }
{}

/// A row within the ranges and widths of its columns is printed in so many bytes at most. In each of the eight tables
/// these are no more than a line may have, so a row that a line spells is spelled by what is printed of it.
pub fn a_printed_row_is_short()
    ensures longest { (kinds : List FieldType) (row : List Value) (printed : List ℕ) → FitsColumns kinds row
        → PrintsRow kinds row printed → length printed ≤ longest_row kinds }
    ensures short { (schema : Schema) (row : List Value) (printed : List ℕ) → Contains the_tables.schemas schema
        → FitsColumns (value_kinds schema.columns) row → PrintsRow (value_kinds schema.columns) row printed → IsShort printed }
    ensures spelled { (schema : Schema) (row : List Value) (line printed : List ℕ) → Contains the_tables.schemas schema
        → SpellsRow schema line row → PrintsRow (value_kinds schema.columns) row printed → SpellsRow schema printed row }
{
    // What a text says is within the range of a day.
    a_text_says_a_day_in_range();
}
