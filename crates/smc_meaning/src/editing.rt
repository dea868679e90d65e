//! What an edit does with a row.
ghost use Rattle.std.specs.Prelude.{◌≡◌, ◌≤ℤ◌, ◌<ℤ◌, neg_ℤ, pos, true, unsigned_abs, length};
ghost use Rattle.smc_types.specs.Cells.{is_number};
ghost use Rattle.smc_types.specs.Faults.{range_fault};
ghost use Rattle.smc_types.specs.Numbers as numbers;
ghost use Rattle.smc_types.specs.declared.number.TheConstants.{OFFSET};
ghost use Rattle.smc_types.specs.declared.row.Value.TheVariants.{Number as OfNumber};
ghost use Rattle.smc_plan.specs.Edits.{edit_tree};
ghost use Rattle.smc_plan.specs.Kinds.{IsEdit};
ghost use Rattle.smc_plan.specs.Leaves.{leaves_words};
ghost use Rattle.smc_plan.specs.Planned.{filter_condition};
ghost use Rattle.smc_plan.specs.Typed.{typed_tree};
ghost use Rattle.smc_meaning.specs.Edited.{IsFilledBy, column_value, edited, unless_fault, written_of};
ghost use Rattle.smc_meaning.specs.Kept.{meets_filter};
ghost use Rattle.smc_meaning.specs.Values.{value_of};

use crate::filter::meets;
use crate::leaf::scale_of;
use crate::value::{day_at, number_at};
use smc_plan::EditPlan;
use smc_types::{AMOUNT_MAX, COUNT_MAX, DAY_MAX, DAY_MIN, FieldType, RATE_MAX, moved};

/// What an edit does with a row.
#[derive(Clone, Copy, Debug, PartialEq, Eq)]
pub enum Edited {
    /// The row does not meet the condition.
    Unmet,
    /// The value is outside the range of the column.
    Outside,
    /// This word is written.
    Word(u64),
}

// What is written for a number into a column of Counts.
fn count_written(number: i128) -> Edited
    ensures written { result ≡ unless_fault (range_fault (pos 0) COUNT_MAX number) (unsigned_abs number) }
    ensures filled { IsFilledBy result }
{
    if 0 <= number && number <= COUNT_MAX {
        Edited::Word(number as u64)
    } else {
        Edited::Outside
    }
}

// What is written for a number into a column of Amounts, Rates or Days, which holds those between these two.
fn moved_written(least: i128, greatest: i128, number: i128) -> Edited
    requires low { neg_ℤ OFFSET ≤ℤ least }
    requires high { greatest <ℤ OFFSET }
    ensures written { result ≡ unless_fault (range_fault least greatest number) (numbers.moved number) }
    ensures filled { IsFilledBy result }
{
    if least <= number && number <= greatest {
        Edited::Word(moved(number as i64))
    } else {
        Edited::Outside
    }
}

// What is written for a number into a column of numbers.
fn number_written(kind: FieldType, number: i128) -> Edited
    requires { is_number kind ≡ true }
    ensures written { result ≡ written_of kind (OfNumber number) }
    ensures filled { IsFilledBy result }
{
    match kind {
        FieldType::Count => count_written(number),
        FieldType::Amount => moved_written(-AMOUNT_MAX, AMOUNT_MAX, number),
        FieldType::Rate => moved_written(0, RATE_MAX, number),
        _ => unreachable!(),
    }
}

// What is written for the value that an edit has in a row.
fn value_written(plan: &EditPlan, row: &[u64]) -> Edited
    requires words { length row.now ≡ leaves_words plan.now.leaves }
    requires typed { IsEdit plan.now.leaves (edit_tree plan.now) }
    ensures written { result ≡ written_of plan.now.field.kind
        (column_value plan.now.field.kind (value_of plan.now.leaves (typed_tree plan.now.value.typed) row.now)) }
    ensures filled { IsFilledBy result }
{
    let kind = plan.field.kind;
    let value = &plan.value.typed;
    match kind {
        FieldType::Day => {
            let days = day_at(plan.leaves(), value, row);
            moved_written(i128::from(DAY_MIN), i128::from(DAY_MAX), days)
        }
        _ => {
            let number = number_at(plan.leaves(), value, row);
            number_written(kind, number.units_at(scale_of(kind)))
        }
    }
}

// Whether a row meets the condition of an edit.
fn is_met(plan: &EditPlan, row: &[u64]) -> bool
    requires words { length row.now ≡ leaves_words plan.now.leaves }
    requires typed { IsEdit plan.now.leaves (edit_tree plan.now) }
    ensures { result ≡ meets_filter plan.now.leaves (filter_condition plan.now.filter) row.now }
{
    match &plan.filter {
        Some(condition) => meets(plan.leaves(), condition, row),
        None => true,
    }
}

/// What an edit does with a row, given by the words of all its leaves.
pub fn edit(plan: &EditPlan, row: &[u64]) -> Edited
    requires words { length row.now ≡ leaves_words plan.now.leaves }
    requires typed { IsEdit plan.now.leaves (edit_tree plan.now) }
    ensures edited { result ≡ edited (edit_tree plan.now) row.now }
    ensures filled { IsFilledBy result }
{
    if is_met(plan, row) {
        value_written(plan, row)
    } else {
        Edited::Unmet
    }
}
