ghost use Rattle.std.specs.Prelude.{◌≡◌, ◌≤◌};
ghost use Rattle.smc_types.specs.Columns.{width_of, is_reference, columns_width};

use crate::Name;
use std::marker::Model;

/// Bytes of text in one word.
pub const WORD_BYTES: u32 = 8;

/// Words of a record at most.
pub const WIDTH_MAX: u32 = 64;

/// What stands in a column.
#[derive(Clone, Copy, Debug, PartialEq, Eq)]
pub enum FieldType {
    /// A whole number from 0 to `COUNT_MAX`.
    Count,
    /// Hundredths, from `-AMOUNT_MAX` to `AMOUNT_MAX`.
    Amount,
    /// Hundredths, from 0 to `RATE_MAX`.
    Rate,
    /// Days from 1970-01-01, from `DAY_MIN` to `DAY_MAX`.
    Day,
    /// A text of at most so many bytes.
    Text(u32),
    /// The number of an object of that table, or null.
    RefTo(u32),
}

impl FieldType {
    /// How many words of a record the column takes.
    pub fn width(self) -> u32
        ensures { result ≡ width_of self }
    {
        match self {
            FieldType::Text(bytes) => bytes.div_ceil(WORD_BYTES),
            _ => 1,
        }
    }

    /// Whether the column is a reference.
    pub fn is_reference(self) -> bool
        ensures { result ≡ is_reference self }
    {
        matches!(self, FieldType::RefTo(_))
    }
}

/// One column of a table.
#[derive(Debug, Drop)]
pub struct Column {
    pub name: Name,
    pub kind: FieldType,
    /// Of a reference, the place of the key column by which it is resolved; of every other column none.
    pub by: Option<u32>,
}

/// The columns of a table, in the order of a record, which has at most `WIDTH_MAX` words. Contracts see a list.
#[derive(Debug, Drop)]
pub struct Columns {
    items: Vec<Column>,
}

impl Model for Columns {
    ghost use Rattle.std.specs.Prelude.{List, ◌≤◌};
    ghost use Rattle.smc_types.specs.declared.column.Column.{Column};
    ghost use Rattle.smc_types.specs.declared.column.TheConstants.{WIDTH_MAX};
    ghost use Rattle.smc_types.specs.Columns.{columns_width};

    ghost Value = { List Column };

    ghost view = { λ columns. columns.items.items };

    ghost invariant = { λ columns. columns_width columns.items.items ≤ WIDTH_MAX };
}

impl Columns {
    /// The columns from a vector, which takes no memory.
    pub fn of(items: Vec<Column>) -> Columns
        requires { columns_width items.items ≤ WIDTH_MAX }
        ensures { result ≡ items.items }
    {
        Columns { items }
    }

    /// The columns as a slice.
    pub fn as_slice(&self) -> &[Column]
        ensures columns { result.now ≡ self.now }
        ensures narrow { columns_width self.now ≤ WIDTH_MAX }
    {
        self.items.as_slice()
    }

    /// Gives the vector back, which takes no memory.
    pub fn into_vec(self) -> Vec<Column>
        ensures columns { result.items ≡ self }
        ensures narrow { columns_width self ≤ WIDTH_MAX }
    {
        self.items
    }
}
