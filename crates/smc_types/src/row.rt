ghost use Rattle.std.specs.Prelude.{◌≡◌};

use crate::RowText;
use std::marker::Model;

/// What stands in one column of a row.
#[derive(Debug, PartialEq, Drop)]
pub enum Value {
    /// A Count, or the hundredths of an Amount or of a Rate.
    Number(i128),
    /// Days from 1970-01-01.
    Day(i32),
    Text(RowText),
}

/// The values of one row, one for each column that is no reference. Contracts see a list.
#[derive(Debug, Drop)]
pub struct Row {
    values: Vec<Value>,
}

impl Model for Row {
    ghost use Rattle.std.specs.Prelude.{List};
    ghost use Rattle.smc_types.specs.declared.row.Value.{Value as RowValue};

    ghost Value = { List RowValue };

    ghost view = { λ row. row.values.items };
}

impl Row {
    /// A row from its values, which takes no memory.
    pub fn of(values: Vec<Value>) -> Row
        ensures { result ≡ values.items }
    {
        Row { values }
    }

    /// Its values.
    pub fn as_slice(&self) -> &[Value]
        ensures { result.now ≡ self.now }
    {
        self.values.as_slice()
    }

    /// Gives the vector back, which takes no memory.
    pub fn into_vec(self) -> Vec<Value>
        ensures { result.items ≡ self }
    {
        self.values
    }
}
