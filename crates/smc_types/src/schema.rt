ghost use Rattle.std.specs.Prelude.{◌≡◌, ◌≤◌};
ghost use Rattle.smc_types.specs.Columns.{columns_width};

use crate::column::WIDTH_MAX;
use crate::{Columns, Name};

/// The columns of one table.
#[derive(Debug, Drop)]
pub struct Schema {
    pub name: Name,
    /// Whether objects of the table are found by its first column.
    pub keyed: bool,
    /// How many columns are in the table's file. They stand first, and the references behind them.
    pub file: u32,
    pub columns: Columns,
}

impl Schema {
    /// How many words a record takes.
    pub fn width(&self) -> u32
        ensures words { result ≡ columns_width self.now.columns }
        ensures narrow { result ≤ WIDTH_MAX }
    {
        let mut words = 0;
        for column in self.columns.as_slice() {
            words += column.kind.width();
        }
        words
    }
}
