//! Rows of words, one behind the other.
ghost use Rattle.std.specs.Prelude.{◌≡◌, ◌<◌, ◌++◌, ◌∷◌, [], Some, OnErr, OnOk, length, slice_get};

use smc_words::NoMemory;
use std::alloc::Global;
use std::marker::Model;

/// No query sees more rows: no table has more than 2^28 objects.
pub const ROWS_MAX: usize = 0x1000_0000;

/// Rows that have the same number of words each. Contracts see that number, and the list of the rows.
#[derive(Debug, Drop)]
pub struct Rows {
    words: Vec<u64>,
    // Rows may have no words, so they are counted.
    width: usize,
    count: usize,
}

impl Model for Rows {
    ghost use Rattle.std.specs.Prelude.{◌≡◌, ◌*◌, ◌<◌, ◌^◌, length};
    ghost use Rattle.smc_meaning.specs.Rows.{RowList, rows_in};

    ghost Value = { RowList };

    ghost view = { λ list. record { width = list.width; rows = rows_in list.width list.count list.words.items } };

    ghost invariant = { λ list. length list.words.items ≡ list.count * list.width };
}

impl Rows {
    /// No rows, of so many words each.
    pub fn new(alloc: Global, width: usize) -> Rows
        ensures { result ≡ record { width = width; rows = [] } }
    {
        Rows {
            words: Vec::new(alloc),
            width,
            count: 0,
        }
    }

    /// How many words each row has.
    pub fn width(&self) -> usize
        ensures { result ≡ self.now.width }
    {
        self.width
    }

    /// How many rows there are.
    pub fn len(&self) -> usize
        ensures { result ≡ length self.now.rows }
    {
        self.count
    }

    /// The row at a place.
    pub fn get(&self, place: usize) -> &[u64]
        requires { place < length self.now.rows }
        ensures row { slice_get self.now.rows place ≡ Some result.now }
        ensures width { length result.now ≡ self.now.width }
    {
        let (_, rest) = self.words.as_slice().split_at(place * self.width);
        let (row, _) = rest.split_at(self.width);
        row
    }

    /// Puts a row behind all others.
    pub fn push(&mut self, row: &[u64]) -> Result<(), NoMemory>
        requires { length row.now ≡ self.old.width }
        ensures put { OnOk result (self.new ≡ record self.old { rows = self.old.rows ++ row.now ∷ [] }) }
        ensures kept { OnErr result (self.new ≡ self.old) }
    {
        let Some(count) = self.count.checked_add(1) else {
            return Err(NoMemory);
        };
        self.words.extend_from_slice(row)?;
        self.count = count;
        Ok(())
    }
}
