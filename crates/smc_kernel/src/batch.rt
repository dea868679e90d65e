//! Up to 64 rows, column by column.
ghost use Rattle.std.specs.Prelude.{◌≡◌, ◌≢◌, ◌++◌, ◌∷◌, [], ◌<◌, ◌≤◌, ◌+◌, ◌*◌, ◌^◌, ℕ, length, map, slice_index, IfOk};
ghost use Rattle.smc_kernel.specs.Batches.{row_at};
ghost use Rattle.smc_kernel.specs.declared.batch.TheConstants.{ROOM};
ghost use Rattle.smc_plan.specs.Leaves.{leaves_words};

use smc_plan::Plan;
use smc_words::NoMemory;
use std::alloc::Global;
use std::marker::Model;

/// How many rows a batch has room for.
pub const ROOM: usize = 64;

/// Rows of as many words as the leaves of a plan take, word by word: the first word of each row, then the second of each.
/// Contracts see the rows.
#[derive(Debug, Drop)]
pub struct Batch {
    width: usize,
    cells: Vec<u64>,
    count: usize,
}

impl Model for Batch {
    ghost use Rattle.smc_meaning.specs.Rows.{RowList};
    ghost use Rattle.smc_kernel.specs.Batches.{rows_of_columns, AreColumns};

    ghost Value = { RowList };

    ghost view = { λ batch. record { width = batch.width; rows = rows_of_columns batch.width batch.cells.items batch.count } };

    ghost invariant = { λ batch. AreColumns batch.width batch.cells.items batch.count };
}

// Puts the words of a row at a place of columns.
fn put_row(cells: &mut [u64], place: usize, row: &[u64])
    requires size { length cells.old ≡ length row.now * ROOM }
    requires below { place < ROOM }
    ensures here { (k : ℕ) → k < length row.now → slice_index cells.new (k * ROOM + place) ≡ slice_index row.now k }
    ensures others { (k j : ℕ) → j < ROOM → j ≢ place → slice_index cells.new (k * ROOM + j) ≡ slice_index cells.old (k * ROOM + j) }
{
    for i in 0..row.len() {
        cells[i * ROOM + place] = row[i];
    }
}

// Reads the words of the row at a place of columns.
fn take_row(cells: &[u64], place: usize, row: &mut [u64])
    requires size { length cells.now ≡ length row.old * ROOM }
    requires below { place < ROOM }
    ensures here { (k : ℕ) → k < length row.new → slice_index row.new k ≡ slice_index cells.now (k * ROOM + place) }
    ensures long { length row.new ≡ length row.old }
{
    for i in 0..row.len() {
        row[i] = cells[i * ROOM + place];
    }
}

impl Batch {
    /// No rows, and room for 64 of the plan's.
    pub fn new(alloc: Global, plan: &Plan) -> Result<Batch, NoMemory>
        ensures { IfOk result (λ batch. batch ≡ record { width = leaves_words plan.now.leaves; rows = [] }) }
    {
        let width = plan.words() as usize;
        Ok(Batch {
            width,
            cells: vec![in alloc; 0; width * ROOM]?,
            count: 0,
        })
    }

    /// How many rows there are.
    pub fn rows(&self) -> usize
        ensures rows { result ≡ length self.now.rows }
        ensures few { result ≤ ROOM }
    {
        self.count
    }

    /// Takes all rows out.
    pub fn clear(&mut self)
        ensures { self.new ≡ record self.old { rows = [] } }
    {
        self.count = 0;
    }

    /// Puts a row behind those that are there.
    pub fn add(&mut self, row: &[u64])
        requires room { length self.old.rows < ROOM }
        requires wide { length row.now ≡ self.old.width }
        ensures { self.new ≡ record self.old { rows = self.old.rows ++ row.now ∷ [] } }
    {
        put_row(&mut self.cells, self.count, row);
        self.count += 1;
    }

    /// The words at one place of all rows.
    #[inline(always)]
    pub(crate) fn column(&self, column: usize) -> &[u64]
        requires { column < self.now.width }
        ensures { result.now ≡ map (λ row. slice_index row column) self.now.rows }
    {
        let (_, rest) = self.cells.split_at(column * ROOM);
        let (front, _) = rest.split_at(self.count);
        front
    }

    /// Reads the words of the row at a place.
    pub(crate) fn read_row(&self, place: usize, words: &mut [u64])
        requires place { place < length self.now.rows }
        requires long { length words.old ≡ self.now.width }
        ensures row { words.new ≡ row_at self.now.rows place }
        ensures long { length words.new ≡ length words.old }
    {
        take_row(&self.cells, place, words);
    }
}
