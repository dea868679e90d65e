//! The rows of all tables, each a list of words, and the rows that they refer to.
ghost use Rattle.std.specs.Prelude.{◌<◌, IfSome};
ghost use Rattle.smc_types.specs.declared.catalog.TheConstants.{TABLE_COUNT};

use anyhow::bail;
use smc_plan::Leaf;
use smc_tbl::read_words;
use smc_types::{Catalog, Column, FieldType};
use smc_words::NoMemory;
use std::alloc::Global;

/// A row: the words of its columns, with a reference as the place of the row that is meant, counted from 1; 0 is null.
type Record = Vec<u64>;

/// The rows of a table, in the order in which they came.
#[derive(Drop)]
struct Table {
    number: u32,
    records: Vec<Record>,
}

/// The rows of all tables that have some.
#[derive(Drop)]
pub struct World {
    tables: Vec<Table>,
}

impl World {
    /// No rows, which takes no memory.
    pub fn new(alloc: Global) -> World {
        World {
            tables: Vec::new(alloc),
        }
    }

    /// The rows of a table.
    fn records(&self, number: u32) -> &[Record] {
        match self.tables.iter().find(|table| table.number == number) {
            Some(table) => table.records.as_slice(),
            None => &[],
        }
    }

    /// How many rows a table has.
    pub fn len(&self, number: u32) -> usize {
        self.records(number).len()
    }

    /// The word of a reference to the last row with this key, 0 where there is none.
    fn reference(&self, number: u32, key: u64) -> u64 {
        let records = self.records(number);
        let met = records
            .iter()
            .rposition(|record| record.first() == Some(&key));
        match met {
            Some(place) => place as u64 + 1,
            None => 0,
        }
    }

    /// Adds the row of a line: a table's name and its row. A reference is to a row that came before.
    pub fn add(&mut self, alloc: Global, catalog: &Catalog, line: &str) -> anyhow::Result<()> {
        let Some((name, row)) = line.split_once(' ') else {
            bail!("a row without a table");
        };
        let Some(place) = place_of(catalog, name) else {
            bail!("a table that is not there");
        };
        let schema = &catalog.schemas.as_slice()[place];
        let mut record = Vec::new(alloc);
        read_words(row.as_bytes(), schema, &mut record)?;
        self.refer(&mut record, schema.columns.as_slice())?;
        self.put(alloc, place as u32 + 1, record)?;
        Ok(())
    }

    /// Puts the words of the references behind those of the row.
    fn refer(&self, record: &mut Record, columns: &[Column]) -> Result<(), NoMemory> {
        for column in columns {
            if let FieldType::RefTo(number) = column.kind {
                let key = match column.by {
                    Some(by) => key_at(record, columns, by),
                    None => None,
                };
                record.push(key.map_or(0, |key| self.reference(number, key)))?;
            }
        }
        Ok(())
    }

    /// Puts a row behind those of its table.
    fn put(&mut self, alloc: Global, number: u32, record: Record) -> Result<(), NoMemory> {
        for table in &mut self.tables {
            if table.number == number {
                table.records.push(record)?;
                return Ok(());
            }
        }
        let mut records = Vec::new(alloc);
        records.push(record)?;
        self.tables.push(Table { number, records })?;
        Ok(())
    }

    /// The words of the leaves for the row at a place; `None` where a reference on the way is null.
    pub fn row(
        &self,
        alloc: Global,
        leaves: &[Leaf],
        place: usize,
    ) -> Result<Option<Record>, NoMemory> {
        let mut row = Vec::new(alloc);
        for leaf in leaves {
            match self.leaf(leaf, place) {
                Some(words) => row.extend_from_slice(words)?,
                None => return Ok(None),
            }
        }
        Ok(Some(row))
    }

    /// The words of a leaf, behind its references.
    fn leaf(&self, leaf: &Leaf, start: usize) -> Option<&[u64]> {
        let mut place = start;
        for hop in leaf.hops.as_slice() {
            let record = self.records(hop.table).get(place)?;
            let word = *record.get(hop.at as usize)?;
            place = (word as usize).checked_sub(1)?;
        }
        let record = self.records(leaf.table).get(place)?;
        let at = leaf.at as usize;
        record.get(at..at + leaf.kind.width() as usize)
    }
}

/// The key in a column of a row.
fn key_at(record: &[u64], columns: &[Column], by: u32) -> Option<u64> {
    let before = columns.iter().take(by as usize);
    let place = before.fold(
        0,
        |place: usize, column| place.saturating_add(column.kind.width() as usize),
    );
    record.get(place).copied()
}

/// The place of the schema of the table with this name. The table's number is one more.
pub fn place_of(catalog: &Catalog, name: &str) -> Option<usize>
    ensures { IfSome result (λ place. place < TABLE_COUNT) }
{
    catalog
        .schemas
        .as_slice()
        .iter()
        .position(|schema| schema.name.as_str() == name)
}
