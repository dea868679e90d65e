ghost use Rattle.std.specs.Prelude.{◌≡◌, ◌≢◌, ◌≤◌, ◌<◌, ◌+◌, ◌-◌, slice_get, IsTrue, List, ℕ, [], ◌∷◌, None, Ok, Err, IfOk, IfErr, IfSome, OnOk, length, sum_by, string_bytes};
ghost use Rattle.std.specs.Io.KnownBytes.{Appends, Keeps};
ghost use Rattle.smc_outside.specs.Causes.{HasCause, Rose};
ghost use Rattle.smc_outside.specs.Pieces.{AppendsFront};
ghost use Rattle.smc_outside.specs.Told.{OnTold};
ghost use Rattle.smc_model.specs.World.{Replay, empty_world, object_of, world_after};
ghost use Rattle.smc_types.specs.Columns.{value_kinds};
ghost use Rattle.smc_types.specs.Tables.{the_tables};
ghost use Rattle.smc_types.specs.declared.row.Value.{Value};
ghost use Rattle.smc_types.specs.declared.column.FieldType.{FieldType};
ghost use Rattle.smc_types.specs.declared.column.FieldType.TheVariants.{Count};
ghost use Rattle.smc_tbl.specs.TableText.{FitsColumns};
ghost use Rattle.smc_run.specs.Ending.{status_of};
ghost use Rattle.smc_run.specs.Tally.{IsTable, ReadsToEnd, Refuses, TallyEnds, WritesText, counts_first, report, row_event_of, row_events};
ghost use Rattle.smc_run.specs.Tally as spec;

use crate::status::Status;
use smc_model::{Event, Model, Record, Reply};
use smc_outside::{Sink, Source, write_all};
use smc_tbl::laws::one_reading;
use smc_tbl::{Lines, TblFault, next_row};
use smc_types::{Row, Schema, TABLE_COUNT, Value, tpch};
use smc_words::{NoMemory, Number};
use std::alloc::{AllocError, Global};

// The collection of the plain world to which the rows are added.
const ROWS: u8 = 0;

// The place of the first column in a row's record.
const FIRST: u32 = 0;

// The value of the first column of a row, in a table where that is a count.
fn first_count(row: &Row) -> u64
    requires { (kinds : List FieldType) × FitsColumns (Count ∷ kinds) row.now }
    ensures { result ≡ spec.first_count row.now }
{
    match row.as_slice() {
        [Value::Number(count), ..] => *count as u64,
        _ => 0,
    }
}

// The number of the object that the row at this place becomes, from 0.
fn row_number(place: u32) -> Number
    ensures { result ≡ spec.row_number place }
{
    Number {
        incarnation: 1,
        entry: place,
        coll: ROWS,
    }
}

// Adds the row at this place to the plain world, which has none of its number.
fn add_row(alloc: Global, model: &mut Model, place: u32, count: u64) -> Result<(), NoMemory>
    requires { object_of model.old (spec.row_number place) ≡ None }
    ensures done { OnOk result (model.new ≡ world_after model.old (row_event_of place count)) }
{
    let event = Event::Add {
        number: row_number(place),
        coll: ROWS,
        words: Record::of(alloc, &[count])?,
    };
    match model.apply(&event)? {
        Reply::Fits => Ok(()),
        Reply::Unfit => unreachable!(),
    }
}

// How the program ends after a fault of the input's table, where this line was taken last.
fn refusal(fault: TblFault, line: u64) -> Status
    ensures { result ≡ status_of fault line }
{
    match fault {
        TblFault::ReadFault => Status::ReadFault,
        TblFault::NoMemory => Status::NoMemory,
        _ => Status::BadTable { file: None, line },
    }
}

// Reads the whole table, and adds its rows to an empty world.
fn read_table<I: Source>(alloc: Global, input: &mut I, schema: &Schema) -> Result<Model, Status>
    requires { IsTrue (counts_first (value_kinds schema.now.columns)) }
    ensures rows { IfOk result (λ model. (rows : List (List Value)) × IfSome (I.left input.old) (λ text. IsTable schema.now text rows) × Replay empty_world (row_events 0 rows) model) }
    ensures end { OnOk result (OnTold (I.left input.old) (I.left input.new) (λ _ left. left ≡ [])) }
    ensures refused { IfErr result (λ status. Refuses schema.now status (I.left input.old)) }
    ensures failed { result ≡ Err Status.ReadFault → Rose (I.faults input.old) (I.faults input.new) }
    ensures later { I.faults input.old ≤ I.faults input.new }
{
    // A line that is refused spells no row.
    one_reading();
    let mut lines = Lines::new();
    let mut model = Model::new(alloc);
    loop {
        match next_row(alloc, input, &mut lines, schema) {
            Ok(Some(row)) => {
                let place = (lines.line() - 1) as u32;
                add_row(alloc, &mut model, place, first_count(&row))?;
            }
            Ok(None) => return Ok(model),
            Err(fault) => return Err(refusal(fault, lines.line())),
        }
    }
}

fn report_text(alloc: Global, objects: u64, sum: u128) -> Result<String, AllocError>
    ensures done { IfOk result (λ text. string_bytes text ≡ report objects sum) }
{
    format!(in alloc; "objects {objects}, sum {sum}\n")
}

// Writes the report on so many rows with this sum.
fn write_report<O: Sink>(alloc: Global, out: &mut O, objects: u64, sum: u128) -> Status
    ensures ends { WritesText result (O.held out.old) (O.held out.new) (report objects sum) }
    ensures cause { result ≡ Status.WriteFault → Rose (O.faults out.old) (O.faults out.new) }
    ensures later { O.faults out.old ≤ O.faults out.new }
{
    let Ok(text) = report_text(alloc, objects, sum) else {
        return Status::NoMemory;
    };
    match write_all(out, text.as_bytes()) {
        Ok(()) => Status::Done,
        Err(_) => Status::WriteFault,
    }
}

/// Reads the table from the input, and writes how many rows it has and the sum of their first column.
///
/// Nothing is written before the input was read to its end.
pub fn tally<I: Source, O: Sink>(alloc: Global, table: u32, input: &mut I, out: &mut O) -> Status
    requires first { 1 ≤ table }
    requires last { table ≤ TABLE_COUNT }
    ensures ends { IfSome (slice_get the_tables.schemas (table - 1)) (λ schema. TallyEnds schema result (I.left input.old) (O.held out.old) (O.held out.new)) }
    ensures asked { result ≢ Status.BadWords }
    ensures read { ReadsToEnd result (I.left input.old) (I.left input.new) }
    ensures input_cause { result ≡ Status.ReadFault → Rose (I.faults input.old) (I.faults input.new) }
    ensures out_cause { result ≡ Status.WriteFault → Rose (O.faults out.old) (O.faults out.new) }
    ensures input_later { I.faults input.old ≤ I.faults input.new }
    ensures out_later { O.faults out.old ≤ O.faults out.new }
{
    let Ok(catalog) = tpch(alloc) else {
        return Status::NoMemory;
    };
    match read_table(alloc, input, catalog.schema(table)) {
        Ok(model) => write_report(alloc, out, model.count(ROWS), model.total(ROWS, FIRST)),
        Err(status) => status,
    }
}
