ghost use Rattle.std.specs.Prelude.{◌≡◌, ◌++◌, map, IsTrue, IfOk, OnOk};
ghost use Rattle.std.specs.List.{list_all};
ghost use Rattle.smc_types.specs.Tables.{the_tables};
ghost use Rattle.smc_types.specs.Written.{file_column, reference_column, schema_of, fits};

use crate::FieldType::{Amount, Count, Day, Rate, RefTo, Text};
use crate::catalog::TABLE_COUNT;
use crate::{Catalog, Column, Columns, FieldType, Name, Schema, Schemas};
use smc_words::NoMemory;
use std::alloc::Global;

/// The numbers of the tables.
pub const REGION: u32 = 1;

pub const NATION: u32 = 2;

pub const SUPPLIER: u32 = 3;

pub const CUSTOMER: u32 = 4;

pub const PART: u32 = 5;

pub const PARTSUPP: u32 = 6;

pub const ORDERS: u32 = 7;

pub const LINEITEM: u32 = 8;

/// A table as it is written down in `TABLES`.
#[derive(Clone, Copy)]
struct Written {
    name: &'static str,
    keyed: bool,
    /// The columns of the file.
    file: &'static [(&'static str, FieldType)],
    /// The references: each with its table, and the place of the key column by which it is resolved.
    references: &'static [(&'static str, u32, u32)],
}

static TABLES: [Written; TABLE_COUNT as usize] = [
    Written {
        name: "region",
        keyed: true,
        file: &[
            ("regionkey", Count),
            ("name", Text(25)),
            ("comment", Text(152)),
        ],
        references: &[],
    },
    Written {
        name: "nation",
        keyed: true,
        file: &[
            ("nationkey", Count),
            ("name", Text(25)),
            ("regionkey", Count),
            ("comment", Text(152)),
        ],
        references: &[("region", REGION, 2)],
    },
    Written {
        name: "supplier",
        keyed: true,
        file: &[
            ("suppkey", Count),
            ("name", Text(25)),
            ("address", Text(40)),
            ("nationkey", Count),
            ("phone", Text(15)),
            ("acctbal", Amount),
            ("comment", Text(101)),
        ],
        references: &[("nation", NATION, 3)],
    },
    Written {
        name: "customer",
        keyed: true,
        file: &[
            ("custkey", Count),
            ("name", Text(25)),
            ("address", Text(40)),
            ("nationkey", Count),
            ("phone", Text(15)),
            ("acctbal", Amount),
            ("mktsegment", Text(10)),
            ("comment", Text(117)),
        ],
        references: &[("nation", NATION, 3)],
    },
    Written {
        name: "part",
        keyed: true,
        file: &[
            ("partkey", Count),
            ("name", Text(55)),
            ("mfgr", Text(25)),
            ("brand", Text(10)),
            ("type", Text(25)),
            ("size", Count),
            ("container", Text(10)),
            ("retailprice", Amount),
            ("comment", Text(23)),
        ],
        references: &[],
    },
    Written {
        name: "partsupp",
        keyed: false,
        file: &[
            ("partkey", Count),
            ("suppkey", Count),
            ("availqty", Count),
            ("supplycost", Amount),
            ("comment", Text(199)),
        ],
        references: &[("part", PART, 0), ("supplier", SUPPLIER, 1)],
    },
    Written {
        name: "orders",
        keyed: true,
        file: &[
            ("orderkey", Count),
            ("custkey", Count),
            ("orderstatus", Text(1)),
            ("totalprice", Amount),
            ("orderdate", Day),
            ("orderpriority", Text(15)),
            ("clerk", Text(15)),
            ("shippriority", Count),
            ("comment", Text(79)),
        ],
        references: &[("customer", CUSTOMER, 1)],
    },
    Written {
        name: "lineitem",
        keyed: false,
        file: &[
            ("orderkey", Count),
            ("partkey", Count),
            ("suppkey", Count),
            ("linenumber", Count),
            ("quantity", Amount),
            ("extendedprice", Amount),
            ("discount", Rate),
            ("tax", Rate),
            ("returnflag", Text(1)),
            ("linestatus", Text(1)),
            ("shipdate", Day),
            ("commitdate", Day),
            ("receiptdate", Day),
            ("shipinstruct", Text(25)),
            ("shipmode", Text(10)),
            ("comment", Text(44)),
        ],
        references: &[
            ("order", ORDERS, 0),
            ("part", PART, 1),
            ("supplier", SUPPLIER, 2),
        ],
    },
];

/// The eight tables of the TPC-H benchmark.
pub fn tpch(alloc: Global) -> Result<Catalog, NoMemory>
    ensures { IfOk result (λ catalog. catalog ≡ the_tables) }
{
    let schemas = schemas(alloc, &TABLES)?;
    Ok(Catalog {
        schemas: Schemas::of(schemas),
    })
}

/// The schemas of tables that are written down.
fn schemas(alloc: Global, tables: &[Written]) -> Result<Vec<Schema>, NoMemory>
    requires { IsTrue (list_all fits tables.now) }
    ensures { IfOk result (λ schemas. schemas.items ≡ map schema_of tables.now) }
{
    let mut schemas = Vec::with_capacity(alloc, tables.len())?;
    for written in tables {
        schemas.push(schema(alloc, written)?)?;
    }
    Ok(schemas)
}

/// The schema that is written down so.
fn schema(alloc: Global, written: &Written) -> Result<Schema, NoMemory>
    requires { IsTrue (fits written.now) }
    ensures { IfOk result (λ schema. schema ≡ schema_of written.now) }
{
    let mut columns = Vec::with_capacity(alloc, written.file.len() + written.references.len())?;
    push_file(alloc, &mut columns, written.file)?;
    let file = columns.len() as u32;
    push_references(alloc, &mut columns, written.references)?;
    Ok(Schema {
        name: Name::of(String::from_str(alloc, written.name)?),
        keyed: written.keyed,
        file,
        columns: Columns::of(columns),
    })
}

/// Puts the columns of a file behind those that are there.
fn push_file(
    alloc: Global,
    columns: &mut Vec<Column>,
    file: &[(&str, FieldType)],
) -> Result<(), NoMemory>
    ensures { OnOk result (columns.new.items ≡ columns.old.items ++ map file_column file.now) }
{
    for (name, kind) in file {
        columns.push(Column {
            name: Name::of(String::from_str(alloc, name)?),
            kind: *kind,
            by: None,
        })?;
    }
    Ok(())
}

/// Puts references behind the columns that are there.
fn push_references(
    alloc: Global,
    columns: &mut Vec<Column>,
    references: &[(&str, u32, u32)],
) -> Result<(), NoMemory>
    ensures { OnOk result (
        columns.new.items ≡ columns.old.items ++ map reference_column references.now) }
{
    for (name, table, by) in references {
        columns.push(Column {
            name: Name::of(String::from_str(alloc, name)?),
            kind: RefTo(*table),
            by: Some(*by),
        })?;
    }
    Ok(())
}
