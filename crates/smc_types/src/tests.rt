ghost use Rattle.std.specs.Prelude.{◌≡◌, length, All, IfOk};
ghost use Rattle.smc_types.specs.Columns.{columns_width, reference_count};
ghost use Rattle.smc_types.specs.References.{IsReference};

use super::*;
use smc_words::{BLANK, NoMemory, Number};
use std::alloc::Global;

/// A text of a row.
fn text(alloc: Global, text: &str) -> Result<Value, NoMemory> {
    let bytes = Vec::from_slice(alloc, text.as_bytes())?;
    if !is_text(&bytes) {
        return Err(NoMemory);
    }
    Ok(Value::Text(RowText::of(bytes)))
}

/// A null for each reference of a table.
fn nulls(alloc: Global, schema: &Schema) -> Result<Vec<u64>, NoMemory>
    ensures count { IfOk result (λ refs. length refs.items ≡ reference_count schema.now.columns) }
    ensures each { IfOk result (λ refs. All IsReference refs.items) }
{
    let columns = schema.columns.as_slice();
    let count = columns
        .iter()
        .filter(|column| column.kind.is_reference())
        .count();
    Ok(vec![in alloc; Number::NULL; count]?)
}

/// The words of a row with nulls for its references.
fn words(alloc: Global, schema: &Schema, row: &Row) -> Result<Vec<u64>, EncodeFault>
    ensures { IfOk result (λ words. length words.items ≡ columns_width schema.now.columns) }
{
    match nulls(alloc, schema) {
        Ok(refs) => encode(alloc, row, schema, &refs),
        Err(NoMemory) => Err(EncodeFault::NoMemory),
    }
}

/// A row of regions.
fn region(alloc: Global, key: i128, name: &str) -> Result<Row, NoMemory> {
    Ok(Row::of(vec![in alloc; Value::Number(key), text(alloc, name)?, text(alloc, "b")?]?))
}

/// A row of suppliers with this balance.
fn supplier(alloc: Global, balance: Value) -> Result<Row, NoMemory> {
    Ok(Row::of(vec![in alloc;
        Value::Number(1),
        text(alloc, "Supplier#000000001")?,
        text(alloc, "street")?,
        Value::Number(8),
        text(alloc, "18-111")?,
        balance,
        text(alloc, "s")?,
    ]?))
}

#[test]
fn a_text_stands_with_its_first_byte_highest(rt: HostRuntime) -> Result<(), NoMemory> {
    let alloc = rt.alloc();
    let catalog = tpch(alloc)?;
    let row = region(alloc, 2, "ASIA")?;
    let Ok(words) = words(alloc, catalog.schema(REGION), &row) else {
        return Err(NoMemory);
    };
    let asia = [2, 0x4153_4941_0000_0000, 0, 0, 0, 0x6200_0000_0000_0000];
    assert!(rt; words.as_slice().starts_with(&asia), "{words:?}");
    Ok(())
}

#[test]
fn an_amount_stands_moved(rt: HostRuntime) -> Result<(), NoMemory> {
    let alloc = rt.alloc();
    let catalog = tpch(alloc)?;
    let row = supplier(alloc, Value::Number(-100))?;
    let Ok(words) = words(alloc, catalog.schema(SUPPLIER), &row) else {
        return Err(NoMemory);
    };
    // One word of the key, four of the name, five of the address, one of the nation, two of the phone.
    assert_eq!(rt; words.get(13).copied(), Some(4_611_686_018_427_387_804));
    Ok(())
}

#[test]
fn the_first_fault_is_told(rt: HostRuntime) -> Result<(), NoMemory> {
    let alloc = rt.alloc();
    let catalog = tpch(alloc)?;
    let regions = catalog.schema(REGION);
    let suppliers = catalog.schema(SUPPLIER);
    let short = Row::of(vec![in alloc; Value::Number(2), text(alloc, "ASIA")?]?);
    let rows = [
        (regions, short, EncodeFault::Columns),
        (
            regions,
            region(alloc, 2, "abcdefghijklmnopqrstuvwxyz")?,
            EncodeFault::Long,
        ),
        (
            regions,
            region(alloc, -1, "abcdefghijklmnopqrstuvwxyz")?,
            EncodeFault::Range,
        ),
        (
            suppliers,
            supplier(alloc, Value::Number(1_000_000_000_000))?,
            EncodeFault::Range,
        ),
        (
            suppliers,
            supplier(alloc, Value::Day(0))?,
            EncodeFault::Kind,
        ),
        (
            suppliers,
            supplier(alloc, Value::Day(i32::MAX))?,
            EncodeFault::Kind,
        ),
    ];
    for (schema, row, fault) in &rows {
        let found = words(alloc, schema, row).err();
        assert_eq!(rt; found, Some(*fault));
    }
    Ok(())
}

#[test]
fn days_are_those_of_the_calendar(rt: HostRuntime) {
    let days: [(&[u8], Option<i32>); 13] = [
        (b"1970-01-01", Some(0)),
        (b"0000-01-01", Some(-719_528)),
        (b"9999-12-31", Some(2_932_896)),
        (b"1992-01-01", Some(8_035)),
        (b"2000-02-29", Some(11_016)),
        (b"0000-02-29", Some(-719_469)),
        (b"1900-02-29", None),
        (b"1996-02-30", None),
        (b"1995-13-01", None),
        (b"1995-00-10", None),
        (b"1995-1-010", None),
        (b"1995/01/01", None),
        (b"+995-01-01", None),
    ];
    for (text, day) in days {
        assert_eq!(rt; read_day(text), day);
        if let Some(day) = day {
            assert!(rt;
                day_text(day).is_some_and(|printed| printed.as_slice() == text),
                "{day}"
            );
        }
    }
    assert_eq!(rt; day_text(-719_529), None);
    assert_eq!(rt; day_text(2_932_897), None);
}

/// A value at an end of its column's range, or a text as wide as its column.
fn at_the_end(alloc: Global, kind: FieldType) -> Result<Value, NoMemory> {
    match kind {
        FieldType::Count => Ok(Value::Number(COUNT_MAX)),
        FieldType::Amount => Ok(Value::Number(-AMOUNT_MAX)),
        FieldType::Rate => Ok(Value::Number(RATE_MAX)),
        FieldType::Day => Ok(Value::Day(DAY_MIN)),
        FieldType::Text(width) => {
            let bytes = vec![in alloc; b'x'; width as usize]?;
            if !is_text(&bytes) {
                return Err(NoMemory);
            }
            Ok(Value::Text(RowText::of(bytes)))
        }
        FieldType::RefTo(_) => Err(NoMemory),
    }
}

#[test]
fn every_table_goes_there_and_back(rt: HostRuntime) -> Result<(), NoMemory> {
    let alloc = rt.alloc();
    let catalog = tpch(alloc)?;
    let tables = [
        ("region", 24),
        ("nation", 26),
        ("supplier", 28),
        ("customer", 32),
        ("part", 25),
        ("partsupp", 31),
        ("orders", 21),
        ("lineitem", 28),
    ];
    for (schema, (name, width)) in catalog.schemas.as_slice().iter().zip(&tables) {
        assert_eq!(rt; schema.name.as_str(), *name);
        assert_eq!(rt; schema.width(), *width);
        let mut values = Vec::new(alloc);
        for column in schema.columns.as_slice() {
            if !column.kind.is_reference() {
                values.push(at_the_end(alloc, column.kind)?)?;
            }
        }
        let row = Row::of(values);
        let Ok(words) = words(alloc, schema, &row) else {
            return Err(NoMemory);
        };
        let read = decode(alloc, &words, schema)?;
        assert!(rt; read.as_slice() == row.as_slice(), "{name}");
    }
    Ok(())
}

#[test]
fn words_outside_their_range_read_as_its_end(rt: HostRuntime) -> Result<(), NoMemory> {
    let alloc = rt.alloc();
    let catalog = tpch(alloc)?;
    let orders = catalog.schema(ORDERS);
    let ends = [
        (0, 0, -AMOUNT_MAX, DAY_MIN),
        (BLANK, COUNT_MAX, AMOUNT_MAX, DAY_MAX),
    ];
    for (word, count, amount, day) in ends {
        let words = vec![in alloc; word; orders.width() as usize]?;
        let row = decode(alloc, &words, orders)?;
        let empty = text(alloc, "")?;
        assert!(rt; row.as_slice().first() == Some(&Value::Number(count)));
        assert!(rt; row.as_slice().get(2) == Some(&empty));
        assert!(rt; row.as_slice().get(3) == Some(&Value::Number(amount)));
        assert!(rt; row.as_slice().get(4) == Some(&Value::Day(day)));
    }
    Ok(())
}

#[test]
fn the_latest_number_under_a_key_counts(rt: HostRuntime) -> Result<(), NoMemory> {
    let number = |entry| Number {
        incarnation: 1,
        entry,
        coll: 0,
    };
    let mut keys = Keys::new(rt.alloc());
    keys.put(REGION, 7, number(1))?;
    keys.put(REGION, 8, number(2))?;
    keys.put(REGION, 7, number(3))?;
    assert_eq!(rt; keys.get(REGION, 7), Some(number(3)));
    assert_eq!(rt; keys.get(REGION, 8), Some(number(2)));
    assert_eq!(rt; keys.get(NATION, 7), None);
    Ok(())
}
