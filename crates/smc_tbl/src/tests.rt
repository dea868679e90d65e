use super::*;
use crate::bytes::BAR;
use smc_types::{
    CUSTOMER, FieldType, LINEITEM, NATION, ORDERS, PART, PARTSUPP, REGION, SUPPLIER, Schema, tpch,
};
use std::alloc::Global;
use std::test::Fail;

const SHIPPED: &[u8] =
    b"1|155190|7706|1|17|21168.23|0.04|0.02|N|O|1996-03-13|1996-02-12|1996-03-22|DELIVER IN PERSON|TRUCK|egular courts above the|";

// How a line reads and prints: its one text, or its first fault.
pub(crate) fn reading(
    alloc: Global,
    line: &[u8],
    schema: &Schema,
) -> Result<Result<Vec<u8>, TblFault>, Fail> {
    match read_row(alloc, line, schema) {
        Ok(row) => Ok(Ok(print_row(alloc, &row, schema)?)),
        Err(fault) => Ok(Err(fault)),
    }
}

// A region whose three fields have so many bytes.
pub(crate) fn region(
    alloc: Global,
    key: usize,
    name: usize,
    comment: usize,
) -> Result<Vec<u8>, Fail> {
    let mut line = Vec::new(alloc);
    for (byte, count) in [(b'1', key), (b'n', name), (b'c', comment)] {
        for _ in 0..count {
            line.push(byte)?;
        }
        line.push(BAR)?;
    }
    Ok(line)
}

#[test]
fn a_row_is_printed_in_one_way(rt: HostRuntime) -> Result<(), Fail> {
    let alloc = rt.alloc();
    let catalog = tpch(alloc)?;
    let cases = [
        (
            REGION,
            b"004|MIDDLE EAST|\ta b|".as_slice(),
            b"4|MIDDLE EAST|\ta b|".as_slice(),
        ),
        (REGION, b"000000000000|||", b"0|||"),
        (REGION, b"999999999999|a|b|", b"999999999999|a|b|"),
        (
            LINEITEM,
            SHIPPED,
            b"1|155190|7706|1|17.00|21168.23|0.04|0.02|N|O|1996-03-13|1996-02-12|1996-03-22|DELIVER IN PERSON|TRUCK|egular courts above the|",
        ),
    ];
    for (table, line, text) in cases {
        match reading(alloc, line, catalog.schema(table))? {
            Ok(printed) => assert_eq!(rt; printed.as_slice(), text, "at {line:?}"),
            Err(fault) => assert!(rt; false, "{fault} at {line:?}"),
        }
    }
    Ok(())
}

#[test]
fn the_first_fault_counts(rt: HostRuntime) -> Result<(), Fail> {
    let alloc = rt.alloc();
    let catalog = tpch(alloc)?;
    let cases = [
        (b"1|||".as_slice(), None),
        (b"", Some(TblFault::FieldCount)),
        (b"|||", Some(TblFault::Number)),
        (b"1|a|b", Some(TblFault::FieldCount)),
        (b"1|a|", Some(TblFault::FieldCount)),
        (b"1|a|b|c", Some(TblFault::FieldCount)),
        (b"1|a|b||", Some(TblFault::FieldCount)),
        (b"x|a|b||", Some(TblFault::FieldCount)),
        (b"1|a|b|\r", Some(TblFault::FieldCount)),
        (b"1|a\0|b", Some(TblFault::BadText)),
        (b"1|a\n|b|", Some(TblFault::BadText)),
        (b"1|\x7f|b|", None),
        (b"1|\xc3\xa4|\xe2\x82\xac\xf0\x9f\x90\x8b|", None),
        (b"1|\xc3|b|", Some(TblFault::BadText)),
        (b"1|\xe2\x82|b|", Some(TblFault::BadText)),
        (b"1|\xf0\x9f\x90|b|", Some(TblFault::BadText)),
        (b"1|\xc0\xaf|b|", Some(TblFault::BadText)),
        (b"1|\xe0\x80\xaf|b|", Some(TblFault::BadText)),
        (b"1|\xed\xa0\x80|b|", Some(TblFault::BadText)),
        (b"1|\xf0\x80\x80\xaf|b|", Some(TblFault::BadText)),
        (b"1|\xf4\x90\x80\x80|b|", Some(TblFault::BadText)),
        (b"1|\x80|b|", Some(TblFault::BadText)),
        (b"1|\xff|b", Some(TblFault::BadText)),
        (b"1|\xc3\xa4\0|b|", Some(TblFault::BadText)),
        (b"-1|a|b|", Some(TblFault::Number)),
        (b" 1|a|b|", Some(TblFault::Number)),
        (b"1.0|a|b|", Some(TblFault::Number)),
    ];
    for (line, fault) in cases {
        let answer = read_row(alloc, line, catalog.schema(REGION));
        assert_eq!(rt; answer.err(), fault, "at {line:?}");
    }
    Ok(())
}

#[test]
fn each_limit_is_allowed_and_no_more(rt: HostRuntime) -> Result<(), Fail> {
    let alloc = rt.alloc();
    let catalog = tpch(alloc)?;
    let cases = [
        (12, 25, 152, None),
        (13, 25, 152, Some(TblFault::Number)),
        (13, 26, 152, Some(TblFault::Number)),
        (12, 26, 152, Some(TblFault::TextTooLong)),
        (12, 25, 153, Some(TblFault::TextTooLong)),
        (1, 1, 1019, Some(TblFault::TextTooLong)),
        (1, 1, 1020, Some(TblFault::LineTooLong)),
    ];
    for (key, name, comment, fault) in cases {
        let line = region(alloc, key, name, comment)?;
        let answer = read_row(alloc, &line, catalog.schema(REGION));
        assert_eq!(rt; answer.err(), fault, "at {key}, {name}, {comment}");
    }
    Ok(())
}

// Puts the longest text that is printed of a value of this column behind what is there.
fn push_longest(line: &mut Vec<u8>, kind: FieldType) -> Result<(), Fail> {
    match kind {
        FieldType::Count => line.extend_from_slice(b"999999999999")?,
        FieldType::Amount => line.extend_from_slice(b"-9999999999.99")?,
        FieldType::Rate => line.extend_from_slice(b"9.99")?,
        FieldType::Day => line.extend_from_slice(b"9999-12-31")?,
        FieldType::Text(width) => {
            for _ in 0..width {
                line.push(b'x')?;
            }
        }
        FieldType::RefTo(_) => return Ok(()),
    }
    line.push(BAR)?;
    Ok(())
}

#[test]
fn the_longest_row_of_each_table_is_read_back(rt: HostRuntime) -> Result<(), Fail> {
    let alloc = rt.alloc();
    let catalog = tpch(alloc)?;
    // How many bytes its line has.
    let cases = [
        (REGION, 192),
        (NATION, 205),
        (SUPPLIER, 226),
        (CUSTOMER, 253),
        (PART, 195),
        (PARTSUPP, 254),
        (ORDERS, 179),
        (LINEITEM, 211),
    ];
    for (table, length) in cases {
        let schema = catalog.schema(table);
        let mut line = Vec::new(alloc);
        for column in schema.columns.as_slice() {
            push_longest(&mut line, column.kind)?;
        }
        assert_eq!(rt; line.len(), length, "at {table}");
        let got = reading(alloc, &line, schema)?;
        assert_eq!(rt; got, Ok(line), "at {table}");
    }
    Ok(())
}
