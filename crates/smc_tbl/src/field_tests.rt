use super::*;
use crate::tests::reading;
use smc_types::{CUSTOMER, LINEITEM, ORDERS, SUPPLIER, tpch};
use std::alloc::Global;
use std::test::Fail;

// A supplier with this account balance.
fn supplier(alloc: Global, balance: &str) -> Result<String, Fail> {
    Ok(format!(in alloc; "1|n|a|2|p|{balance}|c|")?)
}

// An order of this day.
fn order(alloc: Global, day: &str) -> Result<String, Fail> {
    Ok(format!(in alloc; "1|2|O|3.00|{day}|p|c|0||")?)
}

// A line item with this discount.
fn item(alloc: Global, discount: &str) -> Result<String, Fail> {
    Ok(format!(in alloc;
        "1|2|3|4|5.00|6.00|{discount}|0.00|N|O|1996-03-13|1996-02-12|1996-03-22|i|m|c|"
    )?)
}

#[test]
fn an_amount_has_a_sign_and_decimals(rt: HostRuntime) -> Result<(), Fail> {
    let alloc = rt.alloc();
    let catalog = tpch(alloc)?;
    let cases = [
        ("0", Some("0.00")),
        ("-0", Some("0.00")),
        ("-0.00", Some("0.00")),
        ("-0.50", Some("-0.50")),
        ("-0.5", Some("-0.50")),
        ("7.5", Some("7.50")),
        ("007.05", Some("7.05")),
        ("9999999999.99", Some("9999999999.99")),
        ("-9999999999.99", Some("-9999999999.99")),
        ("10000000000", None),
        ("1.", None),
        (".5", None),
        ("1.234", None),
        ("1.2.3", None),
        ("--1", None),
        ("-", None),
        ("+1", None),
        ("", None),
        ("1e3", None),
    ];
    for (balance, printed) in cases {
        let line = supplier(alloc, balance)?;
        let text = match printed {
            Some(printed) => Ok(supplier(alloc, printed)?.into_bytes()),
            None => Err(TblFault::Number),
        };
        let got = reading(alloc, line.as_bytes(), catalog.schema(SUPPLIER))?;
        assert_eq!(rt; got, text, "at {balance}");
    }
    Ok(())
}

#[test]
fn a_rate_has_one_digit_before_the_point(rt: HostRuntime) -> Result<(), Fail> {
    let alloc = rt.alloc();
    let catalog = tpch(alloc)?;
    let cases = [
        ("0", Some("0.00")),
        ("0.5", Some("0.50")),
        ("9.99", Some("9.99")),
        ("10", None),
        ("00", None),
        ("-0", None),
        ("-0.01", None),
        ("1.", None),
        (".5", None),
        ("1.234", None),
        ("", None),
    ];
    for (discount, printed) in cases {
        let line = item(alloc, discount)?;
        let text = match printed {
            Some(printed) => Ok(item(alloc, printed)?.into_bytes()),
            None => Err(TblFault::Number),
        };
        let got = reading(alloc, line.as_bytes(), catalog.schema(LINEITEM))?;
        assert_eq!(rt; got, text, "at {discount}");
    }
    Ok(())
}

#[test]
fn a_day_is_of_the_calendar(rt: HostRuntime) -> Result<(), Fail> {
    let alloc = rt.alloc();
    let catalog = tpch(alloc)?;
    let cases = [
        ("0000-01-01", true),
        ("9999-12-31", true),
        ("1996-02-29", true),
        ("1996-02-30", false),
        ("1900-02-29", false),
        ("1996-13-01", false),
        ("1996-1-01", false),
        ("96-01-01", false),
        ("19960101", false),
        ("1996/01/01", false),
        ("", false),
    ];
    for (day, good) in cases {
        let line = order(alloc, day)?;
        let text = if good {
            Ok(order(alloc, day)?.into_bytes())
        } else {
            Err(TblFault::Date)
        };
        let got = reading(alloc, line.as_bytes(), catalog.schema(ORDERS))?;
        assert_eq!(rt; got, text, "at {day}");
    }
    Ok(())
}

#[test]
fn a_width_counts_bytes(rt: HostRuntime) -> Result<(), Fail> {
    let alloc = rt.alloc();
    let catalog = tpch(alloc)?;
    // A market segment has ten bytes.
    let cases = [
        ("äääää", None),
        ("ääääää", Some(TblFault::TextTooLong)),
        ("€€€a", None),
        ("€€€€", Some(TblFault::TextTooLong)),
        ("🐋🐋aa", None),
        ("🐋🐋aaa", Some(TblFault::TextTooLong)),
    ];
    for (segment, fault) in cases {
        let line = format!(in alloc; "1|n|a|2|p|0|{segment}|c|")?;
        let answer = read_row(alloc, line.as_bytes(), catalog.schema(CUSTOMER));
        assert_eq!(rt; answer.err(), fault, "at {segment}");
    }
    Ok(())
}
