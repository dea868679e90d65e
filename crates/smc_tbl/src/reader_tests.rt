use super::*;
use crate::tests::region;
use smc_outside::MemSource;
use smc_types::{Catalog, REGION, tpch};
use std::alloc::Global;
use std::test::Fail;

// The faults of the calls on a text of regions, each with the line then taken.
fn calls(
    alloc: Global,
    catalog: &Catalog,
    text: &[u8],
    fails: &[u64],
    count: usize,
) -> Result<Vec<(Option<TblFault>, u64)>, Fail> {
    let mut source = MemSource::new(text.to_vec(alloc)?, 5, fails.to_vec(alloc)?);
    let mut lines = Lines::new();
    let mut seen = Vec::new(alloc);
    for _ in 0..count {
        let answer = next_row(alloc, &mut source, &mut lines, catalog.schema(REGION));
        seen.push((answer.err(), lines.line()))?;
    }
    Ok(seen)
}

#[test]
fn a_fault_stays_and_takes_its_line(rt: HostRuntime) -> Result<(), Fail> {
    let alloc = rt.alloc();
    let catalog = tpch(alloc)?;
    let count = Some(TblFault::FieldCount);
    let read = Some(TblFault::ReadFault);
    let cases = [
        (
            b"0|a|b|\r\n1|a|b\n2|a|b|\n".as_slice(),
            [].as_slice(),
            [(None, 1), (count, 2), (count, 2)],
        ),
        (b"0|a|b|\n1|a|b|", &[], [(None, 1), (None, 2), (None, 2)]),
        (b"0|a|b|\n1|a|b|\r", &[], [(None, 1), (None, 2), (None, 2)]),
        (b"0|a|b|\n\n", &[], [(None, 1), (count, 2), (count, 2)]),
        (
            b"0|a|b|\n1|a|b|\r\r\n",
            &[],
            [(None, 1), (count, 2), (count, 2)],
        ),
        (b"\r", &[], [(count, 1), (count, 1), (count, 1)]),
        (b"0|a|b|\n1|a|b|\n", &[2], [(None, 1), (read, 1), (read, 1)]),
    ];
    for (case, (text, fails, wants)) in cases.iter().enumerate() {
        let seen = calls(alloc, &catalog, text, fails, 3)?;
        assert_eq!(rt; seen.as_slice(), wants.as_slice(), "at {case}");
    }
    Ok(())
}

#[test]
fn the_end_of_a_line_is_not_counted(rt: HostRuntime) -> Result<(), Fail> {
    let alloc = rt.alloc();
    let catalog = tpch(alloc)?;
    let cases = [
        (1019, "\n", TblFault::TextTooLong),
        (1019, "\r\n", TblFault::TextTooLong),
        (1019, "\r", TblFault::TextTooLong),
        (1020, "\n", TblFault::LineTooLong),
        (1020, "\r\n", TblFault::LineTooLong),
        (1020, "", TblFault::LineTooLong),
        (1021, "", TblFault::LineTooLong),
    ];
    for (comment, end, fault) in cases {
        let mut text = region(alloc, 1, 1, comment)?;
        text.extend_from_slice(end.as_bytes())?;
        let seen = calls(alloc, &catalog, &text, &[], 1)?;
        assert_eq!(rt;
            seen.as_slice(),
            [(Some(fault), 1)].as_slice(),
            "at {comment} {end:?}"
        );
    }
    Ok(())
}
