ghost use Rattle.std.specs.Prelude.{◌≡◌, ◌≤◌, ◌<◌, ◌+◌, List, ℕ, [], None, Some, length, take, drop, IfOk, IfSome, IfNone, IfErr, OnOk};
ghost use Rattle.std.specs.Io.KnownBytes.{Keeps, prepend_known};
ghost use Rattle.std.specs.Str.Lines.{strip_carriage_return};
ghost use Rattle.smc_outside.specs.Causes.{HasCause, Rose};
ghost use Rattle.smc_outside.specs.Told.{OnTold};
ghost use Rattle.smc_types.specs.Columns.{value_kinds};
ghost use Rattle.smc_tbl.specs.TableText.{FitsColumns, Gives, UnlessMemory};
ghost use Rattle.smc_tbl.specs.Reading.{Reads, WithinLimit, lines_taken, untaken, IsFound, IsKept};
ghost use Rattle.smc_tbl.specs.Reading as reading;

use crate::buffer::Buffer;
use crate::bytes::{MAX_LINE, NEWLINE, find_byte};
use crate::fault::TblFault;
use crate::grammar::read_row;
use smc_outside::{Failed, Source};
use smc_types::{Row, Schema};
use std::alloc::Global;
use std::marker::Model;

/// How many lines a table has at most.
pub const MAX_LINES: u64 = 1 << 28;

/// What stands between two calls of `next_row` on one source.
#[derive(Drop)]
pub struct Lines {
    pub(crate) buffer: Buffer,
    pub(crate) number: u64,
    pub(crate) fault: Option<TblFault>,
}

impl Model for Lines {
    ghost use Rattle.std.specs.Prelude.{◌≡◌, ◌≤◌, ◌+◌, None};
    ghost use Rattle.smc_tbl.specs.Reader.{Reader};
    ghost use Rattle.smc_tbl.specs.declared.lines.TheConstants.{MAX_LINES};

    ghost Value = { Reader };

    ghost view = { λ l. record { kept = l.buffer; number = l.number; fault = l.fault } };

    ghost invariant = { λ l. (l.number ≤ MAX_LINES + 1) × (l.fault ≡ None → l.number ≤ MAX_LINES) };
}

impl Lines {
    ghost use Rattle.std.specs.Prelude.{◌≡◌, ◌≤◌, ◌+◌, [], None};

    /// A reader that has read nothing yet.
    pub fn new() -> Self
        ensures nothing_kept { result.kept ≡ [] }
        ensures first { result.number ≡ 0 }
        ensures good { result.fault ≡ None }
    {
        Lines {
            buffer: Buffer::new(),
            number: 0,
            fault: None,
        }
    }

    /// The number of the line last taken, 0 before the first. A refused line is taken.
    pub fn line(&self) -> u64
        ensures value { result ≡ self.now.number }
        ensures limit { result ≤ MAX_LINES + 1 }
    {
        self.number
    }
}

// How many bytes a line at the front of a text has without its end, and with it.
#[derive(Clone, Copy)]
pub(crate) struct FoundLine {
    pub(crate) size: usize,
    pub(crate) taken: usize,
}

// What stands at the front of a text that has a line.
#[derive(Clone, Copy)]
pub(crate) enum Found {
    Line(FoundLine),
    // More bytes than a line may have, and no end among them.
    TooLong,
}

pub(crate) fn without_return(line: &[u8]) -> &[u8]
    ensures { result.now ≡ strip_carriage_return line.now }
{
    match line {
        [text @ .., b'\r'] => text,
        _ => line,
    }
}

// Reads on until the buffer has a whole line, or more than one may have; `None` at the end of the input.
pub(crate) fn find_line<S: Source>(
    source: &mut S,
    buffer: &mut Buffer,
) -> Result<Option<Found>, Failed>
    ensures kept { Keeps (prepend_known buffer.old (S.left source.old)) (prepend_known buffer.new (S.left source.new)) }
    ensures within { IfOk result (λ found. IfSome found (λ front. IsKept front buffer.new)) }
    ensures found { IfOk result (λ found. IfSome (prepend_known buffer.new (S.left source.new)) (IsFound found)) }
    ensures cause { HasCause (S.faults source.old) (S.faults source.new) result }
{
    loop {
        let bytes = buffer.bytes();
        if let Some(size) = find_byte(bytes, NEWLINE) {
            let taken = size + 1;
            return Ok(Some(Found::Line(FoundLine { size, taken })));
        }
        let size = bytes.len();
        if size > MAX_LINE + 1 {
            return Ok(Some(Found::TooLong));
        }
        if buffer.fill(source)? == 0 {
            // What is left at the end of the input is a line, if it has a byte.
            if size == 0 {
                return Ok(None);
            }
            let taken = size;
            return Ok(Some(Found::Line(FoundLine { size, taken })));
        }
    }
}

// Takes a line that was found, and reads it.
fn take_line(
    alloc: Global,
    buffer: &mut Buffer,
    found: FoundLine,
    schema: &Schema,
) -> Result<Row, TblFault>
    requires line { found.size ≤ found.taken }
    requires within { found.taken ≤ length buffer.old }
    ensures gives { UnlessMemory result (Gives schema.now (strip_carriage_return (take found.size buffer.old))) }
    ensures fits { IfOk result (FitsColumns (value_kinds schema.now.columns)) }
    ensures taken { buffer.new ≡ drop found.taken buffer.old }
{
    let (line, _) = buffer.bytes().split_at(found.size);
    let row = read_row(alloc, without_return(line), schema);
    buffer.drop_front(found.taken);
    row
}

// The next row, where `number` lines were taken before it.
fn take_row<S: Source>(
    alloc: Global,
    source: &mut S,
    buffer: &mut Buffer,
    number: u64,
    schema: &Schema,
) -> Result<Option<Row>, TblFault>
    requires { number ≤ MAX_LINES }
    ensures reads { OnTold (prepend_known buffer.old (S.left source.old)) (prepend_known buffer.new (S.left source.new)) (Reads schema.now result) }
    ensures fits { IfOk result (λ row. IfSome row (FitsColumns (value_kinds schema.now.columns))) }
    ensures limit { WithinLimit number result }
    ensures failed { result ≡ Err TblFault.ReadFault → Rose (S.faults source.old) (S.faults source.new) }
    ensures later { S.faults source.old ≤ S.faults source.new }
{
    let Some(found) = find_line(source, buffer)? else {
        return Ok(None);
    };
    if number == MAX_LINES {
        return Err(TblFault::TooManyLines);
    }
    match found {
        Found::TooLong => Err(TblFault::LineTooLong),
        Found::Line(line) => match take_line(alloc, buffer, line, schema) {
            Ok(row) => Ok(Some(row)),
            Err(fault) => Err(fault),
        },
    }
}

// How many lines an answer takes.
fn lines_taken(answer: &Result<Option<Row>, TblFault>) -> u64
    ensures { result ≡ reading.lines_taken answer.now }
{
    match answer {
        Ok(None) | Err(TblFault::ReadFault) => 0,
        _ => 1,
    }
}

/// Takes the next line and reads its row; `None` at the end of the input.
///
/// A line that is refused is taken all the same, and its fault is answered again by each later call.
pub fn next_row<S: Source>(
    alloc: Global,
    source: &mut S,
    lines: &mut Lines,
    schema: &Schema,
) -> Result<Option<Row>, TblFault>
    ensures reads { IfNone lines.old.fault (OnTold (untaken lines.old (S.left source.old)) (untaken lines.new (S.left source.new)) (Reads schema.now result)) }
    ensures fits { IfOk result (λ row. IfSome row (FitsColumns (value_kinds schema.now.columns))) }
    ensures limit { IfNone lines.old.fault (WithinLimit lines.old.number result) }
    ensures counted { IfNone lines.old.fault (lines.new.number ≡ lines.old.number + reading.lines_taken result) }
    ensures failed { IfNone lines.old.fault (result ≡ Err TblFault.ReadFault → Rose (S.faults source.old) (S.faults source.new)) }

    // A fault stays: nothing is taken any more.
    ensures stays { IfSome lines.old.fault (λ fault. (result ≡ Err fault) × (lines.new ≡ lines.old) × (source.new ≡ source.old)) }
    ensures kept_fault { IfErr result (λ fault. lines.new.fault ≡ Some fault) }
    ensures good { OnOk result (lines.new.fault ≡ None) }
    ensures later { S.faults source.old ≤ S.faults source.new }
{
    if let Some(fault) = lines.fault {
        return Err(fault);
    }
    let answer = take_row(alloc, source, &mut lines.buffer, lines.number, schema);
    lines.number += lines_taken(&answer);
    if let Err(fault) = &answer {
        lines.fault = Some(*fault);
    }
    answer
}
