//! The next line of a text, read into the words of its record.
ghost use Rattle.std.specs.Prelude.{◌≡◌, ◌≤◌, ◌+◌, true, length, take, drop, IfSome, IfNone, IfErr, OnOk};
ghost use Rattle.std.specs.Io.KnownBytes.{prepend_known};
ghost use Rattle.std.specs.Str.Lines.{strip_carriage_return};
ghost use Rattle.smc_outside.specs.Causes.{Rose};
ghost use Rattle.smc_outside.specs.Told.{OnTold};
ghost use Rattle.smc_tbl.specs.TableText.{Gives, UnlessMemory};
ghost use Rattle.smc_tbl.specs.Reading.{WithinLimit, untaken};
ghost use Rattle.smc_tbl.specs.Reading as reading;
ghost use Rattle.smc_tbl.specs.Words.{AreRowWords, ReadsWords, SpellsWords, without_row};

use crate::buffer::Buffer;
use crate::fault::TblFault;
use crate::lines::{Found, FoundLine, Lines, MAX_LINES, find_line, without_return};
use crate::words::read_words;
use smc_outside::Source;
use smc_types::Schema;

// Takes a line that was found, and reads its words.
fn take_line_words(
    buffer: &mut Buffer,
    found: FoundLine,
    schema: &Schema,
    into: &mut Vec<u64>,
) -> Result<(), TblFault>
    requires line { found.size ≤ found.taken }
    requires within { found.taken ≤ length buffer.old }
    ensures spelled { OnOk result (SpellsWords schema.now (strip_carriage_return (take found.size buffer.old)) into.new.items) }
    ensures fits { OnOk result (AreRowWords schema.now into.new.items) }
    ensures fault { IfErr result (λ fault. UnlessMemory (Err fault) (Gives schema.now (strip_carriage_return (take found.size buffer.old)))) }
    ensures taken { buffer.new ≡ drop found.taken buffer.old }
{
    let (line, _) = buffer.bytes().split_at(found.size);
    let read = read_words(without_return(line), schema, into);
    buffer.drop_front(found.taken);
    read
}

// The words of the next row, where `number` lines were taken before it.
fn take_words<S: Source>(
    source: &mut S,
    buffer: &mut Buffer,
    number: u64,
    schema: &Schema,
    into: &mut Vec<u64>,
) -> Result<bool, TblFault>
    requires { number ≤ MAX_LINES }
    ensures reads { OnTold (prepend_known buffer.old (S.left source.old)) (prepend_known buffer.new (S.left source.new)) (ReadsWords schema.now result into.new.items) }
    ensures fits { result ≡ Ok true → AreRowWords schema.now into.new.items }
    ensures limit { WithinLimit number (without_row result) }
    ensures failed { result ≡ Err TblFault.ReadFault → Rose (S.faults source.old) (S.faults source.new) }
    ensures later { S.faults source.old ≤ S.faults source.new }
{
    let Some(found) = find_line(source, buffer)? else {
        return Ok(false);
    };
    if number == MAX_LINES {
        return Err(TblFault::TooManyLines);
    }
    match found {
        Found::TooLong => Err(TblFault::LineTooLong),
        Found::Line(line) => match take_line_words(buffer, line, schema, into) {
            Ok(()) => Ok(true),
            Err(fault) => Err(fault),
        },
    }
}

// How many lines an answer takes.
fn lines_taken(answer: &Result<bool, TblFault>) -> u64
    ensures { result ≡ reading.lines_taken (without_row answer.now) }
{
    match answer {
        Ok(false) | Err(TblFault::ReadFault) => 0,
        _ => 1,
    }
}

/// Takes the next line and reads the words of its row, in place of what `into` held; false at the end of the input.
///
/// A line that is refused is taken all the same, and its fault, which is that of `next_row`, is answered again by each
/// later call. After a fault `into` says nothing. Memory is taken only where `into` has no room for a record.
pub fn next_words<S: Source>(
    source: &mut S,
    lines: &mut Lines,
    schema: &Schema,
    into: &mut Vec<u64>,
) -> Result<bool, TblFault>
    ensures reads { IfNone lines.old.fault (OnTold (untaken lines.old (S.left source.old)) (untaken lines.new (S.left source.new)) (ReadsWords schema.now result into.new.items)) }
    ensures fits { result ≡ Ok true → AreRowWords schema.now into.new.items }
    ensures limit { IfNone lines.old.fault (WithinLimit lines.old.number (without_row result)) }
    ensures counted { IfNone lines.old.fault (lines.new.number ≡ lines.old.number + reading.lines_taken (without_row result)) }
    ensures failed { IfNone lines.old.fault (result ≡ Err TblFault.ReadFault → Rose (S.faults source.old) (S.faults source.new)) }

    // A fault stays: nothing is taken any more.
    ensures stays { IfSome lines.old.fault (λ fault. (result ≡ Err fault) × (lines.new ≡ lines.old) × (source.new ≡ source.old)) }
    ensures kept_fault { IfErr result (λ fault. lines.new.fault ≡ Some fault) }
    ensures good { OnOk result (lines.new.fault ≡ None) }
    ensures later { S.faults source.old ≤ S.faults source.new }
{
    if let Some(fault) = lines.fault {
        return Err(fault);
    }
    let answer = take_words(source, &mut lines.buffer, lines.number, schema, into);
    lines.number += lines_taken(&answer);
    if let Err(fault) = &answer {
        lines.fault = Some(*fault);
    }
    answer
}
