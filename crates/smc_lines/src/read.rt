ghost use Rattle.std.specs.Prelude.{◌≡◌, ◌≢◌, ◌≤◌, ◌<◌, ◌+◌, ◌*◌, List, ℕ, [], ◌∷◌, ◌++◌, Err, length, take, drop, slice_index, All, IfOk, IfErr, IfSome, IfNone, OnOk, IsTrue, false};
ghost use Rattle.std.specs.Io.KnownBytes.{Keeps, IsAtEnd, prepend_known};
ghost use Rattle.std.specs.Str.Lines.{strip_carriage_return};
ghost use Rattle.smc_outside.specs.Causes.{HasCause, Rose};
ghost use Rattle.smc_outside.specs.Told.{OnTold};
ghost use Rattle.smc_lines.specs.Lines.{IsShort, IsWithin};
ghost use Rattle.smc_lines.specs.Reading.{HasEnded, PassesLimit, Reads, IsRead, IsRefused, IsOutside, UnlessMemory};

use crate::fault::LinesFault;
use crate::limits::{MAX_LINE, MAX_LINES, NEWLINE};
use crate::lines::Lines;
use memchr::memchr;
use smc_outside::Source;
use std::alloc::Global;

/// How many bytes one read takes at most.
const ROOM: usize = 4096;

// The line that has not ended: where it begins, and how many have ended before it.
#[derive(Clone, Copy)]
struct Place {
    start: usize,
    ended: u64,
}

/// The place of the first newline.
pub fn find_newline(bytes: &[u8]) -> Option<usize>
    ensures within { IfSome result (λ at. at < length bytes.now) }
    ensures here { IfSome result (λ at. slice_index bytes.now at ≡ NEWLINE) }
    ensures first { IfSome result (λ at. All (λ x. x ≢ NEWLINE) (take at bytes.now)) }
    ensures nowhere { IfNone result (All (λ x. x ≢ NEWLINE) bytes.now) }
{
    memchr(NEWLINE, bytes)
}

/// A line less the one carriage return at its end.
pub fn without_return(line: &[u8]) -> &[u8]
    ensures { result.now ≡ strip_carriage_return line.now }
{
    match line {
        [text @ .., b'\r'] => text,
        _ => line,
    }
}

// Refuses a line behind so many others, or the front of one, where it is past a limit.
fn check_line(line: &[u8], before: u64) -> Result<(), LinesFault>
    requires { before ≤ MAX_LINES }
    ensures few { OnOk result (before < MAX_LINES) }
    ensures short { OnOk result (IsShort (strip_carriage_return line.now)) }
    ensures refused { IfErr result (λ fault. IsRefused fault (strip_carriage_return line.now) before) }
{
    if before == MAX_LINES {
        return Err(LinesFault::TooMany);
    }
    if without_return(line).len() > MAX_LINE {
        return Err(LinesFault::TooLong { line: before + 1 });
    }
    Ok(())
}

// Goes past the lines that have ended.
fn pass_ended(text: &[u8], mut place: Place) -> Result<Place, LinesFault>
    requires { HasEnded text.now place.start place.ended }
    ensures ended { IfOk result (λ place. HasEnded text.now place.start place.ended) }
    ensures no_end { IfOk result (λ place. All (λ x. x ≢ NEWLINE) (drop place.start text.now)) }
    ensures refused { IfErr result (λ fault. (rest : List ℕ) → PassesLimit fault (text.now ++ rest)) }
{
    loop {
        let (_, behind) = text.split_at(place.start);
        let Some(size) = find_newline(behind) else {
            return Ok(place);
        };
        let (line, _) = behind.split_at(size);
        if let Err(fault) = check_line(line, place.ended) {
            return Err(fault);
        }
        place.start += size + 1;
        place.ended += 1;
    }
}

// Goes past the lines that have ended, and sees that the line which has not is within the limits so far.
fn pass_lines(text: &[u8], place: Place) -> Result<Place, LinesFault>
    requires { HasEnded text.now place.start place.ended }
    ensures ended { IfOk result (λ place. HasEnded text.now place.start place.ended) }
    ensures small { IfOk result (λ place. length text.now ≤ place.start + (MAX_LINE + 1)) }
    ensures within { OnOk result (IsWithin text.now) }
    ensures refused { IfErr result (λ fault. (rest : List ℕ) → PassesLimit fault (text.now ++ rest)) }
{
    let place = pass_ended(text, place)?;
    let (_, line) = text.split_at(place.start);
    if line.is_empty() {
        return Ok(place);
    }
    match check_line(line, place.ended) {
        Ok(()) => Ok(place),
        Err(fault) => Err(fault),
    }
}

// Reads on, and answers whether there was more.
fn read_piece<S: Source>(source: &mut S, text: &mut Vec<u8>) -> Result<bool, LinesFault>
    ensures kept { IsRead result (prepend_known text.old.items (S.left source.old)) (prepend_known text.new.items (S.left source.new)) }
    ensures more { IfOk result (λ more. IsTrue more → length text.old.items < length text.new.items) }
    ensures front { IfOk result (λ _. (piece : List ℕ) × (text.new.items ≡ text.old.items ++ piece)) }
    ensures end { IfOk result (λ more. more ≡ false → IsAtEnd (S.left source.new) × (text.new.items ≡ text.old.items)) }
    ensures failed { result ≡ Err LinesFault.ReadFault → Rose (S.faults source.old) (S.faults source.new) × (text.new.items ≡ text.old.items) }
    ensures refused { IfErr result IsOutside }
    ensures later { S.faults source.old ≤ S.faults source.new }
{
    let mut room = [0; ROOM];
    let count = match source.read(&mut room) {
        Ok(count) => count,
        Err(_) => return Err(LinesFault::ReadFault),
    };
    let (piece, _) = room.split_at(count);
    text.extend_from_slice(piece)?;
    Ok(count > 0)
}

/// Reads the whole input into lines.
///
/// The first line past a limit is refused as soon as it was met, and what is behind it is not read.
pub fn read_lines<S: Source>(alloc: Global, source: &mut S) -> Result<Lines, LinesFault>
    ensures reads { UnlessMemory result (λ answer. OnTold (S.left source.old) (S.left source.new) (Reads answer)) }
    ensures failed { result ≡ Err LinesFault.ReadFault → Rose (S.faults source.old) (S.faults source.new) }
    ensures later { S.faults source.old ≤ S.faults source.new }
{
    let mut text = Vec::new(alloc);
    let mut place = Place { start: 0, ended: 0 };
    while read_piece(source, &mut text)? {
        place = match pass_lines(&text, place) {
            Ok(place) => place,
            Err(fault) => return Err(fault),
        };
    }
    Ok(Lines::of(text))
}

#[cfg(test)]
mod tests {
    use super::*;
    use smc_outside::MemSource;
    use std::test::Fail;

    // Bytes of one kind with an end behind them.
    fn line_of(alloc: Global, count: usize, end: &[u8]) -> Result<Vec<u8>, Fail> {
        let mut line = Vec::new(alloc);
        for _ in 0..count {
            line.push(b'x')?;
        }
        line.extend_from_slice(end)?;
        Ok(line)
    }

    // So many lines of one byte, and an end of the text.
    fn lines_of(alloc: Global, count: u64, end: &[u8]) -> Result<Vec<u8>, Fail> {
        let mut text = Vec::new(alloc);
        for _ in 0..count {
            text.extend_from_slice(b"x\n")?;
        }
        text.extend_from_slice(end)?;
        Ok(text)
    }

    // What the reading of a text says, where so many bytes come at a time and these reads fail.
    fn fault_of(
        alloc: Global,
        text: Vec<u8>,
        most: usize,
        fails: &[u64],
    ) -> Result<Option<LinesFault>, Fail> {
        let mut source = MemSource::new(text, most.max(1), fails.to_vec(alloc)?);
        Ok(read_lines(alloc, &mut source).err())
    }

    #[test]
    fn a_line_has_1024_bytes_and_no_more(rt: HostRuntime) -> Result<(), Fail> {
        let long = Some(LinesFault::TooLong { line: 1 });
        let cases = [
            (1024, b"\n".as_slice(), None),
            (1024, b"\r\n", None),
            (1024, b"\r", None),
            (1024, b"", None),
            (1023, b"\r\r\n", None),
            (1025, b"\n", long),
            (1025, b"\r\n", long),
            (1025, b"", long),
            (1024, b"\r\r\n", long),
            (1024, b"\rx", long),
            (5000, b"", long),
        ];
        for (count, end, fault) in cases {
            for most in [1, 1025, 9000] {
                let text = line_of(rt.alloc(), count, end)?;
                assert_eq!(rt;
                    fault_of(rt.alloc(), text, most, &[])?,
                    fault,
                    "at {count}, {most}"
                );
            }
        }
        Ok(())
    }

    #[test]
    fn a_text_has_100000_lines_and_no_more(rt: HostRuntime) -> Result<(), Fail> {
        let cases = [
            (100_000, b"".as_slice(), None),
            (99_999, b"x", None),
            (100_000, b"x", Some(LinesFault::TooMany)),
            (100_000, b"\r", Some(LinesFault::TooMany)),
            (100_001, b"", Some(LinesFault::TooMany)),
        ];
        for (count, end, fault) in cases {
            let text = lines_of(rt.alloc(), count, end)?;
            assert_eq!(rt; fault_of(rt.alloc(), text, 4000, &[])?, fault, "at {count}");
        }
        Ok(())
    }

    #[test]
    fn what_is_met_first_counts(rt: HostRuntime) -> Result<(), Fail> {
        let text = line_of(rt.alloc(), 1025, b"\n")?;
        let fault = fault_of(rt.alloc(), text, 5, &[0])?;
        assert_eq!(rt; fault, Some(LinesFault::ReadFault));
        let text = line_of(rt.alloc(), 1025, b"\nx")?;
        let fault = fault_of(rt.alloc(), text, 1026, &[1])?;
        assert_eq!(rt; fault, Some(LinesFault::TooLong { line: 1 }));
        let text = line_of(rt.alloc(), 3, b"\nx\n")?;
        let fault = fault_of(rt.alloc(), text, 2, &[2])?;
        assert_eq!(rt; fault, Some(LinesFault::ReadFault));
        Ok(())
    }
}
