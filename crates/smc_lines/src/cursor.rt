ghost use Rattle.std.specs.Prelude.{◌≡◌, ◌≢◌, ◌≤◌, ◌<◌, ◌+◌, [], ◌∷◌, length, MatchOption, IfSome, IfNone};
ghost use Rattle.std.specs.Str.Lines.{strip_carriage_return};
ghost use Rattle.smc_lines.specs.Lines.{ended_lines};
ghost use Rattle.smc_lines.specs.Ahead.{Gives, IsText, Takes};
ghost use Rattle.smc_lines.specs.Ahead as ahead;

use crate::fault::BadLine;
use crate::limits::COMMENT;
use crate::read::{find_newline, without_return};
use memchr::memchr;
use std::marker::Model;

/// A line that counts, with its number from 1.
#[derive(Clone, Copy, Debug, PartialEq, Eq)]
pub struct Numbered<'a> {
    pub line: u64,
    pub text: &'a str,
}

/// What was not handed out yet of a text. Contracts see the lines that are left, and how many went before.
#[derive(Drop)]
pub struct Cursor<'a> {
    rest: &'a [u8],
    number: u64,
}

impl<'a> Model for Cursor<'a> {
    ghost use Rattle.std.specs.Prelude.{◌≤◌, ◌+◌, length};
    ghost use Rattle.smc_lines.specs.Lines.{lines};
    ghost use Rattle.smc_lines.specs.Rest.{Rest};
    ghost use Rattle.smc_lines.specs.declared.limits.TheConstants.{MAX_LINES};

    ghost Value = { Rest };

    ghost view = { λ c. record { number = c.number; lines = lines c.rest.now } };

    ghost invariant = { λ c. c.number + length (lines c.rest.now) ≤ MAX_LINES };
}

// The first line without its newline, and what is behind it.
fn split_line(text: &[u8]) -> (&[u8], &[u8])
    requires { 0 < length text.now }
    ensures { ended_lines text.now ≡ result.0.now ∷ ended_lines result.1.now }
{
    match find_newline(text) {
        Some(size) => {
            let (line, _) = text.split_at(size);
            let (_, later) = text.split_at(size + 1);
            (line, later)
        }
        None => text.split_at(text.len()),
    }
}

// The text of a line, where it is one.
fn text_of(line: &[u8]) -> Option<&str>
    ensures some { IfSome result (λ text. IsText line.now × (text.now ≡ line.now)) }
    ensures none { IfNone result (¬ IsText line.now) }
{
    if memchr(0, line).is_some() {
        return None;
    }
    match str::from_utf8(line) {
        Ok(text) => Some(text),
        Err(_) => None,
    }
}

fn is_quiet(line: &str) -> bool
    ensures { result ≡ ahead.is_quiet line.now }
{
    match line.as_bytes() {
        [] => true,
        [byte, ..] => *byte == COMMENT,
    }
}

impl<'a> Cursor<'a> {
    ghost use Rattle.std.specs.Prelude.{◌≡◌, ◌≤◌, ◌+◌, length};
    ghost use Rattle.smc_lines.specs.Lines.{lines};
    ghost use Rattle.smc_lines.specs.declared.limits.TheConstants.{MAX_LINES};

    pub(crate) fn of(text: &'a [u8]) -> Self
        requires { length (lines text.now) ≤ MAX_LINES }
        ensures { result ≡ record { number = 0; lines = lines text.now } }
    {
        Cursor {
            rest: text,
            number: 0,
        }
    }

    /// How many lines were taken or passed over.
    pub fn line(&self) -> u64
        ensures value { result ≡ self.now.number }
        ensures limit { result + length self.now.lines ≤ MAX_LINES }
    {
        let _ = &self.rest;
        self.number
    }

    // Takes the next line.
    fn take_line(&mut self) -> Option<&'a [u8]>
        ensures line { IfSome result (λ line. Takes self.old line.now self.new) }
        ensures none { IfNone result ((self.old.lines ≡ []) × (self.new ≡ self.old)) }
    {
        let rest = self.rest;
        if rest.is_empty() {
            return None;
        }
        let (line, later) = split_line(rest);
        self.rest = later;
        self.number += 1;
        Some(without_return(line))
    }

    /// Takes the next line that counts: empty lines and comments are passed over.
    ///
    /// A line that is no text is taken and refused, also where it would have been a comment.
    pub fn next_line(&mut self) -> Result<Option<Numbered<'a>>, BadLine>
        ensures { Gives result self.old self.new }
    {
        while let Some(line) = self.take_line() {
            let Some(text) = text_of(line) else {
                return Err(BadLine { line: self.number });
            };
            if !is_quiet(text) {
                let line = self.number;
                return Ok(Some(Numbered { line, text }));
            }
        }
        Ok(None)
    }
}

#[cfg(test)]
mod tests {
    use super::*;
    use crate::read::read_lines;
    use smc_outside::MemSource;
    use std::alloc::Global;
    use std::test::Fail;

    // What a cursor hands out, up to the first refusal.
    fn told(alloc: Global, text: &[u8]) -> Result<String, Fail> {
        let mut source = MemSource::new(text.to_vec(alloc)?, 3, Vec::new(alloc));
        let read = read_lines(alloc, &mut source)?;
        let mut cursor = read.cursor();
        let mut told = String::new(alloc);
        for _ in 0..9 {
            let said = match cursor.next_line() {
                Ok(Some(Numbered { line, text })) => format!(in alloc; "{line} {text}; ")?,
                Ok(None) => return Ok(told),
                Err(BadLine { line }) => format!(in alloc; "{line} bad; ")?,
            };
            told.push_str(said.as_str())?;
        }
        Ok(told)
    }

    #[test]
    fn lines_are_handed_out_with_their_numbers(rt: HostRuntime) -> Result<(), Fail> {
        let cases = [
            (b"".as_slice(), ""),
            (b"a", "1 a; "),
            (b"a\nb\r\n", "1 a; 2 b; "),
            (b"\n# x\n\r\n \n#", "4  ; "),
            (b"a\r\r\n\r", "1 a\r; "),
            (b" #a\n\n\nb", "1  #a; 4 b; "),
            (b"a\n\xff\nb", "1 a; 2 bad; 3 b; "),
            (b"#\xff\nb", "1 bad; 2 b; "),
            (b"\n#\0\nb", "2 bad; 3 b; "),
        ];
        for (text, lines) in cases {
            let said = told(rt.alloc(), text)?;
            assert_eq!(rt; said.as_str(), lines, "at {text:?}");
        }
        Ok(())
    }

    #[test]
    fn a_cursor_ends_at_the_last_line(rt: HostRuntime) -> Result<(), Fail> {
        let alloc = rt.alloc();
        let mut source = MemSource::new(b"a\n#\n\n".to_vec(alloc)?, 9, Vec::new(alloc));
        let read = read_lines(alloc, &mut source)?;
        let mut cursor = read.cursor();
        assert!(rt; cursor.next_line()?.is_some());
        assert!(rt; cursor.next_line()?.is_none());
        assert!(rt; cursor.next_line()?.is_none());
        assert_eq!(rt; cursor.line(), 3);
        Ok(())
    }
}
