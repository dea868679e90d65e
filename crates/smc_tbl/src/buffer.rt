ghost use Rattle.std.specs.Prelude.{◌≡◌, ◌<◌, ◌≤◌, ◌+◌, ◌-◌, List, ℕ, [], length, take, drop, IfOk, MatchResult};
ghost use Rattle.std.specs.Io.KnownBytes.{Consumes, Keeps, IsAtEnd, prepend_known};
ghost use Rattle.std.specs.Io.{StartsWith};
ghost use Rattle.smc_outside.specs.Causes.{HasCause};

use smc_outside::{Failed, Source};
use std::marker::Model;

/// How many bytes are read ahead at most.
pub const ROOM: usize = 2048;

/// Bytes that were read ahead, the oldest first.
#[derive(Drop)]
pub struct Buffer {
    bytes: [u8; ROOM],
    start: usize,
    end: usize,
}

impl Model for Buffer {
    ghost use Rattle.std.specs.Prelude.{◌≤◌, ◌-◌, List, ℕ, take, drop};
    ghost use Rattle.smc_tbl.specs.declared.buffer.TheConstants.{ROOM};

    ghost Value = { List ℕ };

    ghost view = { λ b. take (b.end - b.start) (drop b.start b.bytes) };

    ghost invariant = { λ b. (b.start ≤ b.end) × (b.end ≤ ROOM) };
}

// Copies `bytes[start..end]` to the front.
fn move_to_front(bytes: &mut [u8], start: usize, end: usize)
    requires ordered { start ≤ end }
    requires within { end ≤ length bytes.old }
    ensures { take (end - start) bytes.new ≡ take (end - start) (drop start bytes.old) }
{
    bytes.copy_within(start..end, 0);
}

// Reads into the part of `bytes` behind the first `end` of them.
fn read_behind<S: Source>(source: &mut S, bytes: &mut [u8], end: usize) -> Result<usize, Failed>
    requires { end < length bytes.old }
    ensures room { IfOk result (λ count. end + count ≤ length bytes.new) }
    ensures front { take end bytes.new ≡ take end bytes.old }
    ensures piece { MatchResult result (λ count. Consumes (S.left source.old) (S.left source.new) (take count (drop end bytes.new)))
        (λ _. Keeps (S.left source.old) (S.left source.new)) }
    ensures end { IfOk result (λ count. count ≡ 0 → IsAtEnd (S.left source.new)) }
    ensures cause { HasCause (S.faults source.old) (S.faults source.new) result }
{
    let (_, room) = bytes.split_at_mut(end);
    source.read(room)
}

impl Buffer {
    pub fn new() -> Self
        ensures { result ≡ [] }
    {
        Buffer {
            bytes: [0; ROOM],
            start: 0,
            end: 0,
        }
    }

    pub fn bytes(&self) -> &[u8]
        ensures { result.now ≡ self.now }
    {
        &self.bytes[self.start..self.end]
    }

    /// Lets the oldest bytes go.
    pub fn drop_front(&mut self, count: usize)
        requires { count ≤ length self.old }
        ensures { self.new ≡ drop count self.old }
    {
        self.start += count;
    }

    /// Reads on. Nothing is lost: what is kept, followed by what is left, stays as it was.
    pub fn fill<S: Source>(&mut self, source: &mut S) -> Result<usize, Failed>
        requires { length self.old < ROOM }
        ensures grows { IfOk result (λ count. length self.new ≡ length self.old + count) }
        ensures front { StartsWith self.new self.old }
        ensures kept { Keeps (prepend_known self.old (S.left source.old)) (prepend_known self.new (S.left source.new)) }
        ensures end { IfOk result (λ count. count ≡ 0 → IsAtEnd (S.left source.new)) }
        ensures cause { HasCause (S.faults source.old) (S.faults source.new) result }
    {
        move_to_front(&mut self.bytes, self.start, self.end);
        self.end -= self.start;
        self.start = 0;
        let count = read_behind(source, &mut self.bytes, self.end)?;
        self.end += count;
        Ok(count)
    }
}
