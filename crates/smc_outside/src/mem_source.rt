ghost use Rattle.std.specs.Prelude.{◌≡◌, ◌<◌, length, min, is_err, IfOk, Some};
ghost use Rattle.std.specs.Io.{ReadsAtMost};
ghost use Rattle.std.specs.Io.KnownBytes.{ReadConsumes};
ghost use Rattle.smc_outside.specs.Causes.{HasCause};
ghost use Rattle.smc_outside.specs.InMemory.{is_listed, after_read};

use crate::calls::Calls;
use crate::copy::copy_front;
use crate::failed::Faults;
use crate::{Failed, Source};
use std::marker::Model;

/// A source of bytes in memory, whose calls fail exactly where its maker says.
///
/// Its calls are numbered from 0. The number and the count of faults stand still at their last value, 2^64 - 1: should
/// so many calls ever be made, the later ones all have this number.
#[derive(Drop)]
pub struct MemSource {
    bytes: Vec<u8>,
    at: usize,
    most: usize,
    calls: Calls,
    faults: Faults,
}

impl Model for MemSource {
    ghost use Rattle.std.specs.Prelude.{◌<◌, ◌≤◌, drop, vec_len};
    ghost use Rattle.smc_outside.specs.InMemory.{SourceInMemory};

    ghost Value = { SourceInMemory };

    ghost view = { λ s. record {
      left = drop s.at s.bytes.items;
      most = s.most;
      fails = s.calls.fails.items;
      calls = s.calls.made;
      faults = s.faults;
    } };

    ghost invariant = { λ s. (s.at ≤ vec_len s.bytes) × (0 < s.most) };
}

impl MemSource {
    /// A source of `bytes`, at most `most` in a call, where the calls with the numbers in `fails` fail.
    pub fn new(bytes: Vec<u8>, most: usize, fails: Vec<u64>) -> Self
        requires { 0 < most }
        ensures { result ≡ record {
          left = bytes.items;
          most = most;
          fails = fails.items;
          calls = 0;
          faults = 0;
        } }
    {
        MemSource {
            bytes,
            at: 0,
            most,
            calls: Calls::none(fails),
            faults: Faults::none(),
        }
    }
}

impl Source for MemSource {
    ghost left = { λ s. Some s.left };

    ghost faults = { λ s. s.faults };

    fn read(&mut self, buf: &mut [u8]) -> Result<usize, Failed>
        ensures bound { ReadsAtMost result buf.new }
        ensures bytes { ReadConsumes (Some self.old.left) (Some self.new.left) result buf.new }
        ensures cause { HasCause self.old.faults self.new.faults result }

        // It fails exactly where the list names the call, and else gives as much as it may.
        ensures fails { is_err result ≡ is_listed self.old.fails self.old.calls }
        ensures count { IfOk result (λ n.
            n ≡ min self.old.most (min (length self.old.left) (length buf.old))) }
        ensures after { self.new ≡ after_read self.old result }
    {
        if self.calls.count() {
            return Err(self.faults.raise());
        }
        let (_, rest) = self.bytes.split_at(self.at);
        let count = copy_front(rest, self.most, buf);
        self.at += count;
        Ok(count)
    }
}

#[cfg(test)]
mod tests {
    use super::*;
    use std::test::Fail;

    #[test]
    fn reads_come_in_pieces_and_fail_where_listed(rt: HostRuntime) -> Result<(), Fail> {
        // The most of a call, the calls that fail, and what five reads into four bytes give, where "!" is a failure.
        let cases = [
            (9, [].as_slice(), ["abcd", "efg", "", "", ""]),
            (3, [1, 4].as_slice(), ["abc", "!", "def", "g", "!"]),
            (1, [0, 1, 7].as_slice(), ["!", "!", "a", "b", "c"]),
        ];
        for (most, fails, wants) in cases {
            let bytes = b"abcdefg".to_vec(rt.alloc())?;
            let mut source = MemSource::new(bytes, most, fails.to_vec(rt.alloc())?);
            for want in wants {
                let mut buf = [b'.'; 4];
                match source.read(&mut buf) {
                    Ok(count) => assert_eq!(rt; buf[..count], *want.as_bytes(), "most {most}"),
                    Err(Failed) => assert_eq!(rt; want, "!", "most {most}"),
                }
            }
        }
        Ok(())
    }
}
