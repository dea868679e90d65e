ghost use Rattle.std.specs.Prelude.{◌≡◌, ◌<◌, [], length, min, is_err, IfOk, Some};
ghost use Rattle.std.specs.Io.{WritesAtMost};
ghost use Rattle.std.specs.Io.KnownBytes.{WriteAppends};
ghost use Rattle.smc_outside.specs.Causes.{HasCause};
ghost use Rattle.smc_outside.specs.InMemory.{room, is_refused, after_write};

use crate::calls::Calls;
use crate::failed::Faults;
use crate::{Failed, Sink};
use smc_words::NoMemory;
use std::alloc::Global;
use std::marker::Model;

/// Room in memory for bytes, whose calls fail exactly where its maker says or where it is full.
///
/// Its calls are numbered from 0. The number and the count of faults stand still at their last value, 2^64 - 1: should
/// so many calls ever be made, the later ones all have this number.
#[derive(Drop)]
pub struct MemSink {
    bytes: Vec<u8>,
    space: usize,
    most: usize,
    calls: Calls,
    faults: Faults,
}

impl Model for MemSink {
    ghost use Rattle.std.specs.Prelude.{◌<◌, ◌≤◌, vec_len, vec_capacity};
    ghost use Rattle.smc_outside.specs.InMemory.{SinkInMemory};

    ghost Value = { SinkInMemory };

    ghost view = { λ s. record {
      held = s.bytes.items;
      space = s.space;
      most = s.most;
      fails = s.calls.fails.items;
      calls = s.calls.made;
      faults = s.faults;
    } };

    ghost invariant = { λ s. (vec_len s.bytes ≤ s.space) × (s.space ≤ vec_capacity s.bytes) × (0 < s.most) };
}

impl MemSink {
    /// An empty sink with room for `space` bytes, at most `most` of which are taken in a call, where the calls with the
    /// numbers in `fails` fail. It takes memory for all of `space` here, so that no write takes any.
    pub fn new(alloc: Global, space: usize, most: usize, fails: Vec<u64>) -> Result<Self, NoMemory>
        requires { 0 < most }
        ensures done { IfOk result (λ sink. sink ≡ record {
          held = [];
          space = space;
          most = most;
          fails = fails.items;
          calls = 0;
          faults = 0;
        }) }
    {
        Ok(MemSink {
            bytes: Vec::with_capacity(alloc, space)?,
            space,
            most,
            calls: Calls::none(fails),
            faults: Faults::none(),
        })
    }

    /// The bytes that were written.
    pub fn bytes(&self) -> &[u8]
        ensures { result.now ≡ self.now.held }
    {
        &self.bytes
    }
}

impl Sink for MemSink {
    ghost held = { λ s. Some s.held };

    ghost faults = { λ s. s.faults };

    fn write(&mut self, piece: &[u8]) -> Result<usize, Failed>
        ensures bound { WritesAtMost result piece.now }
        ensures progress { IfOk result (λ n. 0 < length piece.now → 0 < n) }
        ensures bytes { WriteAppends (Some self.old.held) (Some self.new.held) result piece.now }
        ensures cause { HasCause self.old.faults self.new.faults result }

        // It fails exactly where the list names the call or a byte has no room, and else takes as much as it may.
        ensures fails { is_err result ≡ is_refused self.old piece.now }
        ensures count { IfOk result (λ n.
            n ≡ min self.old.most (min (room self.old) (length piece.now))) }
        ensures after { self.new ≡ after_write self.old piece.now result }
    {
        let room = self.space - self.bytes.len();
        if self.calls.count() || (room == 0 && !piece.is_empty()) {
            return Err(self.faults.raise());
        }
        let count = self.most.min(room.min(piece.len()));
        let (front, _) = piece.split_at(count);
        self.bytes.extend_from_slice(front).unwrap();
        Ok(count)
    }
}

#[cfg(test)]
mod tests {
    use super::*;
    use std::test::Fail;

    #[test]
    fn writes_come_in_pieces_and_fail_where_listed_or_full(rt: HostRuntime) -> Result<(), Fail> {
        // The space, the most of a call, the calls that fail, the answers to four writes, and what is held.
        let cases = [
            (9, 9, [].as_slice(), [Ok(4), Ok(2), Ok(0), Ok(1)], "abcdefg"),
            (
                9,
                3,
                [1].as_slice(),
                [Ok(3), Err(Failed), Ok(0), Ok(1)],
                "abcg",
            ),
            (
                5,
                9,
                [].as_slice(),
                [Ok(4), Ok(1), Ok(0), Err(Failed)],
                "abcde",
            ),
            (0, 1, [2].as_slice(), [Err(Failed); 4], ""),
        ];
        for (space, most, fails, answers, held) in cases {
            let mut sink = MemSink::new(rt.alloc(), space, most, fails.to_vec(rt.alloc())?)?;
            for (piece, answer) in ["abcd", "ef", "", "g"].iter().zip(answers) {
                assert_eq!(rt; sink.write(piece.as_bytes()), answer, "{space} at {piece}");
            }
            assert_eq!(rt; sink.bytes(), held.as_bytes());
        }
        Ok(())
    }
}
