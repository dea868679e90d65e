ghost use Rattle.std.specs.Prelude.{ℕ, ◌<◌, List, length, IfOk, OnOk};
ghost use Rattle.std.specs.Io.{WritesAtMost};
ghost use Rattle.std.specs.Io.KnownBytes.{Appends, WriteAppends};
ghost use Rattle.std.specs.declared.option.Option.{Option};
ghost use Rattle.smc_outside.specs.Causes.{HasCause};
ghost use Rattle.smc_outside.specs.Pieces.{AppendsFront};

use crate::Failed;

/// Bytes that go out, as many at a time as the sink likes.
pub trait Sink {
    /// The bytes that the sink holds, where it tells them.
    ghost held: { Self → Option (List ℕ) };

    /// How many calls have failed, up to 2^64 - 1.
    ghost faults: { Self → ℕ };

    /// Writes some of the front of `piece`, and answers how many bytes: at least one where `piece` has any.
    fn write(&mut self, piece: &[u8]) -> Result<usize, Failed>
        ensures bound { WritesAtMost result piece.now }
        ensures progress { IfOk result (λ n. 0 < length piece.now → 0 < n) }
        ensures bytes { WriteAppends (held self.old) (held self.new) result piece.now }
        ensures cause { HasCause (faults self.old) (faults self.new) result };
}

/// Writes all of `bytes`, in as many pieces as the sink likes. After a failure it holds some of the front of `bytes`.
pub fn write_all<K: Sink>(sink: &mut K, bytes: &[u8]) -> Result<(), Failed>
    ensures done { OnOk result (Appends (K.held sink.old) (K.held sink.new) bytes.now) }
    ensures front { AppendsFront (K.held sink.old) (K.held sink.new) bytes.now }
    ensures cause { HasCause (K.faults sink.old) (K.faults sink.new) result }
{
    let mut written = 0;
    while written < bytes.len() {
        let (_, rest) = bytes.split_at(written);
        written += sink.write(rest)?;
    }
    Ok(())
}

#[cfg(test)]
mod tests {
    use super::*;
    use crate::MemSink;
    use std::test::Fail;

    #[test]
    fn all_is_written_or_a_front(rt: HostRuntime) -> Result<(), Fail> {
        // The space, the call that fails, the answer, and what is held.
        let cases = [
            (7, 9, Ok(()), "abcdefg"),
            (7, 1, Err(Failed), "abc"),
            (5, 9, Err(Failed), "abcde"),
        ];
        for (space, fails, answer, held) in cases {
            let mut sink = MemSink::new(rt.alloc(), space, 3, [fails].to_vec(rt.alloc())?)?;
            assert_eq!(rt; write_all(&mut sink, b"abcdefg"), answer, "at {held}");
            assert_eq!(rt; sink.bytes(), held.as_bytes());
        }
        Ok(())
    }
}
