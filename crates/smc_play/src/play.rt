ghost use Rattle.std.specs.Prelude.{◌≡◌, ◌≤◌};
ghost use Rattle.smc_outside.specs.Causes.{Rose};
ghost use Rattle.smc_play.specs.Ending.{PlayEnds, PlayReads, ends_as, past_limit};

use crate::ending::Ending;
use crate::text::play_all;
use smc_lines::{LinesFault, MAX_LINES, read_lines};
use smc_outside::{Sink, Source, write_all};
use std::alloc::Global;

/// How the playing of a schedule from a source to a sink ends.
#[derive(Clone, Copy, Debug, PartialEq, Eq)]
pub enum PlayEnd {
    /// Each line was played, and each answer was written.
    Done,
    /// This line, counted from 1, is the first that is refused. The answers of the lines before it were written, but for
    /// a line past a limit, at which nothing was played.
    BadLine { line: u64 },
    /// The input failed.
    ReadFault,
    /// The output failed, and has a front of the answers.
    WriteFault,
    /// Memory was refused, and nothing was written.
    NoMemory,
}

/// How it ends where the input has no lines.
fn past_limit(fault: LinesFault) -> PlayEnd
    ensures { result ≡ past_limit fault }
{
    match fault {
        LinesFault::ReadFault => PlayEnd::ReadFault,
        LinesFault::TooLong { line } => PlayEnd::BadLine { line },
        LinesFault::TooMany => PlayEnd::BadLine {
            line: MAX_LINES + 1,
        },
        LinesFault::NoMemory => PlayEnd::NoMemory,
    }
}

/// How it ends where the answers were written.
fn ends_as(ending: Ending) -> PlayEnd
    ensures { result ≡ ends_as ending }
{
    match ending {
        Ending::All => PlayEnd::Done,
        Ending::RefusedAt { line } => PlayEnd::BadLine { line },
    }
}

/// Plays the schedule of the input on the machine, and writes the answers.
///
/// Nothing is played before the input was read to its end.
pub fn play_text<I: Source, O: Sink>(alloc: Global, input: &mut I, out: &mut O) -> PlayEnd
    ensures ends { PlayEnds result (I.left input.old) (O.held out.old) (O.held out.new) }
    ensures read { PlayReads result (I.left input.old) (I.left input.new) }
    ensures input_cause { result ≡ PlayEnd.ReadFault → Rose (I.faults input.old) (I.faults input.new) }
    ensures out_cause { result ≡ PlayEnd.WriteFault → Rose (O.faults out.old) (O.faults out.new) }
    ensures input_later { I.faults input.old ≤ I.faults input.new }
    ensures out_later { O.faults out.old ≤ O.faults out.new }
{
    let lines = match read_lines(alloc, input) {
        Ok(lines) => lines,
        Err(fault) => return past_limit(fault),
    };
    let played = match play_all(alloc, &lines) {
        Ok(played) => played,
        Err(_) => return PlayEnd::NoMemory,
    };
    match write_all(out, played.text.as_bytes()) {
        Ok(()) => ends_as(played.ending),
        Err(_) => PlayEnd::WriteFault,
    }
}

#[cfg(test)]
mod tests {
    use super::*;
    use smc_outside::{MemSink, MemSource};
    use std::test::Fail;

    // How the text ends, and what was written, where these reads and writes fail and the output has so much room.
    fn run(
        alloc: Global,
        text: &str,
        reads: &[u64],
        writes: &[u64],
        space: usize,
    ) -> Result<(PlayEnd, Vec<u8>), Fail> {
        let mut input = MemSource::new(text.as_bytes().to_vec(alloc)?, 9, reads.to_vec(alloc)?);
        let mut out = MemSink::new(alloc, space, 5, writes.to_vec(alloc)?)?;
        let end = play_text(alloc, &mut input, &mut out);
        Ok((end, out.bytes().to_vec(alloc)?))
    }

    #[test]
    fn schedules_are_played_or_refused(rt: HostRuntime) -> Result<(), Fail> {
        let two =
            "# two passes\nshape 2 1 64\n\n0 enter !\n1 enter !\n0 add a 0 1\n1 add b 0 2\n0 !\n1 look a !\n1 !\n";
        let cases = [
            ("shape 1 1 64\n", PlayEnd::Done, ""),
            (
                two,
                PlayEnd::BadLine { line: 9 },
                "0 enter at 2\n1 enter at 2\n0 add made 0\n",
            ),
            (
                "shape 1 1 64\n0 enter !\n0 add a 0 7 !\n0 look a !\n0 read a 0 !\n0 remove a !\n0 look a !\n0 leave !\n",
                PlayEnd::Done,
                "0 enter at 2\n0 add made 0\n0 look here 0\n0 read value 7\n0 remove first\n0 look null\n0 leave out\n",
            ),
            ("", PlayEnd::BadLine { line: 1 }, ""),
            ("\n# none\n", PlayEnd::BadLine { line: 3 }, ""),
            ("shape 1 1 63\n", PlayEnd::BadLine { line: 1 }, ""),
            (
                "shape 1 1 64\n1 enter !\n",
                PlayEnd::BadLine { line: 2 },
                "",
            ),
            ("shape 1 1 64\n0 .\n", PlayEnd::BadLine { line: 2 }, ""),
        ];
        for (case, (text, end, written)) in cases.iter().enumerate() {
            let (ended, held) = run(rt.alloc(), text, &[], &[], 256)?;
            assert_eq!(rt; ended, *end, "at {case}");
            assert_eq!(rt; held.as_slice(), written.as_bytes(), "at {case}");
        }
        Ok(())
    }

    #[test]
    fn faults_outside_are_told(rt: HostRuntime) -> Result<(), Fail> {
        let text = "shape 1 1 64\n0 enter !\n0 leave !\n";
        // The reads and the writes that fail, the room for output, the end, and what was written.
        let cases = [
            ([0].as_slice(), [].as_slice(), 64, PlayEnd::ReadFault, ""),
            ([2].as_slice(), [0].as_slice(), 64, PlayEnd::ReadFault, ""),
            (
                [].as_slice(),
                [1].as_slice(),
                64,
                PlayEnd::WriteFault,
                "0 ent",
            ),
            (
                [].as_slice(),
                [].as_slice(),
                7,
                PlayEnd::WriteFault,
                "0 enter",
            ),
        ];
        for (case, (reads, writes, space, end, written)) in cases.iter().enumerate() {
            let (ended, held) = run(rt.alloc(), text, reads, writes, *space)?;
            assert_eq!(rt; ended, *end, "at {case}");
            assert_eq!(rt; held.as_slice(), written.as_bytes(), "at {case}");
        }
        Ok(())
    }
}
