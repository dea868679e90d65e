// The trusted edge: readers and writers of std, which tell no content of a file, a pipe or a terminal.
ghost use Rattle.std.specs.Prelude.{◌≡◌, ◌<◌, length, IfOk};
ghost use Rattle.std.specs.Io.{ReadsAtMost, WritesAtMost};
ghost use Rattle.std.specs.Io.KnownBytes.{ReadConsumes, WriteAppends};
ghost use Rattle.smc_outside.specs.Causes.{HasCause, faults_after};

use crate::failed::Faults;
use crate::{Failed, Sink, Source};
use std::io::{Read, Write};

/// A reader of std, with a count of its errors. It tells what the reader tells: of a real stream, nothing.
#[derive(Drop)]
pub struct StdSource<R: Read + Drop> {
    reader: R,
    faults: Faults,
}

impl<R: Read + Drop> StdSource<R> {
    /// A source that reads from `reader`, of which no call has failed.
    pub fn new(reader: R) -> Self
        ensures left { ⟦<StdSource<R> as Source>⟧.left result ≡ R.remaining reader }
        ensures faults { ⟦<StdSource<R> as Source>⟧.faults result ≡ 0 }
    {
        StdSource {
            reader,
            faults: Faults::none(),
        }
    }
}

impl<R: Read + Drop> Source for StdSource<R> {
    ghost left = { λ s. R.remaining s.reader };

    ghost faults = { λ s. s.faults };

    fn read(&mut self, buf: &mut [u8]) -> Result<usize, Failed>
        ensures bound { ReadsAtMost result buf.new }
        ensures bytes { let left = ⟦<StdSource<R> as Source>⟧.left in
            ReadConsumes (left self.old) (left self.new) result buf.new }
        ensures cause { let faults = ⟦<StdSource<R> as Source>⟧.faults in
            HasCause (faults self.old) (faults self.new) result }
        ensures counted { let faults = ⟦<StdSource<R> as Source>⟧.faults in
            faults self.new ≡ faults_after (faults self.old) result }
    {
        match self.reader.read(buf) {
            Ok(count) => Ok(count),
            Err(_) => Err(self.faults.raise()),
        }
    }
}

/// A writer of std, with a count of its errors. It tells what the writer tells: of a real stream, nothing.
///
/// A writer that takes no byte of a piece that is not empty is at fault too, since to try again could go on forever.
#[derive(Drop)]
pub struct StdSink<W: Write + Drop> {
    writer: W,
    faults: Faults,
}

impl<W: Write + Drop> StdSink<W> {
    /// A sink that writes to `writer`, of which no call has failed.
    pub fn new(writer: W) -> Self
        ensures held { ⟦<StdSink<W> as Sink>⟧.held result ≡ W.contents writer }
        ensures faults { ⟦<StdSink<W> as Sink>⟧.faults result ≡ 0 }
    {
        StdSink {
            writer,
            faults: Faults::none(),
        }
    }
}

impl<W: Write + Drop> Sink for StdSink<W> {
    ghost held = { λ s. W.contents s.writer };

    ghost faults = { λ s. s.faults };

    fn write(&mut self, piece: &[u8]) -> Result<usize, Failed>
        ensures bound { WritesAtMost result piece.now }
        ensures progress { IfOk result (λ n. 0 < length piece.now → 0 < n) }
        ensures bytes { let held = ⟦<StdSink<W> as Sink>⟧.held in
            WriteAppends (held self.old) (held self.new) result piece.now }
        ensures cause { let faults = ⟦<StdSink<W> as Sink>⟧.faults in
            HasCause (faults self.old) (faults self.new) result }
        ensures counted { let faults = ⟦<StdSink<W> as Sink>⟧.faults in
            faults self.new ≡ faults_after (faults self.old) result }
    {
        match self.writer.write(piece) {
            Ok(count) if count > 0 || piece.is_empty() => Ok(count),
            _ => Err(self.faults.raise()),
        }
    }
}

#[cfg(test)]
mod tests {
    use super::*;
    use crate::write_all;
    use std::io;
    use std::test::Fail;

    // A reader and a writer that fail.
    #[derive(Drop)]
    struct Broken;

    impl Read for Broken {
        fn read(&mut self, _buf: &mut [u8]) -> io::Result<usize> {
            Err(io::ErrorKind::Other.into())
        }
    }

    impl Write for Broken {
        fn write(&mut self, _buf: &[u8]) -> io::Result<usize> {
            Err(io::ErrorKind::Other.into())
        }

        fn flush(&mut self) -> io::Result<()> {
            Ok(())
        }
    }

    #[test]
    fn a_reader_gives_its_bytes_or_fails(rt: HostRuntime) {
        let mut source = StdSource::new(b"abcdef".as_slice());
        for want in ["abcd", "ef", ""] {
            let mut buf = [0; 4];
            match source.read(&mut buf) {
                Ok(count) => assert_eq!(rt; buf[..count], *want.as_bytes(), "at {want}"),
                Err(Failed) => assert!(rt; false, "no failure at {want}"),
            }
        }
        assert_eq!(rt; StdSource::new(Broken).read(&mut [0; 4]), Err(Failed));
    }

    #[test]
    fn a_writer_takes_bytes_or_fails(rt: HostRuntime) -> Result<(), Fail> {
        let mut bytes = Vec::new(rt.alloc());
        assert_eq!(rt; write_all(&mut StdSink::new(&mut bytes), b"abc"), Ok(()));
        assert_eq!(rt; bytes.as_slice(), b"abc".as_slice());

        let mut space = [0; 2];
        let mut full = StdSink::new(space.as_mut_slice());
        for (piece, answer) in [("abc", Ok(2)), ("c", Err(Failed)), ("", Ok(0))] {
            assert_eq!(rt; full.write(piece.as_bytes()), answer, "at {piece}");
        }
        assert_eq!(rt; StdSink::new(Broken).write(b"abc"), Err(Failed));
        Ok(())
    }
}
