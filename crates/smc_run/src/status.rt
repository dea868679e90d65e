ghost use Rattle.std.specs.Prelude.{◌≡◌};
ghost use Rattle.smc_run.specs.declared.status.Status.TheVariants as status;

use smc_script::FileName;
use smc_words::NoMemory;
use std::fmt;

/// How the program ended.
#[derive(Debug, Drop)]
pub enum Status {
    /// The input was read to its end and all replies were written.
    Done,
    /// The words of the command line are no command.
    BadWords,
    /// The first line of a schedule that is refused, from 1.
    BadScript { line: u64 },
    /// The first line of a table that is no row of it, from 1; `None` is the table on standard input.
    BadTable { file: Option<FileName>, line: u64 },
    /// No file has the name that a script was to load.
    NoFile { name: FileName },
    /// The input failed, or the shelf.
    ReadFault,
    /// The output failed, and has a front of the text.
    WriteFault,
    /// The table had no room for the row of this line of the file, from 1.
    TableFull { file: FileName, line: u64 },
    /// Memory was refused.
    NoMemory,
}

impl Status {
    ghost use Rattle.std.specs.Prelude.{◌≡◌};
    ghost use Rattle.smc_run.specs.Ending.{code_of};

    /// The number that the process ends with.
    pub fn code(&self) -> u8
        ensures { result ≡ code_of self.now }
    {
        match self {
            Status::Done => 0,
            Status::BadWords => 1,
            Status::BadScript { .. } => 2,
            Status::BadTable { .. } => 3,
            Status::NoFile { .. } => 4,
            Status::ReadFault => 5,
            Status::WriteFault => 6,
            Status::TableFull { .. } => 7,
            Status::NoMemory => 8,
        }
    }
}

/// The line on standard error, which a status other than `Done` has.
impl fmt::Display for Status {
    fn fmt<W: fmt::Write>(&self, f: &mut fmt::Formatter<W>) -> fmt::Result {
        write!(f, "smc: {} ", self.code())?;
        match self {
            Status::Done => write!(f, "done"),
            Status::BadWords => write!(f, "bad words"),
            Status::BadScript { line } => write!(f, "bad script, line {line}"),
            Status::BadTable { file: None, line } => write!(f, "bad table -, line {line}"),
            Status::BadTable {
                file: Some(file),
                line,
            } => write!(f, "bad table {}, line {line}", file.as_str()),
            Status::NoFile { name } => write!(f, "no file {}", name.as_str()),
            Status::ReadFault => write!(f, "read fault"),
            Status::WriteFault => write!(f, "write fault"),
            Status::TableFull { file, line } => {
                write!(f, "table full {}, line {line}", file.as_str())
            }
            Status::NoMemory => write!(f, "no memory"),
        }
    }
}

impl From<NoMemory> for Status {
    ghost from_gives = { λ _ ending. ending ≡ status.NoMemory };

    fn from(_: NoMemory) -> Self {
        Status::NoMemory
    }
}

#[cfg(test)]
mod tests {
    use super::*;
    use std::test::Fail;

    #[test]
    fn each_status_has_its_line(rt: HostRuntime) -> Result<(), Fail> {
        let (Ok(file), Ok(name), Ok(full)) = (
            FileName::of(rt.alloc(), "region.tbl"),
            FileName::of(rt.alloc(), "no.tbl"),
            FileName::of(rt.alloc(), "full.tbl"),
        ) else {
            return Ok(());
        };
        let cases = [
            (Status::BadWords, "smc: 1 bad words"),
            (Status::BadScript { line: 12 }, "smc: 2 bad script, line 12"),
            (
                Status::BadTable {
                    file: None,
                    line: 7,
                },
                "smc: 3 bad table -, line 7",
            ),
            (
                Status::BadTable {
                    file: Some(file),
                    line: 12,
                },
                "smc: 3 bad table region.tbl, line 12",
            ),
            (Status::NoFile { name }, "smc: 4 no file no.tbl"),
            (Status::ReadFault, "smc: 5 read fault"),
            (Status::WriteFault, "smc: 6 write fault"),
            (
                Status::TableFull {
                    file: full,
                    line: 65,
                },
                "smc: 7 table full full.tbl, line 65",
            ),
            (Status::NoMemory, "smc: 8 no memory"),
        ];
        for (status, line) in cases {
            let text = format!(in rt.alloc(); "{status}")?;
            assert_eq!(rt; text.as_str(), line);
        }
        Ok(())
    }
}
