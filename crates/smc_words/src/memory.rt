use std::alloc::{AllocError, AllocFailed};
use std::error::Error;
use std::fmt;

/// Memory was refused. Each call that may answer it says what it leaves unchanged.
#[derive(Clone, Copy, Debug, PartialEq, Eq)]
pub struct NoMemory;

impl fmt::Display for NoMemory {
    fn fmt<W: fmt::Write>(&self, f: &mut fmt::Formatter<W>) -> fmt::Result {
        write!(f, "no memory")
    }
}

impl Error for NoMemory {}

impl From<AllocError> for NoMemory {
    fn from(_: AllocError) -> Self {
        NoMemory
    }
}

impl<T: Drop> From<AllocFailed<T>> for NoMemory {
    fn from(_: AllocFailed<T>) -> Self {
        NoMemory
    }
}

#[cfg(test)]
mod tests {
    use super::*;
    use std::test::Fail;

    #[test]
    fn says_no_memory(rt: HostRuntime) -> Result<(), Fail> {
        let alloc = rt.alloc();
        let said = format!(in alloc; "{NoMemory}")?;
        assert_eq!(rt; said.as_str(), "no memory");
        Ok(())
    }
}
