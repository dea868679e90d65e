//! How the program ended, with what it hands back.
ghost use Rattle.std.specs.Prelude.{◌≡◌, None};

use crate::status::Status;
use smc_region::Quiet;

/// How the program ended, and the region of its script, closed with all its passes, where it had one.
pub struct Ended {
    pub status: Status,
    pub quiet: Option<Quiet>,
}

impl Ended {
    /// An end without a region.
    pub fn at(status: Status) -> Ended
        ensures status { result.status ≡ status }
        ensures quiet { result.quiet ≡ None }
    {
        Ended {
            status,
            quiet: None,
        }
    }

    /// The status alone. The memory of the region is given back.
    pub fn into_status(self) -> Status
        ensures { result ≡ self.status }
    {
        let Ended { status, quiet } = self;
        if let Some(quiet) = quiet {
            quiet.free();
        }
        status
    }
}
