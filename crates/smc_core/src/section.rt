ghost use Rattle.std.specs.Prelude.{◌≡◌};
ghost use Rattle.smc_core.specs.Section.{epoch_of, is_calm};

use smc_words::EPOCHS;

/// The least epoch of a region.
pub const FIRST_EPOCH: u64 = 2;

/// The last epoch of a region. No pass moves it on from there.
pub const LAST_EPOCH: u64 = EPOCHS - 2;

/// Where a pass stands with its section.
#[derive(Clone, Copy)]
pub enum Section {
    Outside,
    /// Has loaded the epoch once.
    Loaded { seen: u64 },
    /// Has announced the epoch that it loaded first.
    Announced { seen: u64 },
    /// Has loaded the epoch again.
    Again { seen: u64, epoch: u64 },
    /// Has announced its epoch. From here on the section lasts.
    Lasting { epoch: u64 },
    /// Knows whether it is calm. Calls are made here.
    Inside { epoch: u64, calm: bool },
}

impl Section {
    /// The epoch of a section that lasts, else 0.
    pub fn epoch(self) -> u64
        ensures { result ≡ epoch_of self }
    {
        match self {
            Section::Lasting { epoch } | Section::Inside { epoch, .. } => epoch,
            _ => 0,
        }
    }

    /// Whether it is calm: no object is locked while it lasts.
    pub fn is_calm(self) -> bool
        ensures { result ≡ is_calm self }
    {
        match self {
            Section::Inside { calm, .. } => calm,
            _ => false,
        }
    }
}
