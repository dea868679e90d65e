//! What a section may use again: the slots and the entries whose stamp lies far enough below its epoch.
ghost use Rattle.std.specs.Prelude.{◌≡◌};
ghost use Rattle.smc_core.specs.Ripe.{is_ripe_slot, is_ripe_entry};

use smc_words::{Dir, INCARNATIONS};

/// A section may use again what has a stamp so many epochs below its own.
const RIPE_AFTER: u64 = 2;

/// Whether a section at this epoch may claim a slot that shows this word.
#[inline]
pub fn is_ripe_slot(epoch: u64, dir: Dir) -> bool
    ensures { result ≡ is_ripe_slot epoch dir }
{
    match dir {
        Dir::Free => true,
        Dir::Limbo(stamp) => epoch.saturating_sub(stamp) >= RIPE_AFTER,
        Dir::Claimed | Dir::Incoming | Dir::Valid => false,
    }
}

/// Whether a section at this epoch may claim a free entry with this incarnation and this stamp; one whose incarnations
/// are spent is never claimed again.
#[inline]
pub fn is_ripe_entry(epoch: u64, incarnation: u32, stamp: u64) -> bool
    ensures { result ≡ is_ripe_entry epoch incarnation stamp }
{
    epoch.saturating_sub(stamp) >= RIPE_AFTER && incarnation < INCARNATIONS - 1
}
