//! Each function is a theorem over the definitions in `specs`, and does nothing.
ghost use Rattle.smc_inv_range.specs.Laws.{InRanges, RangesAreKept, OffersFit};
ghost use Rattle.smc_rules.specs.History.{HoldsAlways, StandsBehind};

/// Every step is on a word of the region, and keeps the ranges of words and calls.
pub fn ranges_are_kept()
    ensures { RangesAreKept }
{}

/// The state of every history stands behind its machine: the row mirrors its memory, at each of its places, and it keeps
/// the ranges.
pub fn rows_are_mirrored()
    ensures mirrored { StandsBehind }
    ensures within { HoldsAlways InRanges }
{}

/// Whatever a pass offers in a state that steps lead to is on a word of the region, with words that fit it.
pub fn offers_fit()
    ensures { OffersFit }
{}
