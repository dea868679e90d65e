//! Laws of rows: what is read in a world that stands still, how long a row is, and which leaves can be read.
ghost use Rattle.smc_visits.specs.Fits.{PathsFit, PlacedFit};
ghost use Rattle.smc_visits.specs.Still.{AreWhole, ReadsOneWorld};

/// Calls that all answer what one world has read the row that the object has in that world.
pub fn a_still_world_gives_the_row()
    ensures { ReadsOneWorld }
{}

/// A row that is whole has as many words as its leaves.
pub fn rows_are_whole()
    ensures { AreWhole }
{}

/// What a path of a query comes to can be read, and leaves that can be read still can once one such leaf is placed among them.
pub fn leaves_fit()
    ensures paths { PathsFit }
    ensures placed { PlacedFit }
{}
