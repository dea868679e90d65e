//! Each function is a theorem over the definitions in `specs`, and does nothing.
ghost use Rattle.smc_refine.specs.Alone.{AloneIsUndisturbed, AloneAnswerIsUndisturbed, StretchIsUndisturbed};
ghost use Rattle.smc_refine.specs.Worked.{cancels_its_round, enters_too_soon, keeps_its_round, told_too_soon, works_between, IsAloneAfter, IsNotAloneAfter};
ghost use Rattle.smc_refine.specs.Orders.{HistoriesAreLawful, HistoriesGoOn, HistoriesHaveEvents, HistoriesHaveMoments};

/// From each start, after every list of steps, what the steps have told, in their order, has each log as its pass has it,
/// replays from the first world, and visits once by each scan; all three rules hold of the machine in the world to which
/// this leads, whose objects fit the shape.
pub fn histories_are_lawful()
    ensures { HistoriesAreLawful }
{}

/// A history goes on with every step that is taken from its machine, and its order with what the steps tell.
pub fn histories_go_on()
    ensures { HistoriesGoOn }
{}

/// A history was one behind each of its steps, and where each of its events was told.
pub fn histories_have_moments()
    ensures steps { HistoriesHaveMoments }
    ensures events { HistoriesHaveEvents }
{}

/// Where events of a log are alone, by the logs and answers of a last moment without calls in progress, all other passes
/// stood aside while they happened.
pub fn alone_is_undisturbed()
    ensures { AloneIsUndisturbed }
{}

/// So each list of steps is undisturbed that leads from one moment of such events to another.
pub fn a_stretch_alone_is_undisturbed()
    ensures { StretchIsUndisturbed }
{}

/// Where an answer is alone, all other passes stood aside while its pass had told as many events as it has told then.
pub fn an_answer_alone_is_undisturbed()
    ensures { AloneAnswerIsUndisturbed }
{}

/// What pass 1 does is alone where it stands between what it was told of pass 0 and what pass 0 was told of it; not where
/// pass 0 enters before, is told of less, or has left with a round.
pub fn worked_schedules_alone()
    ensures works_between { IsAloneAfter works_between 1 1 3 }
    ensures enters_too_soon { IsNotAloneAfter enters_too_soon 1 1 3 }
    ensures told_too_soon { IsNotAloneAfter told_too_soon 1 1 3 }
    ensures keeps_its_round { IsNotAloneAfter keeps_its_round 1 1 3 }
    ensures cancels_its_round { IsAloneAfter cancels_its_round 1 1 3 }
{}
