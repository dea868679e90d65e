//! Each function is a theorem over the definitions in `specs`, and does nothing.
ghost use Rattle.smc_folds.specs.Examples.{AnswerNoNumbers, AnswerNumbers, MeanTheFirst};

/// What the three boxes answer to short lists, and which box a name means.
pub fn worked_boxes()
    ensures none { AnswerNoNumbers }
    ensures some { AnswerNumbers }
    ensures named { MeanTheFirst }
{}
