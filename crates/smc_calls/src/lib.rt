//! A trace is the calls that were made: what a pass has told and answered belongs to calls that it made one after the other.
//!
//! `specs/Ends.antt` says which call an end belongs to, `specs/Calls.antt` what it is that a pass makes calls in a list of
//! steps, `specs/Laws.antt` what is proved of each list of steps from a start; `laws` has the theorems. In `proofs`,
//! `CallsGoOn.antt` says for each phase which call it belongs to and that each step stays in it or ends it, `OnSteps.antt`
//! the same of local states, `Along.antt` of lists of steps. It stands on the machine and on traces alone, and on no rule.
#![tactic(auto)]

pub mod laws;
