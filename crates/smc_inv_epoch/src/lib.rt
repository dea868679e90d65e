//! The epoch rule holds in every state that steps lead to: a section that lasts is never more than one epoch behind.
//!
//! There is no code here but `laws`, the theorems. The rule is defined in `smc_rules/specs/EpochRule.antt`; `Epochs`
//! here says what is proved of it. The proof goes over all kinds of steps: `Moves` has what one step owes to the rule,
//! `EachKind` that each step pays it, whatever the words of objects and slots say, and `EveryList` the induction.
#![tactic(auto)]

pub mod laws;
