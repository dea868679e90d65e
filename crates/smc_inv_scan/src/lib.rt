//! No scan passes the target of an object that is still to move there, but where its section is within the round's bound.
//!
//! `laws` has the theorems. `specs/Scans.antt` says what the scans of a reachable region agree on with its words and calls,
//! `specs/Marks.antt` what a history says of them (which objects were present when a scan began, which it has visited), and
//! `specs/Laws.antt` what is proved: the first state has both, each step keeps both, the part of the relocation rule on
//! passed targets follows, and each event fits its marks. It stands on the machine's definitions, on `smc_rules` and on
//! `smc_agreement`; the crates that prove the rules after every list of steps rest on it.
#![tactic(auto)]

pub mod laws;
