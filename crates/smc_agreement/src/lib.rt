//! What words and calls in progress say alike in every state that the machine reaches.
//!
//! The slot rule and the relocation rule do not follow from themselves alone: this is the rest of the induction. There is
//! no code here but `laws`. `specs/Parts.antt` says what each call in progress knows, `specs/Entries.antt` what an entry
//! says of an object, `specs/Agreement.antt` and `specs/Records.antt` have the facts, in parts, and `specs/Kept.antt` what
//! it is that a part is kept. `proofs/EachKind.antt` turns a law for each kind of step into one for each offered step, and
//! `proofs/CrossLaws.antt` says what several parts give together. It stands on the rules, the ranges and the round word;
//! `smc_inv_slot` and `smc_inv_move` prove above it that each kind of step keeps the parts, and `smc_laws` joins them.
#![tactic(auto)]

pub mod laws;
