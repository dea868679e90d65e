//! The help that a look-up gives to a move.
ghost use Rattle.std.specs.Prelude.{◌≡◌, ◌+◌, ◌*◌, ◌≤◌, is_some};
ghost use Rattle.smc_core.specs.declared.phase.Phase.TheVariants as phase;
ghost use Rattle.smc_core.specs.declared.phase.objects.CopyPhase.TheVariants as copy;
ghost use Rattle.smc_core.specs.declared.phase.objects.LookPhase.TheVariants as look;
ghost use Rattle.smc_shape.specs.Layout.{width_of};
ghost use Rattle.smc_region.specs.Callers.{IsSame};
ghost use Rattle.smc_region.specs.Looks.{SawPresent, finding_of, helping, looker, looking};

use crate::chosen::Chosen;
use crate::section::Section;
use smc_core::{Op, State, Word};
use smc_shape::Place;
use smc_words::{BLANK, Number};

impl<'r> Section<'r> {
    /// The target of a move of the object, once each field is copied there.
    fn copy(&mut self, number: Number, slot: u32) -> u32
        requires phase { self.old.local.stand.phase ≡ phase.Look (look.Help (looker self.old.local.stand.phase) number slot copy.Target) }
        ensures same { IsSame self.old self.new }
        ensures copied { self.new.local ≡ helping self.old.shape self.old.local (looker self.old.local.stand.phase) number slot result (width_of self.old.shape number.coll) }
    {
        let coll = number.coll;
        let load = Op::Load {
            place: Place::Forward { coll, slot },
        };
        let target = self.take(Chosen::Go, load).forward();
        let width = self.region.about.shape.width(coll);
        for field in 0..width {
            let load = Op::Load {
                place: Place::Field { coll, slot, field },
            };
            let value = self.take(Chosen::Go, load).plain();
            let put = Op::Exchange {
                place: Place::Field {
                    coll,
                    slot: target,
                    field,
                },
                expect: Word::Plain(BLANK),
                put: Word::Plain(value),
            };
            self.take(Chosen::Go, put);
        }
        target
    }

    /// Helps to move the object away from this slot. Answers where it then is, if it is present.
    pub(crate) fn help(&mut self, number: Number, slot: u32) -> Option<u32>
        requires phase { self.old.local.stand.phase ≡ phase.Look (look.Help (looker self.old.local.stand.phase) number slot copy.Target) }
        ensures same { IsSame self.old self.new }
        ensures few { self.new.local.steps ≤ self.old.local.steps + 2 + 2 * width_of self.old.shape number.coll }
        ensures learnt { self.new.local ≡ looking self.old.shape self.old.local (looker self.old.local.stand.phase) number (finding_of result) self.new.local.steps }
        ensures decided { SawPresent self.new number (is_some result) }
    {
        let target = self.copy(number, slot);
        let incarnation = number.incarnation;
        let locked = Word::Entry(State::Locked { incarnation, slot });
        let swing = Op::Exchange {
            place: Place::Entry {
                coll: number.coll,
                entry: number.entry,
            },
            expect: locked,
            put: Word::Entry(State::Present {
                incarnation,
                slot: target,
            }),
        };
        let seen = self.take(Chosen::Go, swing);
        if seen.same(locked) {
            return Some(target);
        }
        match seen.state() {
            State::Present {
                incarnation: other,
                slot,
            }
            | State::Frozen {
                incarnation: other,
                slot,
            }
            | State::Locked {
                incarnation: other,
                slot,
            } => {
                if other == incarnation {
                    Some(slot)
                } else {
                    None
                }
            }
            _ => None,
        }
    }
}
