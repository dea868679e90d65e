//! A look-up, with the help that it gives to a move.
ghost use Rattle.std.specs.Prelude.{◌≡◌, ◌+◌, ◌*◌, ◌≤◌, true, false, IfSome, IsTrue, Some, None, is_some};
ghost use Rattle.smc_core.specs.declared.phase.Phase.TheVariants as phase;
ghost use Rattle.smc_core.specs.declared.phase.objects.LookPhase.TheVariants as look;
ghost use Rattle.smc_core.specs.Look.{find};
ghost use Rattle.smc_core.specs.Offer.{held_slot};
ghost use Rattle.smc_core.specs.Row.{has_place};
ghost use Rattle.smc_core.specs.Section.{is_calm};
ghost use Rattle.smc_core.specs.Words.{has_object};
ghost use Rattle.smc_shape.specs.Layout.{width_of};
ghost use Rattle.smc_shape.specs.declared.place.Place.TheVariants as place;
ghost use Rattle.smc_region.specs.Callers.{IsSame};
ghost use Rattle.smc_region.specs.Looks.{LooksUp, Decided, SawPresent, before_look, finding_of, looker, looking, slot_found};

use crate::chosen::Chosen;
use crate::held::Held;
use crate::section::Section;
use smc_core::{Op, State, Word};
use smc_shape::Place;
use smc_words::Number;

impl<'r> Section<'r> {
    /// Looks an object up. Answers nothing where it is not present, and else holds it, from now on and until the
    /// section ends.
    #[inline]
    pub fn deref(&mut self, number: Number) -> Option<Held>
        requires idle { self.old.local.stand.phase ≡ phase.Idle }
        ensures same { IsSame self.old self.new }
        ensures few { self.new.local.steps ≤ self.old.local.steps + 4 + 2 * width_of self.old.shape number.coll }
        ensures looks { LooksUp (slot_found result) number self.old.local self.new.local }
        ensures decided { Decided self.new number (is_some result) }
        ensures idle { self.new.local.stand.phase ≡ phase.Idle }
        ensures number { IfSome result (λ held. held.number ≡ number) }
        ensures holds { IfSome result (λ held. held_slot self.new.local.stand.held number ≡ Some held.place) }
    {
        let found = if self.has_entry(number) {
            self.look::<true>(number)
        } else {
            self.pass_over(number)
        };
        match found {
            Some(place) => Some(Held { number, place }),
            None => None,
        }
    }

    /// An object that the section holds in this slot.
    pub fn held(&self, number: Number, place: u32) -> Held
        requires { held_slot self.now.local.stand.held number ≡ Some place }
        ensures { result ≡ record { number = number; place = place } }
    {
        Held { number, place }
    }

    /// Whether the region has an entry for the number.
    #[inline]
    fn has_entry(&self, number: Number) -> bool
        ensures { result ≡ has_place self.now.shape (place.Entry number.coll number.entry) }
    {
        let shape = &self.region.about.shape;
        u32::from(number.coll) < shape.colls() && number.entry < shape.entries(number.coll)
    }

    /// A number of which the region has no entry is no object's.
    fn pass_over(&mut self, number: Number) -> Option<u32>
        requires idle { self.old.local.stand.phase ≡ phase.Idle }
        requires none { has_place self.old.shape (place.Entry number.coll number.entry) ≡ false }
        ensures same { IsSame self.old self.new }
        ensures few { self.new.local.steps ≤ self.old.local.steps + 1 }
        ensures none { result ≡ None }
        ensures looks { LooksUp result number self.old.local self.new.local }
    {
        let own = Op::Load {
            place: Place::Section { pass: self.number },
        };
        self.take(Chosen::Look { number }, own);
        None
    }

    /// Goes on with a scan that has come to the owner of a slot: looks it up. Answers the slot in which it is, if it is here.
    #[inline]
    pub fn seek(&mut self, number: Number) -> Option<u32>
        requires phase { self.old.local.stand.phase ≡ phase.Look (look.Load (looker self.old.local.stand.phase) number) }
        ensures same { IsSame self.old self.new }
        ensures few { self.new.local.steps ≤ self.old.local.steps + 4 + 2 * width_of self.old.shape number.coll }
        ensures learnt { self.new.local ≡ looking self.old.shape self.old.local (looker self.old.local.stand.phase) number (finding_of result) self.new.local.steps }
        ensures decided { SawPresent self.new number (is_some result) }
    {
        self.look::<false>(number)
    }

    /// The first step of a look-up: loads the entry.
    #[inline(always)]
    fn see_entry<const STARTS: bool>(&mut self, number: Number) -> State
        requires phase { self.old.local.stand.phase ≡ before_look STARTS (looker self.old.local.stand.phase) number }
        requires some { IsTrue STARTS → has_place self.old.shape (place.Entry number.coll number.entry) ≡ true }
        ensures same { IsSame self.old self.new }
        ensures learnt { self.new.local ≡ looking self.old.shape self.old.local (looker self.old.local.stand.phase) number
            (find (is_calm self.old.local.stand.section) number.incarnation result) (self.old.local.steps + 1) }
        ensures decided { SawPresent self.new number (has_object number.incarnation result) }
    {
        let load = Op::Load {
            place: Place::Entry {
                coll: number.coll,
                entry: number.entry,
            },
        };
        let chosen = if STARTS {
            Chosen::Look { number }
        } else {
            Chosen::Go
        };
        let _ = self.calm();
        self.take(chosen, load).state()
    }

    /// The slot of the object, by the state of its entry.
    #[inline]
    fn look<const STARTS: bool>(&mut self, number: Number) -> Option<u32>
        requires phase { self.old.local.stand.phase ≡ before_look STARTS (looker self.old.local.stand.phase) number }
        requires some { IsTrue STARTS → has_place self.old.shape (place.Entry number.coll number.entry) ≡ true }
        ensures same { IsSame self.old self.new }
        ensures few { self.new.local.steps ≤ self.old.local.steps + 4 + 2 * width_of self.old.shape number.coll }
        ensures learnt { self.new.local ≡ looking self.old.shape self.old.local (looker self.old.local.stand.phase) number (finding_of result) self.new.local.steps }
        ensures decided { SawPresent self.new number (is_some result) }
    {
        let calm = self.calm();
        match self.see_entry::<STARTS>(number) {
            State::Present { incarnation, slot } => {
                if incarnation == number.incarnation {
                    Some(slot)
                } else {
                    None
                }
            }
            State::Frozen { incarnation, slot } => {
                if incarnation != number.incarnation {
                    None
                } else if calm {
                    Some(slot)
                } else {
                    self.abandon(number, slot)
                }
            }
            State::Locked { incarnation, slot } => {
                if incarnation != number.incarnation {
                    None
                } else if calm {
                    Some(slot)
                } else {
                    self.help(number, slot)
                }
            }
            _ => None,
        }
    }

    /// The slot of the object, by the state of its entry when its move was to be abandoned.
    fn abandon(&mut self, number: Number, slot: u32) -> Option<u32>
        requires phase { self.old.local.stand.phase ≡ phase.Look (look.Abandon (looker self.old.local.stand.phase) number slot) }
        ensures same { IsSame self.old self.new }
        ensures few { self.new.local.steps ≤ self.old.local.steps + 3 + 2 * width_of self.old.shape number.coll }
        ensures learnt { self.new.local ≡ looking self.old.shape self.old.local (looker self.old.local.stand.phase) number (finding_of result) self.new.local.steps }
        ensures decided { SawPresent self.new number (is_some result) }
    {
        let incarnation = number.incarnation;
        let place = Place::Entry {
            coll: number.coll,
            entry: number.entry,
        };
        let frozen = Word::Entry(State::Frozen { incarnation, slot });
        let exchange = Op::Exchange {
            place,
            expect: frozen,
            put: Word::Entry(State::Present { incarnation, slot }),
        };
        let seen = self.take(Chosen::Go, exchange);
        if seen.same(frozen) {
            return Some(slot);
        }
        match seen.state() {
            State::Present {
                incarnation: other,
                slot,
            }
            | State::Frozen {
                incarnation: other,
                slot,
            } => {
                if other == incarnation {
                    Some(slot)
                } else {
                    None
                }
            }
            State::Locked {
                incarnation: other,
                slot,
            } => {
                if other == incarnation {
                    self.help(number, slot)
                } else {
                    None
                }
            }
            _ => None,
        }
    }
}
