//! A pass, and the calls that it makes outside a section.
ghost use Rattle.std.specs.Prelude.{◌≡◌, ◌≤◌};
ghost use Rattle.smc_region.specs.Named.{latest};
ghost use Rattle.smc_core.specs.Section.{calm_by, epoch_of, is_calm};
ghost use Rattle.smc_region.specs.Callers.{IsOutside, IsPassOf, IsSame, entered};

use crate::chosen::Chosen;
use crate::law::View;
use crate::region::{Region, step};
use crate::section::Section;
use atomic_table::Seat;
use smc_core::{Op, Word};
use smc_shape::Place;
use smc_words::RoundWord;
use std::marker::Model;

/// One caller's right to use a region. Contracts see it as its table, its number and what it knows.
#[derive(Drop)]
pub struct Pass {
    /// For each collection the slot behind that of the latest object added. One pointer, so that a pass moves in registers.
    pub(crate) cursors: Box<Vec<u32>>,
    pub(crate) number: u32,
    pub(crate) seat: Seat<(), View>,
}

impl Model for Pass {
    ghost use Rattle.std.specs.Prelude.{◌≡◌, length};
    ghost use Rattle.smc_region.specs.Callers.{Caller, IsOutside, IsSeatOf, caller_of};

    ghost Value = { Caller };

    ghost view = { λ p. caller_of p.number p.seat.table_id p.seat.me };

    ghost invariant = { λ p. IsSeatOf p.number p.seat.me × IsOutside (caller_of p.number p.seat.table_id p.seat.me).local
        × (p.cursors.value.items ≡ (caller_of p.number p.seat.table_id p.seat.me).local.cursors)
        × (length p.cursors.value.items ≡ length p.seat.me.0.shape.colls) };
}

/// A section is calm where it sees no round, or one whose bound it is not past.
fn calm_by(epoch: u64, round: Option<RoundWord>) -> bool
    ensures { result ≡ calm_by epoch round }
{
    match round {
        None => true,
        Some(round) => epoch <= round.bound,
    }
}

impl Pass {
    /// The number of the pass, below the number of passes of its region.
    pub fn number(&self) -> u32
        ensures number { result ≡ self.now.number }
        ensures outside { IsOutside self.now.local }
    {
        self.number
    }

    /// Begins a section: no object that is found in it moves, or is used for another, until it ends.
    #[inline]
    pub fn enter<'r>(self, region: &'r Region) -> Section<'r>
        requires here { IsPassOf region.now self }
        ensures same { IsSame self result }
        ensures late { latest self.local.answers ≤ epoch_of result.local.stand.section }
        ensures entered { result.local ≡ entered self.local (epoch_of result.local.stand.section) (is_calm result.local.stand.section) }
    {
        let Pass {
            number,
            cursors,
            mut seat,
        } = self;
        let own = Place::Section { pass: number };
        let load = Op::Load {
            place: Place::Epoch,
        };
        let seen = step(region, &mut seat, Chosen::Enter, load).plain();
        let announce = Op::Store {
            place: own,
            word: Word::Plain(seen),
        };
        step(region, &mut seat, Chosen::Go, announce);
        let epoch = step(region, &mut seat, Chosen::Go, load).plain();
        let settle = Op::Store {
            place: own,
            word: Word::Plain(epoch),
        };
        step(region, &mut seat, Chosen::Go, settle);
        let load = Op::Load {
            place: Place::Round,
        };
        let round = step(region, &mut seat, Chosen::Go, load).round();
        Section {
            region,
            number,
            epoch,
            calm: calm_by(epoch, round),
            scans: 0,
            cursors,
            seat,
        }
    }
}
