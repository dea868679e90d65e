//! The first step of each call, where the call may be made.
ghost use Rattle.std.specs.Prelude.{◌≡◌, ◌≤◌, ◌&&◌, nat_lt};
ghost use Rattle.smc_shape.specs.Layout.{width_of};
ghost use Rattle.smc_core.specs.Add.{is_value};
ghost use Rattle.smc_core.specs.Cancel.{cancel_offer};
ghost use Rattle.smc_core.specs.Finish.{finish_start};
ghost use Rattle.smc_core.specs.Offer.{when_outside, when_inside, when_held, when_begun, when_owned, look_start, start_offer};
ghost use Rattle.smc_core.specs.Scan.{next_offer};
ghost use Rattle.smc_core.specs.Step.{step, when};
ghost use Rattle.smc_automaton.specs.Fits.{FitsOwned, FitsStand};

use crate::ask::{held_slot, is_value, takes};
use crate::begin::round_offer;
use crate::cancel::cancel_offer;
use crate::count::{count_offer, first_count};
use crate::finish::finish_start;
use crate::look::look_offer;
use crate::op::{directory, field_of, load, mark_gone, section_of, store};
use crate::scan::{next_offer, scan_of};
use crate::section::epoch_of;
use crate::size::{has_coll, has_entry, width_of};
use smc_core::{
    Call, CancelPhase, Kind, LAST_EPOCH, LookPhase, Offer, Op, Owned, Scan, Section, Seeker, Stand,
    Word,
};
use smc_shape::{Place, Shape};
use smc_words::Number;

/// It is offered outside a section.
fn when_outside(section: Section, offer: Offer) -> Option<Offer>
    ensures { result ≡ when_outside section (Some offer) }
{
    match section {
        Section::Outside => Some(offer),
        Section::Loaded { .. }
        | Section::Announced { .. }
        | Section::Again { .. }
        | Section::Lasting { .. }
        | Section::Inside { .. } => None,
    }
}

/// It is offered inside a section.
fn when_inside(section: Section, offer: Option<Offer>) -> Option<Offer>
    ensures { result ≡ when_inside section offer }
{
    match section {
        Section::Inside { .. } => offer,
        Section::Outside
        | Section::Loaded { .. }
        | Section::Announced { .. }
        | Section::Again { .. }
        | Section::Lasting { .. } => None,
    }
}

/// It is offered where the test holds.
fn when(test: bool, offer: Offer) -> Option<Offer>
    ensures { result ≡ when test offer }
{
    if test { Some(offer) } else { None }
}

/// The first step of looking a number up: its entry, or, where the region has none of this number, the own word.
fn look_start(shape: &Shape, pass: u32, number: Number) -> Offer
    ensures { result ≡ look_start shape.now pass number }
{
    if has_entry(shape, number) {
        look_offer(LookPhase::Load {
            seeker: Seeker::Caller,
            number,
        })
    } else {
        own_word(pass)
    }
}

/// The load of the pass's own section word, which nobody else stores.
fn own_word(pass: u32) -> Offer
    ensures { result ≡ step Kind.LoadSection (Op.Load (Place.Section pass)) }
{
    load(Kind::LoadSection, section_of(pass))
}

/// The load of a field of a held object.
fn read_start(shape: &Shape, held: Option<u32>, number: Number, field: u32) -> Option<Offer>
    ensures { result ≡ when_held held (λ slot. when (nat_lt field (width_of shape.now number.coll))
        (step Kind.LoadField (Op.Load (Place.Field number.coll slot field)))) }
{
    match held {
        None => None,
        Some(slot) => when(
            field < width_of(shape, number.coll),
            load(Kind::LoadField, field_of(number.coll, slot, field)),
        ),
    }
}

/// The store of a field of a held object. No field is blank.
fn write_start(
    shape: &Shape,
    held: Option<u32>,
    number: Number,
    field: u32,
    value: u64,
) -> Option<Offer>
    ensures { result ≡ when_held held (λ slot. when (nat_lt field (width_of shape.now number.coll) && is_value value)
        (step Kind.WriteField (Op.Store (Place.Field number.coll slot field) (Word.Plain value)))) }
{
    match held {
        None => None,
        Some(slot) => when(
            field < width_of(shape, number.coll) && is_value(value),
            store(
                Kind::WriteField,
                field_of(number.coll, slot, field),
                Word::Plain(value),
            ),
        ),
    }
}

/// The mark on the entry of a held object.
fn remove_start(held: Option<u32>, number: Number) -> Option<Offer>
    ensures { result ≡ when_held held (λ slot. Some (step Kind.MarkGone (Op.MarkGone number.coll number.entry))) }
{
    match held {
        None => None,
        Some(_) => Some(mark_gone(Kind::MarkGone, number)),
    }
}

/// It is offered where the section has begun the scan.
fn next_start(shape: &Shape, pass: u32, begun: Option<Scan>) -> Option<Offer>
    ensures { result ≡ when_begun begun (λ scan. next_offer shape.now pass scan) }
{
    match begun {
        None => None,
        Some(scan) => Some(next_offer(shape, pass, scan)),
    }
}

/// It is offered where the pass owns a round.
fn finish_begun(pass: u32, epoch: u64, owned: Option<Owned>) -> Option<Offer>
    requires epoch { epoch ≤ LAST_EPOCH }
    requires owned { FitsOwned owned }
    ensures { result ≡ when_owned owned (λ round. finish_start pass epoch round) }
{
    match owned {
        None => None,
        Some(round) => Some(finish_start(pass, epoch, round)),
    }
}

/// It is offered where the pass owns a round.
fn cancel_begun(epoch: u64, owned: Option<Owned>) -> Option<Offer>
    requires { epoch ≤ LAST_EPOCH }
    ensures { result ≡ when_owned owned (λ round. cancel_offer epoch (CancelPhase.Directory round.coll 0)) }
{
    match owned {
        None => None,
        Some(round) => {
            let first = CancelPhase::Directory {
                coll: round.coll,
                slot: 0,
            };
            Some(cancel_offer(epoch, first))
        }
    }
}

/// The first step of a call, where the call may be made.
pub(crate) fn start_offer(shape: &Shape, pass: u32, stand: &Stand, call: &Call) -> Option<Offer>
    requires { FitsStand shape.now stand.now }
    ensures { result ≡ start_offer shape.now pass stand.now stand.now.section call.now }
{
    let section = stand.section;
    let offer = match call {
        Call::Enter | Call::Note | Call::Learn { .. } => {
            return when_outside(section, load(Kind::LoadEpoch, Place::Epoch));
        }
        Call::Advance => return when_outside(section, load(Kind::StartAdvance, Place::Epoch)),
        Call::Leave => Some(store(Kind::Leave, section_of(pass), Word::Plain(0))),
        Call::Add { coll, from, words } => when(
            takes(shape, *coll, *from, words),
            load(Kind::LoadDirectory, directory(*coll, *from)),
        ),
        Call::Look { number } => Some(look_start(shape, pass, *number)),
        Call::Read { number, field } => {
            read_start(shape, held_slot(&stand.held, *number), *number, *field)
        }
        Call::Write {
            number,
            field,
            value,
        } => {
            let held = held_slot(&stand.held, *number);
            write_start(shape, held, *number, *field, *value)
        }
        Call::Remove { number } => remove_start(held_slot(&stand.held, *number), *number),
        Call::Scan { coll } => when(has_coll(shape, *coll), own_word(pass)),
        Call::Next { scan } => next_start(shape, pass, scan_of(&stand.scans, *scan)),
        Call::Begin { coll } => when(
            has_coll(shape, *coll),
            round_offer(pass, epoch_of(section), *coll),
        ),
        Call::Finish => finish_begun(pass, epoch_of(section), stand.round),
        Call::Cancel => cancel_begun(epoch_of(section), stand.round),
        Call::Survey { coll } => when(has_coll(shape, *coll), count_offer(first_count(*coll))),
    };
    when_inside(section, offer)
}
