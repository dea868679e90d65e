ghost use Rattle.std.specs.Prelude.{◌≡◌, ℕ, ◌+◌, ◌*◌, ◌<◌};
ghost use Rattle.smc_shape.specs.Layout.{Layout, width_of, slots_of, words_of};
ghost use Rattle.smc_shape.specs.Places.{InRange, IsStride, at};
ghost use Rattle.smc_shape.specs.declared.coll.TheConstants.{BLOCK_SLOTS};
ghost use Rattle.smc_shape.specs.declared.shape.TheConstants.{MAX_WORDS};

use crate::coll::BLOCK_SLOTS;
use crate::shape::{FIRST_SECTION, Shape};

/// The index of the epoch's word in every row.
pub const EPOCH_AT: usize = 0;

/// The index of the round word in every row.
pub const ROUND_AT: usize = 1;

/// A word of a region, by what it is for.
#[derive(Clone, Copy, Debug, PartialEq, Eq)]
pub enum Place {
    /// The epoch of the region.
    Epoch,
    /// The round in progress, if there is one.
    Round,
    /// The epoch that a pass has announced.
    Section { pass: u32 },
    /// The entry of an object.
    Entry { coll: u8, entry: u32 },
    /// The state of a slot.
    Directory { coll: u8, slot: u32 },
    /// The number of the object that owns a slot.
    Back { coll: u8, slot: u32 },
    /// The slot that the object in this slot is to move to.
    Forward { coll: u8, slot: u32 },
    /// A field of the record in a slot.
    Field { coll: u8, slot: u32, field: u32 },
}

#[tactic(auto, unfolding(crate::specs::Places::at))]
impl Shape {
    /// The index of the section word of `pass`.
    #[inline]
    pub fn section_at(&self, pass: u32) -> usize
        requires { InRange self.now (Place.Section pass) }
        ensures { result ≡ at self.now (Place.Section pass) }
    {
        FIRST_SECTION as usize + pass as usize
    }

    /// The index of the word of `entry` of the collection `c`.
    #[inline]
    pub fn entry_at(&self, c: u8, entry: u32) -> usize
        requires { InRange self.now (Place.Entry c entry) }
        ensures { result ≡ at self.now (Place.Entry c entry) }
    {
        let span = self.span(c);
        (span.start + entry) as usize
    }

    /// The index of the directory word of `slot` of the collection `c`.
    #[inline]
    pub fn dir_at(&self, c: u8, slot: u32) -> usize
        requires { InRange self.now (Place.Directory c slot) }
        ensures { result ≡ at self.now (Place.Directory c slot) }
    {
        let span = self.span(c);
        (span.start + span.entries + slot) as usize
    }

    /// The index of the word that names the owner of `slot` of the collection `c`.
    #[inline]
    pub fn back_at(&self, c: u8, slot: u32) -> usize
        requires { InRange self.now (Place.Back c slot) }
        ensures { result ≡ at self.now (Place.Back c slot) }
    {
        let span = self.span(c);
        (span.start + span.entries + span.slots + slot) as usize
    }

    /// The index of the forwarding word of `slot` of the collection `c`.
    #[inline]
    pub fn fwd_at(&self, c: u8, slot: u32) -> usize
        requires { InRange self.now (Place.Forward c slot) }
        ensures { result ≡ at self.now (Place.Forward c slot) }
    {
        let span = self.span(c);
        (span.start + span.entries + 2 * span.slots + slot) as usize
    }

    /// The index of field `f` of the record in `slot` of the collection `c`.
    /// The index of the first field of the record in `slot` of the collection `c`. The others follow it, each
    /// `field_stride` words after the one before.
    #[inline]
    pub fn first_field_at(&self, c: u8, slot: u32) -> usize
        requires { slot < slots_of self.now c }
        ensures first { result ≡ at self.now (Place.Field c slot 0) }
        ensures within { (f : ℕ) → f < width_of self.now c → result + f * BLOCK_SLOTS < MAX_WORDS }
    {
        let span = self.span(c);
        let block = slot / BLOCK_SLOTS * (BLOCK_SLOTS * span.width);
        (span.start + span.entries + 3 * span.slots + block + slot % BLOCK_SLOTS) as usize
    }

    /// How many words each field of a record stands after the one before, in every region.
    #[inline]
    pub fn field_stride() -> usize
        ensures slots { result ≡ BLOCK_SLOTS }
        ensures stride { (shape : Layout) → IsStride shape result }
    {
        BLOCK_SLOTS as usize
    }

    /// The index of field `f` of the record in `slot` of the collection `c`.
    #[inline]
    pub fn field_at(&self, c: u8, slot: u32, f: u32) -> usize
        requires { InRange self.now (Place.Field c slot f) }
        ensures { result ≡ at self.now (Place.Field c slot f) }
    {
        self.first_field_at(c, slot) + f as usize * Shape::field_stride()
    }

    /// The index of `place`.
    #[inline]
    pub fn at(&self, place: Place) -> usize
        requires { InRange self.now place }
        ensures { result ≡ at self.now place }
    {
        match place {
            Place::Epoch => EPOCH_AT,
            Place::Round => ROUND_AT,
            Place::Section { pass } => self.section_at(pass),
            Place::Entry { coll, entry } => self.entry_at(coll, entry),
            Place::Directory { coll, slot } => self.dir_at(coll, slot),
            Place::Back { coll, slot } => self.back_at(coll, slot),
            Place::Forward { coll, slot } => self.fwd_at(coll, slot),
            Place::Field { coll, slot, field } => self.field_at(coll, slot, field),
        }
    }
}
