ghost use Rattle.std.specs.Prelude.{◌≡◌, ℕ, ◌+◌, ◌<◌, ◌≤◌, length, None, IfOk};
ghost use Rattle.std.specs.Result.{result_err};
ghost use Rattle.smc_shape.specs.Layout.{IsShape, asked, coll_of, coll_words, width_of, slots_of, entries_of, words_of};
ghost use Rattle.smc_shape.specs.Faults.{fault_of};
ghost use Rattle.smc_shape.specs.Places.{start_of};
ghost use Rattle.smc_shape.specs.Span.{IsSpan};

use crate::coll::CollShape;
use crate::fault::{ShapeFault, fault_of};
use std::marker::Model;

/// The most collections that a region has.
pub const MAX_COLLS: usize = 255;

/// The most passes that use a region at one time.
pub const MAX_PASSES: u32 = 32;

/// The most words of a region: 2^28, which are 2 GiB.
pub const MAX_WORDS: u64 = 268_435_456;

/// The index of the first section word, in words.
pub(crate) const FIRST_SECTION: u32 = 2;

/// The words of one collection: where they begin, and what they are divided by.
#[derive(Clone, Copy, Debug)]
pub(crate) struct Span {
    /// The index of the first one.
    pub start: u32,
    pub width: u32,
    pub slots: u32,
    pub entries: u32,
}

/// A span of no words.
const NO_SPAN: Span = Span {
    start: 0,
    width: 0,
    slots: 0,
    entries: 0,
};

/// The shape of a region: its passes and its collections, with the index of each of its words.
///
/// Where the words of each collection begin is reckoned once, so an index costs a few loads of one cache line, a
/// multiplication and sums. The value has 4 KB and owns no memory: keep it in one place and pass it by reference.
#[derive(Debug, Drop)]
pub struct Shape {
    passes: u32,
    /// How many of the spans, from the first, are collections.
    colls: u32,
    words: u32,
    spans: [Span; MAX_COLLS],
}

impl Model for Shape {
    ghost use Rattle.smc_shape.specs.Layout.{Layout};

    ghost Value = { Layout };

    ghost use Rattle.smc_shape.specs.Span.{layout_of, IsLaidOut};

    ghost view = { λ s. layout_of s.passes s.colls s.spans };

    ghost invariant = { λ s. IsLaidOut s.passes s.colls s.words s.spans };
}

impl Shape {
    /// The shape with so many passes and these collections, or its first fault. Takes no memory.
    pub fn new(passes: u32, colls: Vec<CollShape>) -> Result<Shape, ShapeFault>
        ensures done { IfOk result (λ shape. shape ≡ asked passes colls.items) }
        ensures cause { result_err result ≡ fault_of passes colls.items }
    {
        match fault_of(passes, &colls) {
            Some(fault) => Err(fault),
            None => Ok(Shape::laid_out(passes, &colls)),
        }
    }

    /// The shape that was asked for, with its spans one after the other.
    fn laid_out(passes: u32, colls: &[CollShape]) -> Shape
        requires { fault_of passes colls.now ≡ None }
        ensures { result ≡ asked passes colls.now }
    {
        let mut spans = [NO_SPAN; MAX_COLLS];
        let mut start = FIRST_SECTION + passes;
        for (c, coll) in colls.iter().enumerate() {
            spans[c] = Span {
                start,
                width: coll.width,
                slots: coll.slots,
                entries: coll.slots,
            };
            start += coll.words() as u32;
        }
        Shape {
            passes,
            colls: colls.len() as u32,
            words: start,
            spans,
        }
    }

    /// How many passes may use the region at one time.
    pub fn passes(&self) -> u32
        ensures passes { result ≡ self.now.passes }
        ensures valid { IsShape self.now }
    {
        self.passes
    }

    /// How many collections there are.
    pub fn colls(&self) -> u32
        ensures colls { result ≡ length self.now.colls }
        ensures valid { IsShape self.now }
    {
        self.colls
    }

    /// How many words the region has.
    pub fn words(&self) -> usize
        ensures words { result ≡ words_of self.now }
        ensures valid { IsShape self.now }
    {
        self.words as usize
    }

    /// The words of a record of the collection `c`.
    #[inline]
    pub fn width(&self, c: u8) -> u32
        requires { c < length self.now.colls }
        ensures { result ≡ width_of self.now c }
    {
        self.span(c).width
    }

    /// The slots of the collection `c`.
    #[inline]
    pub fn slots(&self, c: u8) -> u32
        requires { c < length self.now.colls }
        ensures slots { result ≡ slots_of self.now c }
        ensures few { slots_of self.now c < MAX_WORDS }
    {
        self.span(c).slots
    }

    /// The entries of the collection `c`.
    #[inline]
    pub fn entries(&self, c: u8) -> u32
        requires { c < length self.now.colls }
        ensures { result ≡ entries_of self.now c }
    {
        self.span(c).entries
    }

    /// The span of the collection `c`.
    #[inline]
    pub(crate) fn span(&self, c: u8) -> &Span
        requires { c < length self.now.colls }
        ensures span { IsSpan self.now c result.now }
        ensures within { start_of self.now c + coll_words (coll_of self.now c) ≤ MAX_WORDS }
        ensures valid { IsShape self.now }
    {
        &self.spans[usize::from(c)]
    }
}
