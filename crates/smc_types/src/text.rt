ghost use Rattle.std.specs.Prelude.{◌≡◌, ◌++◌, drop, slice_index, IsTrue, ◌↔◌, IfOk, OnOk};
ghost use Rattle.smc_types.specs.Texts.{IsText, is_text_byte, word_of, text_words, bytes_of, text_of};
ghost use Rattle.std.specs.List.{prefix_len};

use crate::column::WORD_BYTES;
use smc_words::NoMemory;
use std::alloc::Global;
use std::marker::Model;

/// The byte that stands behind a text, up to the end of its last word.
pub const PADDING: u8 = 0;

/// The byte that a blank word is made of.
pub const BLANK_BYTE: u8 = u8::MAX;

/// A text as it stands in a column: bytes above `PADDING` and below `BLANK_BYTE`. Contracts see a list.
#[derive(Debug, Drop)]
pub struct RowText {
    bytes: Vec<u8>,
}

impl Model for RowText {
    ghost use Rattle.std.specs.Prelude.{List, ℕ};
    ghost use Rattle.smc_types.specs.Texts.{IsText};

    ghost Value = { List ℕ };

    ghost view = { λ text. text.bytes.items };

    ghost invariant = { λ text. IsText text.bytes.items };
}

impl PartialEq for RowText {
    ghost use Rattle.std.specs.Prelude.{bytes_eq};
    ghost use Rattle.std.proofs.Common.{rules};
    ghost use Rattle.std.specs.Cmp.Rules.{comparing};

    ghost eq = { bytes_eq };

    ghost laws = { Prim.search (comparing, rules) };

    fn eq(&self, other: &RowText) -> bool {
        self.bytes == other.bytes
    }
}

impl RowText {
    /// A text from its bytes, which takes no memory.
    pub fn of(bytes: Vec<u8>) -> RowText
        requires { IsText bytes.items }
        ensures { result ≡ bytes.items }
    {
        RowText { bytes }
    }

    /// Its bytes.
    pub fn as_slice(&self) -> &[u8]
        ensures bytes { result.now ≡ self.now }
        ensures text { IsText self.now }
    {
        self.bytes.as_slice()
    }

    /// Gives the vector back, which takes no memory.
    pub fn into_vec(self) -> Vec<u8>
        ensures bytes { result.items ≡ self }
        ensures text { IsText self }
    {
        self.bytes
    }
}

/// Whether all the bytes can stand in a text.
pub fn is_text(bytes: &[u8]) -> bool
    ensures { IsTrue result ↔ IsText bytes.now }
{
    bytes.iter().all(|byte| is_text_byte(*byte))
}

/// Whether the byte can stand in a text.
pub(crate) fn is_text_byte(byte: u8) -> bool
    ensures { result ≡ is_text_byte byte }
{
    PADDING < byte && byte < BLANK_BYTE
}

/// Puts so many words of a text behind those that are there.
pub fn push_text(words: &mut Vec<u64>, text: &[u8], count: u32) -> Result<(), NoMemory>
    ensures { OnOk result (words.new.items ≡ words.old.items ++ text_words count text.now) }
{
    for place in 0..count {
        words.push(word_at(text, place as usize * WORD_BYTES as usize))?;
    }
    Ok(())
}

/// The word of the bytes from that place on.
#[tactic(auto, unfolding(crate::specs::Texts::word_of))]
fn word_at(text: &[u8], at: usize) -> u64
    ensures { result ≡ word_of (drop at text.now) }
{
    let (_, rest) = text.split_at(at.min(text.len()));
    if rest.len() < WORD_BYTES as usize {
        return last_word(rest);
    }
    u64::from_be_bytes([
        rest[0], rest[1], rest[2], rest[3], rest[4], rest[5], rest[6], rest[7],
    ])
}

/// The word of bytes that are too few for one.
#[tactic(auto, unfolding(crate::specs::Texts::word_of))]
fn last_word(rest: &[u8]) -> u64
    ensures { result ≡ word_of rest.now }
{
    u64::from_be_bytes([
        byte_at(rest, 0),
        byte_at(rest, 1),
        byte_at(rest, 2),
        byte_at(rest, 3),
        byte_at(rest, 4),
        byte_at(rest, 5),
        byte_at(rest, 6),
        byte_at(rest, 7),
    ])
}

/// The byte at that place, and padding behind the last.
fn byte_at(text: &[u8], place: usize) -> u8
    ensures { result ≡ slice_index text.now place }
{
    text.get(place).copied().unwrap_or(PADDING)
}

/// The text that stands in these words, in a column of that width.
pub(crate) fn read_text(alloc: Global, words: &[u64], width: u32) -> Result<RowText, NoMemory>
    ensures { IfOk result (λ text. text ≡ text_of width words.now) }
{
    let mut bytes = word_bytes(alloc, words)?;
    bytes.truncate(width as usize);
    let length = text_length(&bytes);
    bytes.truncate(length);
    Ok(RowText::of(bytes))
}

/// The bytes of these words.
fn word_bytes(alloc: Global, words: &[u64]) -> Result<Vec<u8>, NoMemory>
    ensures { IfOk result (λ bytes. bytes.items ≡ bytes_of words.now) }
{
    let mut bytes = Vec::new(alloc);
    for word in words {
        bytes.extend_from_slice(&word.to_be_bytes())?;
    }
    Ok(bytes)
}

/// How many bytes stand before the first that no text has.
fn text_length(bytes: &[u8]) -> usize
    ensures { result ≡ prefix_len is_text_byte bytes.now }
{
    for (place, byte) in bytes.iter().enumerate() {
        if !is_text_byte(*byte) {
            return place;
        }
    }
    bytes.len()
}
