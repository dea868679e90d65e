//! The bytes of a line: what separates lines and fields, how many there may be, and which of them are text.
ghost use Rattle.std.specs.Prelude.{◌≡◌, ◌≢◌, ◌<◌, ◌↔◌, take, length, slice_index, All, IfSome, IfNone, IsTrue, ◌∷◌, ◌++◌};
ghost use Rattle.std.specs.List.{list_all};
ghost use Rattle.smc_tbl.specs.Fields.{Lacks};
ghost use Rattle.smc_tbl.specs.TableText.{IsText, is_plain_byte, is_text_byte};

use memchr::memchr;
use std::str;

/// The byte that ends a line.
pub const NEWLINE: u8 = b'\n';

/// The byte behind each field.
pub const BAR: u8 = b'|';

/// How many bytes a line has at most, without its end.
pub const MAX_LINE: usize = 1024;

/// The place of the first such byte.
pub fn find_byte(bytes: &[u8], byte: u8) -> Option<usize>
    ensures within { IfSome result (λ at. at < length bytes.now) }
    ensures here { IfSome result (λ at. slice_index bytes.now at ≡ byte) }
    ensures first { IfSome result (λ at. All (λ x. x ≢ byte) (take at bytes.now)) }
    ensures nowhere { IfNone result (All (λ x. x ≢ byte) bytes.now) }
{
    memchr(byte, bytes)
}

/// The bytes before the first such byte, and those behind it.
pub fn split_at_byte(bytes: &[u8], byte: u8) -> Option<(&[u8], &[u8])>
    ensures cut { IfSome result (λ cut. bytes.now ≡ cut.0.now ++ byte ∷ cut.1.now) }
    ensures front { IfSome result (λ cut. Lacks byte cut.0.now) }
    ensures uncut { IfNone result (Lacks byte bytes.now) }
{
    let at = find_byte(bytes, byte)?;
    let (front, _) = bytes.split_at(at);
    let (_, behind) = bytes.split_at(at + 1);
    Some((front, behind))
}

/// Whether the bytes can be a line of text.
pub fn is_text(line: &[u8]) -> bool
    ensures { IsTrue result ↔ IsText line.now }
{
    if is_plain(line) {
        return true;
    }
    has_text_bytes(line) && str::from_utf8(line).is_ok()
}

// Whether all bytes are of ASCII, and none is 0 or a newline. So are nearly all lines.
fn is_plain(line: &[u8]) -> bool
    ensures { result ≡ list_all is_plain_byte line.now }
{
    // No early exit, so that the loop takes many bytes at a time.
    let mut plain = true;
    for byte in line {
        plain &= is_text_byte(*byte) & byte.is_ascii();
    }
    plain
}

fn has_text_bytes(line: &[u8]) -> bool
    ensures { result ≡ list_all is_text_byte line.now }
{
    line.iter().all(|byte| is_text_byte(*byte))
}

fn is_text_byte(byte: u8) -> bool
    ensures { result ≡ is_text_byte byte }
{
    (byte != 0) & (byte != NEWLINE)
}
