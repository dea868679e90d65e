//! What single bytes are, and how far a text goes on with such bytes.
ghost use Rattle.std.specs.Prelude.{◌≡◌, ◌==◌};
ghost use Rattle.std.specs.Char.{is_ascii_digit, is_ascii_lowercase};
ghost use Rattle.std.specs.List.{prefix_len};
ghost use Rattle.smc_tokens.specs.Tokens.{is_name_byte, is_text_byte, space};

/// The byte between tokens.
pub const SPACE: u8 = b' ';

/// The byte before and behind a text.
pub const QUOTE: u8 = b'\'';

/// The byte between the digits of a number.
pub const POINT: u8 = b'.';

/// The byte between the parts of a date.
pub const DASH: u8 = b'-';

/// Whether a name may have this byte behind its first.
pub fn is_name_byte(byte: u8) -> bool
    ensures { result ≡ is_name_byte byte }
{
    byte.is_ascii_lowercase() || byte.is_ascii_digit() || byte == b'_'
}

/// Whether this byte may stand between quotes.
pub fn is_text_byte(byte: u8) -> bool
    ensures { result ≡ is_text_byte byte }
{
    byte != 0 && byte != b'\n' && byte != QUOTE
}

/// How many bytes of a name the text begins with.
pub fn name_run(text: &[u8]) -> usize
    ensures { result ≡ prefix_len is_name_byte text.now }
{
    text.iter().take_while(|byte| is_name_byte(**byte)).count()
}

/// How many digits the text begins with.
pub fn digit_run(text: &[u8]) -> usize
    ensures { result ≡ prefix_len is_ascii_digit text.now }
{
    text.iter().take_while(|byte| byte.is_ascii_digit()).count()
}

/// How many bytes that may stand between quotes the text begins with.
pub fn text_run(text: &[u8]) -> usize
    ensures { result ≡ prefix_len is_text_byte text.now }
{
    text.iter().take_while(|byte| is_text_byte(**byte)).count()
}

/// How many spaces the text begins with.
pub fn space_run(text: &[u8]) -> usize
    ensures { result ≡ prefix_len (λ byte. byte == space) text.now }
{
    text.iter().take_while(|byte| **byte == SPACE).count()
}
