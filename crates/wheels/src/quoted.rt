ghost use Rattle.std.specs.Prelude.{◌≡◌, ℕ, ◌<◌, Bool, true, false, Some};
ghost use Rattle.std.specs.Fmt.{WritesOnOk, digit_glyph};
ghost use Rattle.wheels.specs.Texts.{alphanumeric, byte_text, plain};
ghost use Rattle.wheels.specs.Escapes.{escaped, one_word, quoted};

use std::fmt;

/// Bytes in quotes: printable ASCII stands as itself, but for `%` and `"`; every other byte is `%` and two hexadecimal digits.
#[derive(Clone, Copy)]
pub(crate) struct Quoted<'a>(pub(crate) &'a [u8]);

impl fmt::Display for Quoted<'_> {
    ghost output = { λ text. Some (quoted text.0.now) };

    fn fmt<W: fmt::Write>(&self, f: &mut fmt::Formatter<W>) -> fmt::Result {
        f.write_str("\"")?;
        write_escaped(self.0, is_plain, f)?;
        f.write_str("\"")
    }
}

/// Bytes as one word: letters and digits stand as themselves, every other byte is `%` and two hexadecimal digits.
#[derive(Clone, Copy)]
pub(crate) struct Word<'a>(pub(crate) &'a [u8]);

impl fmt::Display for Word<'_> {
    ghost output = { λ text. Some (one_word text.0.now) };

    fn fmt<W: fmt::Write>(&self, f: &mut fmt::Formatter<W>) -> fmt::Result {
        write_escaped(self.0, is_alphanumeric, f)
    }
}

/// Writes bytes: one that `stands` says so of as itself, every other as `%` and two hexadecimal digits.
fn write_escaped<W: fmt::Write, F: Fn(u8) -> bool>(
    bytes: &[u8],
    stands: F,
    f: &mut fmt::Formatter<W>,
) -> fmt::Result
    requires callable { F.IsAlwaysCallable stands }
    requires ascii { (b : ℕ) → F.post stands b true → b < 128 }
    ensures { (p : ℕ → Bool) → ((b : ℕ) (r : Bool) → F.post stands b r → r ≡ p b) → WritesOnOk W.Write.write_str_gives f.old result (escaped p bytes.now) f.new }
{
    for byte in bytes {
        if stands(*byte) {
            f.write_char(*byte as char)?;
        } else {
            write_hex(*byte, f)?;
        }
    }
    Ok(())
}

/// Writes a byte as `%` and two hexadecimal digits.
// Kept: digit by digit, since a run over such bytes takes a quarter to a third more time by a format with a width.
fn write_hex<W: fmt::Write>(byte: u8, f: &mut fmt::Formatter<W>) -> fmt::Result
    ensures { WritesOnOk W.Write.write_str_gives f.old result (byte_text false byte) f.new }
{
    f.write_char('%')?;
    f.write_char(hex_digit(byte / 16))?;
    f.write_char(hex_digit(byte % 16))
}

fn hex_digit(value: u8) -> char
    requires { value < 16 }
    ensures { result ≡ digit_glyph true value }
{
    if value < 10 {
        (b'0' + value) as char
    } else {
        (b'A' + (value - 10)) as char
    }
}

fn is_plain(byte: u8) -> bool
    ensures value { result ≡ plain byte }
    ensures ascii { result ≡ true → byte < 128 }
{
    matches!(byte, 0x20..=0x7E) && byte != b'%' && byte != b'"'
}

fn is_alphanumeric(byte: u8) -> bool
    ensures value { result ≡ alphanumeric byte }
    ensures ascii { result ≡ true → byte < 128 }
{
    byte.is_ascii_alphanumeric()
}
