//! Reads a chunk line, and the data after it.

ghost use Rattle.std.specs.Prelude.{◌≡◌, ◌<◌, ◌↔◌, ◌++◌, codes, IfOk, IsTrue};
ghost use Rattle.std.specs.Char.{is_ascii_hexdigit, digit_value};
ghost use Rattle.std.specs.Str.Parse.{digits_value};
ghost use Rattle.byte_grammar.specs.Gives.{Gives};
ghost use Rattle.byte_grammar.specs.Language.{AreBytesOf};
ghost use Rattle.framing.specs.declared.chunk_limits.TheConstants.{MAX_SIZE_DIGITS};
ghost use Rattle.framing.specs.tools.ChunkWalk.{crlf_read, extension_read, line_read, data_read};

use crate::chunk_limits::{MAX_EXTENSION_BYTES, MAX_SIZE_DIGITS};
use crate::classes::{ExtensionStart, HexDigit};
use byte_grammar::{Byte, Class, Left, read_byte, read_bytes, read_run, starts_with};

/// A chunk line as it is written, without its CRLF, and the size that it says.
#[derive(Clone, Copy)]
pub(crate) struct ChunkLine<'m> {
    pub(crate) text: &'m [u8],
    pub(crate) size: u64,
}

impl ChunkLine<'_> {
    /// Whether it is the line of the last chunk.
    pub(crate) fn is_last(&self) -> bool
        ensures { IsTrue result ↔ (self.now.size ≡ 0) }
    {
        self.size == 0
    }
}

// Reads CRLF.
#[tactic(auto, unfolding(crate::specs::tools::ChunkWalk::crlf_read))]
fn read_crlf(bytes: &[u8]) -> Result<&[u8], Left>
    ensures { Gives (λ rest. (codes "\r\n", rest.now)) result (crlf_read bytes.now) }
{
    let (_cr, rest) = read_byte(Byte(b'\r'), bytes)?;
    let (_lf, rest) = read_byte(Byte(b'\n'), rest)?;
    Ok(rest)
}

// Reads the extension of a chunk line, or none.
#[tactic(auto, unfolding(crate::specs::tools::ChunkWalk::extension_read))]
fn read_extension(bytes: &[u8]) -> Result<(&[u8], &[u8]), Left>
    ensures gives { Gives (λ x. (x.0.now, x.1.now)) result (extension_read bytes.now) }
    ensures joined { IfOk result (λ x. bytes.now ≡ x.0.now ++ x.1.now) }
{
    if starts_with(ExtensionStart, bytes) {
        read_run(Class::LineByte, 0, MAX_EXTENSION_BYTES, bytes)
    } else {
        read_run(Class::LineByte, 0, 0, bytes)
    }
}

// The value of a hexadecimal digit.
fn digit_value(digit: u8) -> u64
    requires { IsTrue (is_ascii_hexdigit digit) }
    ensures value { result ≡ digit_value digit }
    ensures below { result < 16 }
{
    match digit {
        b'0'..=b'9' => u64::from(digit - b'0'),
        b'a'..=b'f' => u64::from(digit - b'a') + 10,
        _ => u64::from(digit - b'A') + 10,
    }
}

// The number that the hexadecimal digits spell. So many digits always fit.
fn size_of(digits: &[u8]) -> u64
    requires { AreBytesOf is_ascii_hexdigit 1 MAX_SIZE_DIGITS digits.now }
    ensures { result ≡ digits_value 16 digits.now }
{
    let mut size = 0;
    for digit in digits {
        size = size * 16 + digit_value(*digit);
    }
    size
}

/// Reads a chunk line and its CRLF.
#[tactic(auto, unfolding(crate::specs::tools::ChunkWalk::line_read))]
pub(crate) fn read_line(bytes: &[u8]) -> Result<(ChunkLine<'_>, &[u8]), Left>
    ensures gives { Gives (λ x. ((x.0.text.now, x.0.size), x.1.now)) result (line_read bytes.now) }
{
    let (digits, rest) = read_run(HexDigit, 1, MAX_SIZE_DIGITS, bytes)?;
    let (_extension, rest) = read_extension(rest)?;
    let text = &bytes[..bytes.len() - rest.len()];
    let rest = read_crlf(rest)?;
    let size = size_of(digits);
    Ok((ChunkLine { text, size }, rest))
}

/// Reads so many bytes of data and the CRLF after them.
#[tactic(auto, unfolding(crate::specs::tools::ChunkWalk::data_read))]
pub(crate) fn read_data(size: usize, bytes: &[u8]) -> Result<(&[u8], &[u8]), Left>
    ensures { Gives (λ x. (x.0.now, x.1.now)) result (data_read size bytes.now) }
{
    let (chunk, rest) = read_bytes(size, bytes)?;
    let after = read_crlf(rest)?;
    Ok((chunk, after))
}
