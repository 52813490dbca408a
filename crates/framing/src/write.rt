//! Content written in chunks of given sizes (RFC 9112 section 7.1).

ghost use Rattle.std.specs.Prelude.{◌≡◌, ◌<◌, ◌++◌, ◌&&◌, OnOk, IsTrue, false, length};
ghost use Rattle.std.specs.Fmt.{digit_glyph, digits};
ghost use Rattle.framing.specs.Chunks.{chunk_text, chunks_text};
ghost use Rattle.framing.specs.Sizes.{add_up_to, are_some, chunk_of, sized_chunks};
ghost use Rattle.framing.specs.tools.Written.{adds_up};

use byte_grammar::{Memory, Sequence, Text};

/// Whether the sizes add up to so many.
fn add_up(sizes: &Sequence<u64>, count: usize) -> bool
    ensures { result ≡ adds_up count sizes.now }
{
    let mut left = count as u64;
    for size in sizes.iter() {
        if *size > left {
            return false;
        }
        left -= *size;
    }
    left == 0
}

/// Whether no size is 0.
fn are_some(sizes: &Sequence<u64>) -> bool
    ensures { result ≡ are_some sizes.now }
{
    sizes.iter().all(|size| *size > 0)
}

/// Whether these are the sizes of chunks of so much content: none is 0, which the last chunk alone
/// has, and they add up to it.
pub fn are_chunk_sizes(sizes: &Sequence<u64>, count: usize) -> bool
    ensures { result ≡ (are_some sizes.now && add_up_to count sizes.now) }
{
    are_some(sizes) && add_up(sizes, count)
}

/// The hexadecimal digit of the number, a letter in lower case.
fn hex_digit(number: u8) -> u8
    requires { number < 16 }
    ensures { result ≡ digit_glyph false number }
{
    if number < 10 {
        return b'0' + number;
    }
    b'a' + (number - 10)
}

/// Adds the number in hexadecimal, without zeros before it.
fn append_hexadecimal(number: usize, text: &mut Text) -> Result<(), Memory>
    ensures { OnOk result (text.new ≡ text.old ++ digits 16 false number) }
{
    if number < 16 {
        return text.push(hex_digit(number as u8));
    }
    append_hexadecimal(number / 16, text)?;
    text.push(hex_digit((number % 16) as u8))
}

/// Adds the chunk of these bytes.
fn append_chunk(bytes: &[u8], text: &mut Text) -> Result<(), Memory>
    ensures { OnOk result (text.new ≡ text.old ++ chunk_text (chunk_of bytes.now)) }
{
    append_hexadecimal(bytes.len(), text)?;
    text.append(b"\r\n")?;
    text.append(bytes)?;
    text.append(b"\r\n")
}

/// Adds the content in chunks of these sizes, and the last chunk. A trailer section comes after it.
pub fn append_chunks(content: &[u8], sizes: &Sequence<u64>, text: &mut Text) -> Result<(), Memory>
    requires { IsTrue (add_up_to (length content.now) sizes.now) }
    ensures { OnOk result (text.new
        ≡ text.old ++ chunks_text (sized_chunks sizes.now content.now)) }
{
    let mut left = content;
    for size in sizes.iter() {
        let (bytes, after) = left.split_at(*size as usize);
        append_chunk(bytes, text)?;
        left = after;
    }
    text.append(b"0\r\n")
}
