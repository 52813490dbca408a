//! Byte Sequences, fed without memory from the pieces of their bytes.

ghost use Rattle.std.specs.Prelude.{◌≡◌, ◌++◌, ◌∷◌, [], ℕ, ◌%◌, List, length};
ghost use Rattle.base64.specs.Engines.{standard};
ghost use Rattle.base64.specs.GeneralPurpose.{encode_of};
ghost use Rattle.sfv_text.specs.Strict.{bytes_text};
ghost use Rattle.msg_head.specs.Values.{value};
ghost use Rattle.component_values.specs.tools.Encoding.{IsEncodedUpTo};

use base64::engine::general_purpose::STANDARD;
use msg_head::LineView;
use sfv_text::Absorb;

/// The bytes that wait for a group of three.
#[derive(Clone, Copy, Drop)]
pub(crate) enum Carry {
    /// No byte waits.
    Nothing,
    /// One byte does.
    One(u8),
    /// Two do, in order.
    Two(u8, u8),
}

/// The base64 symbols of three bytes (RFC 4648 section 4).
fn group(bytes: &[u8; 3]) -> [u8; 4]
    ensures { result ≡ encode_of standard bytes.now }
{
    let mut out = [0u8; 4];
    let _ = STANDARD.encode_slice(bytes, &mut out);
    out
}

/// The symbols of the last two bytes, and one `=`.
fn group_of_two(first: u8, second: u8) -> [u8; 4]
    ensures { result ≡ encode_of standard (first ∷ second ∷ []) }
{
    let mut out = [0u8; 4];
    let _ = STANDARD.encode_slice(&[first, second], &mut out);
    out
}

/// The symbols of the last byte, and two `=`.
fn group_of_one(byte: u8) -> [u8; 4]
    ensures { result ≡ encode_of standard (byte ∷ []) }
{
    let mut out = [0u8; 4];
    let _ = STANDARD.encode_slice(&[byte], &mut out);
    out
}

/// Feeds the symbols of three bytes after those of whole groups.
fn feed_group<A: Absorb>(bytes: &[u8; 3], into: &mut A)
    ensures { (text groups : List ℕ) → length groups % 3 ≡ 0
        → A.absorbed into.old (text ++ encode_of standard groups)
        → A.absorbed into.new (text ++ encode_of standard (groups ++ bytes.now)) }
{
    into.absorb(&group(bytes));
}

/// Takes one more byte.
fn feed_byte<A: Absorb>(carry: &mut Carry, byte: u8, into: &mut A)
    ensures { (text done : List ℕ)
        → IsEncodedUpTo (A.absorbed into.old) carry.old text done
        → IsEncodedUpTo (A.absorbed into.new) carry.new text (done ++ byte ∷ []) }
{
    match *carry {
        Carry::Nothing => *carry = Carry::One(byte),
        Carry::One(first) => *carry = Carry::Two(first, byte),
        Carry::Two(first, second) => {
            *carry = Carry::Nothing;
            feed_group(&[first, second, byte], into);
        }
    }
}

/// Takes one more piece.
fn feed_piece<A: Absorb>(carry: &mut Carry, piece: &[u8], into: &mut A)
    ensures { (text done : List ℕ)
        → IsEncodedUpTo (A.absorbed into.old) carry.old text done
        → IsEncodedUpTo (A.absorbed into.new) carry.new text (done ++ piece.now) }
{
    for &byte in piece {
        feed_byte(carry, byte, into);
    }
}

/// Feeds the symbols of what waits.
fn feed_last<A: Absorb>(carry: Carry, into: &mut A)
    ensures { (text done : List ℕ)
        → IsEncodedUpTo (A.absorbed into.old) carry text done
        → A.absorbed into.new (text ++ encode_of standard done) }
{
    match carry {
        Carry::Nothing => {}
        Carry::One(byte) => into.absorb(&group_of_one(byte)),
        Carry::Two(first, second) => into.absorb(&group_of_two(first, second)),
    }
}

/// Feeds the base64 text of the line's value.
fn feed_encoded<A: Absorb>(line: LineView<'_>, into: &mut A)
    ensures { (text : List ℕ) → A.absorbed into.old text
        → A.absorbed into.new (text ++ encode_of standard (value line.entry.raw.now)) }
{
    let mut carry = Carry::Nothing;
    for piece in line.value_pieces() {
        feed_piece(&mut carry, piece, into);
    }
    feed_last(carry, into);
}

/// Feeds the line's value as a Byte Sequence (RFC 9651 section 4.1.8).
pub(crate) fn feed_byte_sequence<A: Absorb>(line: LineView<'_>, into: &mut A)
    ensures { (text : List ℕ) → A.absorbed into.old text
        → A.absorbed into.new (text ++ bytes_text (value line.entry.raw.now)) }
{
    into.absorb(b":");
    feed_encoded(line, into);
    into.absorb(b":");
}
