//! Reads bytes that a number counts.

ghost use Rattle.byte_grammar.specs.Gives.{Gives};
ghost use Rattle.byte_grammar.specs.tools.CountedWalk.{bytes_read, counted_read};

use crate::class::Byte;
use crate::readers::{Left, read_byte};

/// Reads so many bytes. Where there are fewer, no byte is left.
#[tactic(auto, unfolding(crate::specs::tools::CountedWalk::bytes_read))]
pub fn read_bytes(size: usize, bytes: &[u8]) -> Result<(&[u8], &[u8]), Left>
    ensures { Gives (λ x. (x.0.now, x.1.now)) result (bytes_read size bytes.now) }
{
    if bytes.len() < size {
        return Err(Left(0));
    }
    Ok(bytes.split_at(size))
}

/// Reads so many bytes, and the LF after them.
#[tactic(auto, unfolding(crate::specs::tools::CountedWalk::counted_read))]
pub fn read_counted(size: usize, bytes: &[u8]) -> Result<(&[u8], &[u8]), Left>
    ensures { Gives (λ x. (x.0.now, x.1.now)) result (counted_read size bytes.now) }
{
    let (text, rest) = read_bytes(size, bytes)?;
    let (_lf, rest) = read_byte(Byte(b'\n'), rest)?;
    Ok((text, rest))
}
