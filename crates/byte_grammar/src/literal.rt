//! Reads a text that is given.

ghost use Rattle.std.specs.Prelude.{◌≡◌, ◌≤◌, length};
ghost use Rattle.byte_grammar.specs.Gives.{Gives};
ghost use Rattle.byte_grammar.specs.tools.CountedWalk.{common_length, literal_read};

use crate::readers::Left;

/// How many first bytes the two have in common.
fn common_len(text: &[u8], bytes: &[u8]) -> usize
    ensures value { result ≡ common_length text.now bytes.now }
    ensures in_text { result ≤ length text.now }
    ensures in_bytes { result ≤ length bytes.now }
{
    let mut n = 0;
    while n < text.len() && n < bytes.len() {
        if text[n] != bytes[n] {
            return n;
        }
        n += 1;
    }
    n
}

/// Reads just this text.
#[tactic(auto, unfolding(crate::specs::tools::CountedWalk::literal_read))]
pub fn read_literal<'r>(text: &[u8], bytes: &'r [u8]) -> Result<&'r [u8], Left>
    ensures { Gives (λ rest. (text.now, rest.now)) result (literal_read text.now bytes.now) }
{
    let n = common_len(text, bytes);
    if n < text.len() {
        return Err(Left(bytes.len() - n));
    }
    Ok(&bytes[text.len()..])
}
