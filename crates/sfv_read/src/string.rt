//! Strings (RFC 9651 section 3.3.3).

ghost use Rattle.byte_grammar.specs.Gives.{Gives};
ghost use Rattle.sfv_read.specs.tools.Gives.{GivesUnlessMemory};
ghost use Rattle.sfv_read.specs.tools.BareWalk.{escaped_run_read, characters_read, string_read};

use crate::class::SfClass;
use crate::error::PartError;
use byte_grammar::{Byte, Left, read_all, read_byte, read_word, starts_with};
use sfv_text::Text;
use std::alloc::Global;

/// Reads characters in quotes, `"` and `\` after a backslash.
#[tactic(auto, unfolding(crate::specs::tools::BareWalk::string_read))]
pub fn read_string(alloc: Global, bytes: &[u8]) -> Result<(Text, &[u8]), PartError>
    ensures { GivesUnlessMemory (λ x. (x.0, x.1.now)) result (string_read bytes.now) }
{
    let (_, rest) = read_byte(Byte(b'"'), bytes)?;
    let (text, rest) = read_characters(alloc, rest)?;
    let (_, rest) = read_byte(Byte(b'"'), rest)?;
    Ok((text, rest))
}

/// Reads characters up to the first byte that is none, a run at a time.
fn read_characters(alloc: Global, bytes: &[u8]) -> Result<(Text, &[u8]), PartError>
    ensures { GivesUnlessMemory (λ x. (x.0, x.1.now)) result (characters_read bytes.now) }
{
    let (first, after) = read_all(SfClass::Unescaped, bytes);
    let mut text = Text::from_bytes(alloc, first)?;
    let mut rest = after;
    'runs: while starts_with(Byte(b'\\'), rest) {
        let (run, after) = read_escaped_run(rest)?;
        text.append(run)?;
        rest = after;
    }
    Ok((text, rest))
}

/// Reads a backslash, the character that it escapes, and those after it that stand for themselves.
#[tactic(auto, unfolding(crate::specs::tools::BareWalk::escaped_run_read))]
fn read_escaped_run(bytes: &[u8]) -> Result<(&[u8], &[u8]), Left>
    ensures { Gives (λ x. (x.0.now, x.1.now)) result (escaped_run_read bytes.now) }
{
    let (_, rest) = read_byte(Byte(b'\\'), bytes)?;
    read_word(SfClass::Escapable, SfClass::Unescaped, rest)
}
