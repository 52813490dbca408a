//! Whole texts of structured fields.

ghost use Rattle.std.specs.Prelude.{◌≤◌, ℕ, List as Listed, Result, length, IfErr};
ghost use Rattle.byte_grammar.specs.tools.Walks.{padded_read, whole_read};
ghost use Rattle.byte_grammar.specs.Classes.{is_space};
ghost use Rattle.sfv_read.specs.tools.Answers.{Answers};
ghost use Rattle.sfv_read.specs.tools.Gives.{GivesUnlessMemory, IfMemory};
ghost use Rattle.sfv_read.specs.tools.ItemWalk.{item_read};
ghost use Rattle.sfv_read.specs.tools.InnerWalk.{inner_list_read};

use crate::error::{PartError, SfError};
use crate::inner::read_inner_list_text;
use crate::params::read_item_text;
use byte_grammar::{Byte, read_all};
use sfv_text::{InnerList, Item};
use std::alloc::Global;

/// The value, where a reader read the text to its end, or else the offset of the fault.
#[tactic(auto, unfolding(byte_grammar::specs::tools::Walks::whole_read))]
pub fn answer<V: Drop>(text: &[u8], read: Result<(V, &[u8]), PartError>) -> Result<V, SfError>
    requires { IfErr read (λ e. IfMemory e (1 ≤ length text.now)) }
    ensures { (reader : Listed ℕ → Result (V × Listed ℕ) ℕ)
        → GivesUnlessMemory (λ x. (x.0, x.1.now)) read.entry (reader text.now)
        → Answers (whole_read reader) text.now result }
{
    match read {
        Ok((value, [])) => Ok(value),
        Ok((_, rest)) => Err(SfError::Syntax(text.len().saturating_sub(rest.len()))),
        Err(PartError::Memory) => Err(SfError::Memory),
        Err(PartError::At(left)) => Err(SfError::Syntax(text.len().saturating_sub(left))),
    }
}

/// Reads an Item, with spaces at both ends.
#[tactic(auto, unfolding(byte_grammar::specs::tools::Walks::padded_read))]
pub fn read_padded_item(alloc: Global, text: &[u8]) -> Result<(Item, &[u8]), PartError>
    ensures gives { GivesUnlessMemory (λ x. (x.0, x.1.now)) result
        (padded_read is_space item_read text.now) }
    ensures needed { IfErr result (λ e. IfMemory e (1 ≤ length text.now)) }
{
    let (_, rest) = read_all(Byte(b' '), text);
    let (item, rest) = read_item_text(alloc, rest)?;
    let (_, rest) = read_all(Byte(b' '), rest);
    Ok((item, rest))
}

/// Reads an Inner List, with spaces at both ends.
#[tactic(auto, unfolding(byte_grammar::specs::tools::Walks::padded_read))]
pub fn read_padded_inner(alloc: Global, text: &[u8]) -> Result<(InnerList, &[u8]), PartError>
    ensures gives { GivesUnlessMemory (λ x. (x.0, x.1.now)) result
        (padded_read is_space inner_list_read text.now) }
    ensures needed { IfErr result (λ e. IfMemory e (1 ≤ length text.now)) }
{
    let (_, rest) = read_all(Byte(b' '), text);
    let (list, rest) = read_inner_list_text(alloc, rest)?;
    let (_, rest) = read_all(Byte(b' '), rest);
    Ok((list, rest))
}
