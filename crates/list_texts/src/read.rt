//! Reads lists of fields.

ghost use Rattle.std.specs.Prelude.{◌≡◌, ◌≢◌, ◌∷◌, ℕ, List, ◌||◌, option_map, IfOk, MatchResult};
ghost use Rattle.byte_grammar.specs.Causes.{AnswersWhere};
ghost use Rattle.byte_grammar.specs.Gives.{Gives as ReadGives};
ghost use Rattle.list_texts.specs.declared.list.FieldList.{FieldList};
ghost use Rattle.list_texts.specs.Lists.{SpellsList};
ghost use Rattle.list_texts.specs.Causes.{IsFieldsFault};
ghost use Rattle.list_texts.specs.tools.FieldWalk.{sizes_read, pair_read, size_read, field_step, next_step, fields_step, begin_step, content_step, end_step, form_step, field_view};
ghost use Rattle.list_texts.specs.tools.Judged.{Gives, Halts, Explains};

use crate::fault::FieldsFault;
use crate::limits::MAX_FIELD_BYTES;
use crate::list::{Field, FieldList};
use crate::stop::{Halt, Stop};
use byte_grammar::{
    Byte, Left, Memory, Sequence, Text, read_bytes, read_counted, read_literal, read_number,
    starts_with,
};
use framing::MAX_CONTENT_BYTES;
use std::alloc::Global;

// The line that names the format.
pub(crate) const FIRST_LINE: &[u8] = b"hms-fields 1\n";

// The line after which nothing comes.
pub(crate) const LAST_LINE: &[u8] = b"end\n";

// A field, borrowed from the text of its list.
#[derive(Clone, Copy)]
pub(crate) struct FieldView<'r> {
    pub name: &'r [u8],
    pub value: &'r [u8],
}

impl Field {
    /// A field of its own.
    fn of(alloc: Global, view: FieldView<'_>) -> Result<Field, Memory>
        ensures { IfOk result (λ field. field ≡ field_view view.entry) }
    {
        let name = Text::from_bytes(alloc, view.name)?;
        let value = Text::from_bytes(alloc, view.value)?;
        Ok(Field { name, value })
    }
}

// Reads the word of a field's line, and the numbers of bytes that its name and its value have.
#[tactic(auto, unfolding(crate::specs::tools::FieldWalk::sizes_read))]
fn read_sizes<'r>(word: &[u8], bytes: &'r [u8]) -> Result<((u64, u64), &'r [u8]), Left>
    ensures { ReadGives (λ x. (x.0, x.1.now)) result (sizes_read word.now bytes.now) }
{
    let rest = read_literal(word, bytes)?;
    let (name, rest) = read_number(b' ', rest)?;
    let (value, rest) = read_number(b'\n', rest)?;
    Ok(((name, value), rest))
}

// Reads a name and a value of so many bytes, and LF.
#[tactic(auto, unfolding(crate::specs::tools::FieldWalk::pair_read))]
fn read_pair(name: usize, value: usize, bytes: &[u8]) -> Result<(FieldView<'_>, &[u8]), Left>
    ensures { ReadGives (λ x. (field_view x.0, x.1.now)) result (pair_read name value bytes.now) }
{
    let (name, rest) = read_bytes(name, bytes)?;
    let (value, rest) = read_counted(value, rest)?;
    Ok((FieldView { name, value }, rest))
}

// Reads a field, whose line begins with the word. Its numbers are judged before its bytes are asked
// for.
#[tactic(auto, unfolding(crate::specs::tools::FieldWalk::field_step))]
fn read_field<'r>(word: &[u8], bytes: &'r [u8]) -> Result<(FieldView<'r>, &'r [u8]), Stop>
    ensures { Gives (λ x. (field_view x.0, x.1.now)) result (field_step word.now bytes.now) }
{
    let ((name, value), rest) = read_sizes(word, bytes)?;
    if name > MAX_FIELD_BYTES as u64 || value > MAX_FIELD_BYTES as u64 {
        return Err(Stop::TooLong(bytes.len()));
    }
    Ok(read_pair(name as usize, value as usize, rest)?)
}

// Reads a field where a line comes that begins with this byte, the first one of the word.
#[tactic(auto, unfolding(crate::specs::tools::FieldWalk::next_step))]
fn read_next<'r>(
    first: u8,
    word: &[u8],
    bytes: &'r [u8],
) -> Result<(Option<FieldView<'r>>, &'r [u8]), Stop>
    ensures { Gives (λ x. (option_map field_view x.0, x.1.now)) result
        (next_step first word.now bytes.now) }
{
    if !starts_with(Byte(first), bytes) {
        return Ok((None, bytes));
    }
    let (field, rest) = read_field(word, bytes)?;
    Ok((Some(field), rest))
}

// Reads fields one after the other, while lines come that begin with this byte, the first one of
// the word.
fn read_each<'r>(
    alloc: Global,
    first: u8,
    word: &[u8],
    bytes: &'r [u8],
) -> Result<(Sequence<Field>, &'r [u8]), Halt>
    requires { (others : List ℕ) × (word.now ≡ first ∷ others) }
    ensures { Halts (λ x. (x.0, x.1.now)) result (fields_step first word.now bytes.now) }
{
    let mut fields = Sequence::new(alloc);
    let mut left = bytes;
    'fields: loop {
        let (next, rest) = read_next(first, word, left)?;
        match next {
            None => return Ok((fields, rest)),
            Some(view) => {
                let field = Field::of(alloc, view)?;
                fields.push(field)?;
                left = rest;
            }
        }
    }
}

// Reads the line that names the format, and the fields.
#[tactic(auto, unfolding(crate::specs::tools::FieldWalk::begin_step))]
fn read_begin(alloc: Global, text: &[u8]) -> Result<(Sequence<Field>, &[u8]), Halt>
    ensures { Halts (λ x. (x.0, x.1.now)) result (begin_step text.now) }
{
    let rest = read_literal(FIRST_LINE, text)?;
    let (fields, rest) = read_each(alloc, b'f', b"field ", rest)?;
    Ok((fields, rest))
}

// Reads the word of the content's line, and the number of bytes that the content has.
#[tactic(auto, unfolding(crate::specs::tools::FieldWalk::size_read))]
fn read_size(bytes: &[u8]) -> Result<(u64, &[u8]), Left>
    ensures { ReadGives (λ x. (x.0, x.1.now)) result (size_read bytes.now) }
{
    let rest = read_literal(b"content ", bytes)?;
    let (size, rest) = read_number(b'\n', rest)?;
    Ok((size, rest))
}

// Reads the content. Its number is judged before its bytes are asked for.
#[tactic(auto, unfolding(crate::specs::tools::FieldWalk::content_step))]
fn read_content(bytes: &[u8]) -> Result<(&[u8], &[u8]), Stop>
    ensures { Gives (λ x. (x.0.now, x.1.now)) result (content_step bytes.now) }
{
    let (size, rest) = read_size(bytes)?;
    if size > MAX_CONTENT_BYTES as u64 {
        return Err(Stop::TooLong(bytes.len()));
    }
    Ok(read_counted(size as usize, rest)?)
}

// Reads the trailer fields, and the last line.
#[tactic(auto, unfolding(crate::specs::tools::FieldWalk::end_step))]
fn read_end(alloc: Global, bytes: &[u8]) -> Result<(Sequence<Field>, &[u8]), Halt>
    ensures { Halts (λ x. (x.0, x.1.now)) result (end_step bytes.now) }
{
    let (trailers, rest) = read_each(alloc, b't', b"trailer ", bytes)?;
    let rest = read_literal(LAST_LINE, rest)?;
    Ok((trailers, rest))
}

// Reads a list, after which more may come.
#[tactic(auto, unfolding(crate::specs::tools::FieldWalk::form_step))]
fn read_form(alloc: Global, text: &[u8]) -> Result<(FieldList, &[u8]), Halt>
    ensures { Halts (λ x. (x.0, x.1.now)) result (form_step text.now) }
{
    let (fields, rest) = read_begin(alloc, text)?;
    let (content, rest) = read_content(rest)?;
    let (trailers, rest) = read_end(alloc, rest)?;
    let content = Text::from_bytes(alloc, content)?;
    let list = FieldList {
        fields,
        content,
        trailers,
    };
    Ok((list, rest))
}

// The answer to a text, by its cause.
#[tactic(auto, using(crate::proofs::TextLaws::rest_left, crate::proofs::TextLaws::left_at, crate::proofs::TextLaws::long_at, crate::proofs::TextLaws::within_rest, crate::proofs::TextLaws::within_left, crate::proofs::TextLaws::within_long))]
fn judge(alloc: Global, text: &[u8]) -> Result<FieldList, FieldsFault>
    ensures { Explains text.now result }
{
    let size = text.len();
    match read_form(alloc, text) {
        Ok((list, [])) => Ok(list),
        Ok((_, rest)) => Err(FieldsFault::Syntax((size - rest.len()) as u64)),
        Err(Halt::Memory) => Err(FieldsFault::Memory),
        Err(Halt::At(Stop::Left(left))) => Err(FieldsFault::Syntax((size - left) as u64)),
        Err(Halt::At(Stop::TooLong(left))) => Err(FieldsFault::TooLong((size - left) as u64)),
    }
}

/// Reads a list of fields: the line `hms-fields 1`, fields, the content, trailer fields, and the
/// line `end`, after which nothing comes. Each name, value and content is copied once.
pub fn read_fields(alloc: Global, text: &[u8]) -> Result<FieldList, FieldsFault>
    ensures ok { IfOk result (λ list. SpellsList text.now list) }
    ensures only { (list : FieldList) → SpellsList text.now list
        → MatchResult result (λ given. given ≡ list) (λ fault. fault ≡ FieldsFault.Memory) }

    // The first fault whose cause holds is answered, and no other.
    ensures fault { (fault : FieldsFault) → fault ≢ FieldsFault.Memory
        → AnswersWhere FieldsFault.Memory result fault (IsFieldsFault text.now fault) }
{
    judge(alloc, text)
}
