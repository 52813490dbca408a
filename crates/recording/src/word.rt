//! Words with which the lines of a recording begin.

ghost use Rattle.std.specs.Prelude.{◌≡◌};
ghost use Rattle.byte_grammar.specs.Gives.{Gives};
ghost use Rattle.recording.specs.tools.RecordingWalk.{word_text, role_at, word_at, word_read};

use crate::item::Role;
use byte_grammar::{Left, read_literal};

/// The word with which a line begins. Each but the last word has SP after it.
#[derive(Clone, Copy)]
pub(crate) enum Word {
    At,
    Message(Role),
    Script,
    End,
}

impl Word {
    /// Its text, with the SP or LF after it.
    fn text(self) -> &'static [u8]
        ensures { result.now ≡ word_text self }
    {
        match self {
            Word::At => b"at ",
            Word::Message(Role::Request) => b"request ",
            Word::Message(Role::Response) => b"response ",
            Word::Message(Role::Related) => b"related ",
            Word::Script => b"script ",
            Word::End => b"end\n",
        }
    }
}

/// The role of the word that may begin with `r` and these bytes. All three go on with `e`.
#[tactic(auto, unfolding(crate::specs::tools::RecordingWalk::role_at))]
fn role_at(bytes: &[u8]) -> Role
    ensures { result ≡ role_at bytes.now }
{
    match bytes {
        [_, b'l', ..] => Role::Related,
        [_, b's', ..] => Role::Response,
        _ => Role::Request,
    }
}

/// The one word with which the bytes may begin.
#[tactic(auto, unfolding(crate::specs::tools::RecordingWalk::word_at))]
fn word_at(bytes: &[u8]) -> Option<Word>
    ensures { result ≡ word_at bytes.now }
{
    match bytes {
        [b'a', ..] => Some(Word::At),
        [b's', ..] => Some(Word::Script),
        [b'e', ..] => Some(Word::End),
        [b'r', rest @ ..] => Some(Word::Message(role_at(rest))),
        _ => None,
    }
}

/// Reads the word with which a line begins.
#[tactic(auto, unfolding(crate::specs::tools::RecordingWalk::word_read))]
pub(crate) fn read_word(bytes: &[u8]) -> Result<(Word, &[u8]), Left>
    ensures { Gives (λ x. (x.0, x.1.now)) result (word_read bytes.now) }
{
    let Some(word) = word_at(bytes) else {
        return Err(Left(bytes.len()));
    };
    let rest = read_literal(word.text(), bytes)?;
    Ok((word, rest))
}
