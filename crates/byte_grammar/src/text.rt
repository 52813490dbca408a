//! Bytes that are owned.

ghost use Rattle.std.specs.Prelude.{◌≡◌, ◌≤◌, ◌<◌, ◌++◌, ◌∷◌, [], length, IfOk, IfErr, OnOk, OnErr};
ghost use Rattle.std.specs.Fmt.{decimal};
ghost use Rattle.byte_grammar.specs.declared.short.TheConstants.{IN_PLACE};

use crate::memory::Memory;
use crate::short::{IN_PLACE, Short};
use std::alloc::Global;
use std::fmt;
use std::marker::Model;

/// Where the bytes of a text are.
#[derive(Debug, Drop)]
enum Held {
    /// In place. Memory for more comes from there.
    InPlace(Short, Global),
    /// In a vector.
    Allocated(Vec<u8>),
}

/// Owned bytes. A contract sees a text as the list of its bytes.
#[derive(Debug, Drop)]
pub struct Text {
    held: Held,
}

impl Model for Text {
    ghost use Rattle.std.specs.Prelude.{ℕ, List};
    ghost use Rattle.byte_grammar.specs.tools.Held.{held_bytes};

    ghost Value = { List ℕ };

    ghost view = { λ t. held_bytes t.held };
}

impl Text {
    /// The empty text. It takes no memory.
    pub fn new(alloc: Global) -> Text
        ensures { result ≡ [] }
    {
        let held = Held::InPlace(Short::new(), alloc);
        Text { held }
    }

    /// The empty text, with room for so many bytes.
    pub fn with_capacity(alloc: Global, capacity: usize) -> Result<Text, Memory>
        ensures ok { IfOk result (λ text. text ≡ []) }
        ensures needed { IfErr result (λ _. IN_PLACE < capacity) }
    {
        if capacity <= IN_PLACE {
            return Ok(Text::new(alloc));
        }
        Ok(Text::from_vec(Vec::with_capacity(alloc, capacity)?))
    }

    /// A text of these bytes. Where they are few it takes no memory.
    pub fn from_bytes(alloc: Global, bytes: &[u8]) -> Result<Text, Memory>
        ensures ok { IfOk result (λ text. text ≡ bytes.now) }
        ensures needed { IfErr result (λ _. IN_PLACE < length bytes.now) }
    {
        let mut short = Short::new();
        if short.fits(bytes) {
            short.append(bytes);
            let held = Held::InPlace(short, alloc);
            return Ok(Text { held });
        }
        let mut long = Vec::with_capacity(alloc, bytes.len())?;
        long.extend_from_slice(bytes)?;
        Ok(Text::from_vec(long))
    }

    /// The text that the vector holds. It takes no memory.
    pub fn from_vec(bytes: Vec<u8>) -> Text
        ensures { result ≡ bytes.items }
    {
        let held = Held::Allocated(bytes);
        Text { held }
    }

    /// The bytes, in order.
    pub fn bytes(&self) -> &[u8]
        ensures { result.now ≡ self.now }
    {
        match &self.held {
            Held::InPlace(short, _) => short.bytes(),
            Held::Allocated(long) => long.as_slice(),
        }
    }

    /// Adds the piece at the end.
    pub fn append(&mut self, piece: &[u8]) -> Result<(), Memory>
        ensures ok { OnOk result (self.new ≡ self.old ++ piece.now) }
        ensures err { OnErr result (self.new ≡ self.old) }
        ensures needed { OnErr result (1 ≤ length piece.now) }
    {
        match &mut self.held {
            Held::Allocated(long) => {
                long.extend_from_slice(piece)?;
                Ok(())
            }
            Held::InPlace(short, alloc) => {
                if short.fits(piece) {
                    short.append(piece);
                    return Ok(());
                }
                let few = short.bytes();
                let mut long = Vec::with_capacity(*alloc, few.len() + piece.len())?;
                long.extend_from_slice(few)?;
                long.extend_from_slice(piece)?;
                self.held = Held::Allocated(long);
                Ok(())
            }
        }
    }

    /// Adds the byte at the end.
    pub fn push(&mut self, byte: u8) -> Result<(), Memory>
        ensures ok { OnOk result (self.new ≡ self.old ++ byte ∷ []) }
        ensures err { OnErr result (self.new ≡ self.old) }
    {
        match &mut self.held {
            Held::Allocated(long) => {
                long.push(byte)?;
                Ok(())
            }
            Held::InPlace(_, _) => self.append(&[byte]),
        }
    }

    /// An equal text of its own. Where its bytes are few it takes no memory.
    pub fn copy(&self, alloc: Global) -> Result<Text, Memory>
        ensures ok { IfOk result (λ text. text ≡ self.now) }
        ensures needed { IfErr result (λ _. IN_PLACE < length self.now) }
    {
        match &self.held {
            Held::InPlace(short, _) => {
                let held = Held::InPlace(short.copy(), alloc);
                Ok(Text { held })
            }
            Held::Allocated(long) => Text::from_bytes(alloc, long.as_slice()),
        }
    }
}

/// The bytes as characters: a byte of ASCII is the character itself, and another one that of its
/// number.
impl fmt::Display for Text {
    ghost use Rattle.std.specs.Prelude.{Some};
    ghost use Rattle.byte_grammar.specs.Displayed.{displayed};

    ghost output = { λ text. Some (displayed text) };

    fn fmt<W: fmt::Write>(&self, f: &mut fmt::Formatter<W>) -> fmt::Result {
        for byte in self.bytes() {
            f.write_char(*byte as char)?;
        }
        Ok(())
    }
}

/// Adds two pieces at the end. After an error the first may have been added.
pub fn append_words(first: &[u8], second: &[u8], text: &mut Text) -> Result<(), Memory>
    ensures { OnOk result (text.new ≡ text.old ++ (first.now ++ second.now)) }
{
    text.append(first)?;
    text.append(second)
}

/// Adds a piece and a number in decimal at the end. After an error the piece may have been added.
pub fn append_number(
    alloc: Global,
    word: &[u8],
    number: usize,
    text: &mut Text,
) -> Result<(), Memory>
    ensures { OnOk result (text.new ≡ text.old ++ (word.now ++ decimal number)) }
{
    let digits = format!(in alloc; "{number}")?;
    append_words(word, digits.as_bytes(), text)
}
