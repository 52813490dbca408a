//! A text that is fed piece by piece.

use crate::absorb::Absorb;
use crate::memory::Memory;
use crate::text::Text;
use std::alloc::Global;

/// A text that grows by what it absorbs, as long as there is memory.
#[derive(Drop)]
pub struct FedText {
    text: Text,
    // Memory ran out: the text lacks a piece.
    is_short: bool,
}

impl Absorb for FedText {
    ghost use Rattle.byte_grammar.specs.Fed.{HasFed};

    ghost absorbed = { HasFed };

    fn absorb(&mut self, piece: &[u8]) {
        if let Err(Memory) = self.text.append(piece) {
            self.is_short = true;
        }
    }
}

impl FedText {
    ghost use Rattle.std.specs.Prelude.{◌≡◌, [], ℕ, List, IfOk, IfErr};
    ghost use Rattle.byte_grammar.specs.Fed.{HasFed, LacksPiece};

    /// Nothing was fed yet. It takes no memory.
    pub fn new(alloc: Global) -> FedText
        ensures { HasFed result [] }
    {
        FedText {
            text: Text::new(alloc),
            is_short: false,
        }
    }

    /// The text that was fed. It takes no memory.
    pub fn into_text(self) -> Result<Text, Memory>
        ensures fed { (text : List ℕ) → HasFed self text → IfOk result (λ own. own ≡ text) }
        ensures short { IfErr result (λ _. LacksPiece self) }
    {
        if self.is_short {
            return Err(Memory);
        }
        Ok(self.text)
    }
}
