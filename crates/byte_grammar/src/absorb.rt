//! What takes in a text piece by piece.

ghost use Rattle.std.specs.Prelude.{ℕ, List, ◌++◌};

/// Takes in a text piece by piece. It takes no memory and can't fail.
///
/// A hasher is one, and so are a counter and a buffer. Its meaning is a relation, since a counter
/// doesn't know which text it counted.
pub trait Absorb {
    // The value has absorbed this text.
    ghost absorbed: { Self → List ℕ → Type 0 };

    /// Takes in one more piece.
    fn absorb(&mut self, piece: &[u8])
        ensures { (text : List ℕ) → absorbed self.old text
            → absorbed self.new (text ++ piece.now) };
}
