//! Parts of values, fed without memory.

ghost use Rattle.std.specs.Prelude.{◌≡◌, ◌++◌, ℕ, List, IsTrue, option_map};
ghost use Rattle.std.specs.Str.{str_to_ascii_lowercase};
ghost use Rattle.derived_values.specs.Marks.{marked_text};

use sfv_text::Absorb;

// Whether the text has no upper-case letter, so that it is in lower case.
fn is_lowered(text: &[u8]) -> bool
    ensures { IsTrue result → str_to_ascii_lowercase text.now ≡ text.now }
{
    !text.iter().any(|byte| byte.is_ascii_uppercase())
}

/// Feeds the text in lower case, as a whole where it is so. It takes no memory and can't fail.
pub fn feed_lowered<A: Absorb>(text: &[u8], into: &mut A)
    ensures { (fed : List ℕ) → A.absorbed into.old fed
        → A.absorbed into.new (fed ++ str_to_ascii_lowercase text.now) }
{
    if is_lowered(text) {
        into.absorb(text);
        return;
    }
    for byte in text {
        into.absorb(&[byte.to_ascii_lowercase()]);
    }
}

/// Feeds the mark and the part, where there is one, as `:` and a port, or `?` and a query. It takes
/// no memory and can't fail.
pub fn feed_marked<A: Absorb>(mark: u8, part: Option<&[u8]>, into: &mut A)
    ensures { (fed : List ℕ) → A.absorbed into.old fed → A.absorbed into.new
        (fed ++ marked_text mark (option_map (λ text. text.now) part.entry)) }
{
    if let Some(text) = part {
        into.absorb(&[mark]);
        into.absorb(text);
    }
}
