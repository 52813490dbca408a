//! Parts of texts that a mark separates.

ghost use Rattle.std.specs.Prelude.{ℕ, List, Option, option_map, IfSome, IfNone};
ghost use Rattle.derived_values.specs.tools.Parts.{IsMarked};

use byte_grammar::{ByteClass, allows_all};

/// What comes after the mark, or nothing where the bytes are empty; None where they are neither.
pub(crate) fn read_marked<C: ByteClass>(mark: u8, class: C, bytes: &[u8]) -> Option<Option<&[u8]>>
    ensures some { IfSome result (λ part.
        IsMarked mark (C.members class) bytes.now (option_map (λ text. text.now) part)) }
    ensures none { IfNone result ((part : Option (List ℕ)) →
        ¬ IsMarked mark (C.members class) bytes.now part) }
{
    let Some((first, rest)) = bytes.split_first() else {
        return Some(None);
    };
    if *first != mark {
        return None;
    }
    if !allows_all(class, rest) {
        return None;
    }
    Some(Some(rest))
}
