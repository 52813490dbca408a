//! Laws of strict texts, of equality and of pairs. Each function does nothing; its contract is the
//! law.

ghost use Rattle.std.specs.Str.{bytes_eq};
ghost use Rattle.sfv_text.specs.Laws.{HasPrintableTexts, IsEquality, IsSymmetric, HasOwnKeyFirst, PutsDistinctly, PutsWithTest, PutsNewLast, PutsValue};
ghost use Rattle.sfv_text.specs.Equality.{is_equal_bare, is_equal_param};
ghost use Rattle.sfv_text.specs.Range.{is_bare_in_range, is_item_in_range, is_inner_in_range, is_list_in_range, is_dict_in_range};
ghost use Rattle.sfv_text.specs.Strict.{bare_text, item_text, inner_text, list_text, dict_text};

/// The strict text of a value in range (RFC 9651 section 4.1) is printable ASCII.
pub fn strict_texts_are_printable()
    ensures bare { HasPrintableTexts is_bare_in_range bare_text }
    ensures item { HasPrintableTexts is_item_in_range item_text }
    ensures inner { HasPrintableTexts is_inner_in_range inner_text }
    ensures list { HasPrintableTexts is_list_in_range list_text }
    ensures dict { HasPrintableTexts is_dict_in_range dict_text }
{}

/// Bare items and parameters are equal exactly where their tests pass, and keys are compared
/// whichever comes first.
pub fn equality_is_tested()
    ensures bare { IsEquality is_equal_bare }
    ensures param { IsEquality is_equal_param }
    ensures keys { IsSymmetric bytes_eq }
{}

/// A value takes the place of the one with the same key, so that keys stay distinct (RFC 9651
/// sections 3.1.2 and 3.2).
pub fn keys_stay_distinct<V>()
    ensures first { HasOwnKeyFirst V }
    ensures distinct { PutsDistinctly V }
    ensures each { PutsWithTest V }
    ensures new { PutsNewLast V }
    ensures value { PutsValue V }
{}
