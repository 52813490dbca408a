//! Laws of the texts that are read. Each function does nothing; its contract is the law.

ghost use Rattle.sfv_text.specs.Range.{is_item_in_range, is_inner_in_range, is_list_in_range, is_dict_in_range};
ghost use Rattle.sfv_text.specs.Strict.{item_text, inner_text, list_text, dict_text};
ghost use Rattle.sfv_read.specs.Laws.{HasOneValue, HasOneAnswer, HasValueOrNone, HasFault, ReadsOnly, ReadsBack, HasDistinctTexts, ReadsFurtherMember, ReadsFurtherText, HasNoBlankEnds, ReadsAsSameDict};
ghost use Rattle.sfv_read.specs.Reads.{ReadsItem, ReadsInner, ReadsList, ReadsDict};

/// A text reads as at most one value of a kind.
pub fn a_text_has_one_value()
    ensures item { HasOneValue ReadsItem }
    ensures inner { HasOneValue ReadsInner }
    ensures list { HasOneValue ReadsList }
    ensures dict { HasOneValue ReadsDict }
{}

/// Out of memory aside, a text has at most one fault of a kind, and none where it has a value.
pub fn a_text_has_one_answer()
    ensures item { HasOneAnswer ReadsItem }
    ensures inner { HasOneAnswer ReadsInner }
    ensures list { HasOneAnswer ReadsList }
    ensures dict { HasOneAnswer ReadsDict }
{}

/// A text is read as some value of a kind, or as none.
pub fn a_text_is_read_or_not()
    ensures item { HasValueOrNone ReadsItem }
    ensures inner { HasValueOrNone ReadsInner }
    ensures list { HasValueOrNone ReadsList }
    ensures dict { HasValueOrNone ReadsDict }
{}

/// A text that has no value of a kind has an offset of its first fault, and a fault that isn't out
/// of memory.
pub fn a_text_not_read_has_a_fault()
    ensures item { HasFault ReadsItem }
    ensures inner { HasFault ReadsInner }
    ensures list { HasFault ReadsList }
    ensures dict { HasFault ReadsDict }
{}

/// What is read is in range: numbers are of at most 15 digits, keys are distinct, and so on.
pub fn values_read_are_in_range()
    ensures item { ReadsOnly ReadsItem is_item_in_range }
    ensures inner { ReadsOnly ReadsInner is_inner_in_range }
    ensures list { ReadsOnly ReadsList is_list_in_range }
    ensures dict { ReadsOnly ReadsDict is_dict_in_range }
{}

/// The strict text of a value in range (RFC 9651 section 4.1) reads as that value.
pub fn strict_texts_read_back()
    ensures item { ReadsBack ReadsItem is_item_in_range item_text }
    ensures inner { ReadsBack ReadsInner is_inner_in_range inner_text }
    ensures list { ReadsBack ReadsList is_list_in_range list_text }
    ensures dict { ReadsBack ReadsDict is_dict_in_range dict_text }
{}

/// Two values in range are equal exactly where their strict texts are.
pub fn strict_texts_are_distinct()
    ensures item { HasDistinctTexts is_item_in_range item_text }
    ensures inner { HasDistinctTexts is_inner_in_range inner_text }
    ensures list { HasDistinctTexts is_list_in_range list_text }
    ensures dict { HasDistinctTexts is_dict_in_range dict_text }
{}

/// A member whose text comes after a Dictionary and a comma is put at its key. Its strict text has
/// no blank at either end.
pub fn a_dictionary_takes_a_further_member()
    ensures further { ReadsFurtherMember }
    ensures text { ReadsFurtherText }
    ensures ends { HasNoBlankEnds }
{}

/// The strict text of an Item or a List reads as the Dictionary that its own text reads as.
pub fn strict_texts_read_as_the_same_dictionary()
    ensures { ReadsAsSameDict }
{}
