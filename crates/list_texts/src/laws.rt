//! Laws of the texts of lists of fields. Each function does nothing; its contract is the law.

ghost use Rattle.list_texts.specs.Laws.{HasListOrFault, OneList, OneText, OneFieldsFault, NoFaultOfList, FormFaultIsAfter};

/// A text is a list's or has a fault, not both; it is that of one list, which has one text, or has
/// one fault.
pub fn a_text_is_a_list_or_has_a_fault()
    ensures some { HasListOrFault }
    ensures list { OneList }
    ensures text { OneText }
    ensures fault { OneFieldsFault }
    ensures either { NoFaultOfList }
{}

/// The order in which the causes of faults are judged is that from the left.
pub fn the_first_fault_is_that_from_the_left()
    ensures { FormFaultIsAfter }
{}
