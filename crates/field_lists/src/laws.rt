//! Laws of turning lists of fields into messages, and back. Each function does nothing; its
//! contract is the law.

ghost use Rattle.field_lists.specs.Laws.{HasMessageOrFault, OneMessage, OneToFault, IsWholeMessage, MessageHasTheSame, HasListOrFromFault, OneListOfMessage, OneFromFault, NoFromFaultOfList, ListHasTheSame, TurnsBack};

/// A list is turned into one message or has a fault.
pub fn a_list_is_turned_or_has_a_fault()
    ensures some { HasMessageOrFault }
    ensures one { OneMessage }
    ensures fault { OneToFault }
    ensures whole { IsWholeMessage }
{}

/// Of a list and of the message that it is turned into a component comes to the same.
pub fn a_message_has_what_its_list_has()
    ensures { MessageHasTheSame }
{}

/// A message is turned into one list or has one fault, and of both a component comes to the same.
pub fn a_list_has_what_its_message_has()
    ensures some { HasListOrFromFault }
    ensures one { OneListOfMessage }
    ensures fault { OneFromFault }
    ensures either { NoFromFaultOfList }
    ensures same { ListHasTheSame }
{}

/// The message of a list is turned back into the list.
pub fn a_list_comes_back()
    ensures { TurnsBack }
{}
