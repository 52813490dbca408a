//! Laws of texts that are read as configurations. Each function does nothing; its contract is the
//! law.

ghost use Rattle.conf.specs.Laws.{HasConfAnswer, HasOneMeaning, HasOneConfFault, HasNoFaultWhereRead, IsValidWhereRead, IsStandardOfEmpty};

/// A text is one configuration, or has one fault, and not both.
pub fn a_text_is_one_configuration()
    ensures answer { HasConfAnswer }
    ensures meaning { HasOneMeaning }
    ensures fault { HasOneConfFault }
    ensures either { HasNoFaultWhereRead }
{}

/// The empty text is the configuration where nothing is said.
pub fn the_empty_text_is_a_configuration()
    ensures { IsStandardOfEmpty }
{}

/// A text that is read as a configuration is a valid one: what is signed is signed by a key that it
/// says, and so on.
pub fn a_configuration_is_valid()
    ensures { IsValidWhereRead }
{}
