//! Laws of what is read. Each function does nothing; its contract is the law.

ghost use Rattle.intake.specs.Laws.{IsConfigurationDecided, AreTablesDecided, IsRequestDecided, IsWantedDecided, IsRecordDecided, IsScriptDecided, IsInputDecided, HasConfiguration, HaveTables, HasRequest, HasWanted, HasRecord, HasScript, HasMessage, IsValidWhereConfigured, IsWritableWhereScripted, HaveValuesWhereScripted, IsOfBytesWhereBelow};

/// What is read of a file, or of the input, is at most one value, or there is at most one cause to
/// refuse it, and not both. So where each is judged after the one before it, there is at most one
/// outcome.
pub fn what_is_read_is_decided()
    ensures configuration { IsConfigurationDecided }
    ensures tables { AreTablesDecided }
    ensures request { IsRequestDecided }
    ensures wanted { IsWantedDecided }
    ensures other { IsRecordDecided }
    ensures script { IsScriptDecided }
    ensures input { IsInputDecided }
{}

/// What is read of a file, or of the input, is some value, or there is some cause to refuse it.
pub fn what_is_read_has_an_answer()
    ensures configuration { HasConfiguration }
    ensures tables { HaveTables }
    ensures request { HasRequest }
    ensures wanted { HasWanted }
    ensures other { HasRecord }
    ensures script { HasScript }
    ensures input { HasMessage }
{}

/// A configuration that is read is a valid one, lines can write a script that is read, and the
/// words of its steps have values.
pub fn what_is_read_has_its_form()
    ensures valid { IsValidWhereConfigured }
    ensures writable { IsWritableWhereScripted }
    ensures values { HaveValuesWhereScripted }
{}

/// A text is of bytes where each entry of it is below 256.
pub fn a_text_is_of_bytes()
    ensures { IsOfBytesWhereBelow }
{}
