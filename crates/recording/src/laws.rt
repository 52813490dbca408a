//! Laws of recordings. Each function does nothing; its contract is the law.

ghost use Rattle.recording.specs.Laws.{HasRecordingOrFault, OneRecording, OneRecordingFault, NoFaultOfRecording, FaultIsAfter, OneOfBoth, RestIsOthers, OthersMayCome, FaultOfRest};
ghost use Rattle.recording.specs.Causes.{IsLongLine, IsFallingLine};

/// A text is a recording or has a fault, not both, and is one recording, or has one fault.
pub fn a_text_is_a_recording_or_has_a_fault()
    ensures some { HasRecordingOrFault }
    ensures recording { OneRecording }
    ensures fault { OneRecordingFault }
    ensures either { NoFaultOfRecording }
{}

/// The order in which the causes of faults are judged is that from the left: a line that is too
/// long or falls ends before a fault of the form, and no text has one of each.
pub fn the_first_fault_is_that_from_the_left()
    ensures long { FaultIsAfter IsLongLine }
    ensures falling { FaultIsAfter IsFallingLine }
    ensures one { OneOfBoth }
{}

/// What comes after the first items may be read by itself: its items are the others of the
/// recording, and its fault, if it has one, is that of the whole.
pub fn the_rest_is_read_by_itself()
    ensures others { RestIsOthers }
    ensures come { OthersMayCome }
    ensures fault { FaultOfRest }
{}
