//! Laws of identifiers, and of Inner Lists that are read as signature parameters. Each function
//! does nothing; its contract is the law.

ghost use Rattle.component_ids.specs.Laws.{SamenessIsTested, HasAnswer, HasOneSigParams, HasOneFault, HasNotBoth};

/// The test of sameness decides whether identifiers are the same.
pub fn sameness_is_tested()
    ensures { SamenessIsTested }
{}

/// An Inner List is signature parameters for one value, or has one fault, and not both.
pub fn a_list_has_one_answer()
    ensures answer { HasAnswer }
    ensures value { HasOneSigParams }
    ensures fault { HasOneFault }
    ensures either { HasNotBoth }
{}
