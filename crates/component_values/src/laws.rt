//! Laws of components and their values. Each function does nothing; its contract is the law.

ghost use Rattle.component_values.specs.Laws.{HasOrLacks, HasOneValueOnly, LacksInOneWay, LacksNoValue, HasCleanValues, DependsOnItsLines, DependsOnKind, DependsOnOwnLines, DependsOnItsRow, HasNoBlankEnds, DependsOnItsReading, HasFormOfReading, HaveOrLack, HaveOneList, HaveOneFirstLack, HaveNoLack, HaveSameList, HaveSameFirstLack};

/// A component has one value, or lacks one in one way, and not both. A value that is drawn from
/// messages that bytes spell is ASCII, and has no NUL, CR or LF.
pub fn components_have_one_answer()
    ensures some { HasOrLacks }
    ensures value { HasOneValueOnly }
    ensures lack { LacksInOneWay }
    ensures either { LacksNoValue }
    ensures clean { HasCleanValues }
{}

/// What a component comes to depends on the start line, on the values of `Host`, and on its field:
/// on the value of each line where it has the parameter `bs`, and else on the combined value alone.
pub fn components_depend_on_their_lines()
    ensures { DependsOnItsLines }
{}

/// What a component of the related request comes to depends on the kind of the message alone, what
/// a field of the message comes to on the lines of its name, and what a derived component comes to
/// on its row.
pub fn components_depend_on_what_they_are_drawn_from()
    ensures related { DependsOnKind }
    ensures field { DependsOnOwnLines }
    ensures derived { DependsOnItsRow }
{}

/// A strict text has no blank at either end. Where a field gets it for its combined value, the
/// components of the field that have `sf` or `key` come to the same as before.
pub fn strict_texts_come_to_the_same()
    ensures ends { HasNoBlankEnds }
    ensures reading { DependsOnItsReading }
    ensures form { HasFormOfReading }
{}

/// The components of a signature have one list of values, or one of them is the first that lacks
/// one, in one way, and not both.
pub fn signatures_have_one_answer()
    ensures some { HaveOrLack }
    ensures values { HaveOneList }
    ensures lack { HaveOneFirstLack }
    ensures either { HaveNoLack }
{}

/// Components that come to the same have the same list of values, or the same first one of them
/// lacks one.
pub fn signatures_depend_on_their_components()
    ensures values { HaveSameList }
    ensures lack { HaveSameFirstLack }
{}
