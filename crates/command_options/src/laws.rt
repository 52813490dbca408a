//! Laws of numbers and of options. Each function does nothing; its contract is the law.

ghost use Rattle.command_options.specs.Laws.{AreNumbersBelow, AreMomentsBelow, AreOneList, BeginWithOptions, HasNameOfRow, HasNoWord, HasRightWord, MayHaveItsWord, BeginsFound, FindsOneMore, ComesNext};

/// A number is less than any number of more digits.
pub fn numbers_are_below()
    ensures numbers { AreNumbersBelow }
    ensures moments { AreMomentsBelow }
{}

/// Words are those of at most one list of options.
pub fn words_are_one_list()
    ensures one { AreOneList }
    ensures more { BeginWithOptions }
{}

/// An option has the name of its row, and a word that it may have.
pub fn options_have_their_words()
    ensures name { HasNameOfRow }
    ensures none { HasNoWord }
    ensures word { HasRightWord }
    ensures right { MayHaveItsWord }
{}

/// The options that words are can be found one after the other.
pub fn options_are_found_in_turn()
    ensures first { BeginsFound }
    ensures more { FindsOneMore }
    ensures next { ComesNext }
{}
