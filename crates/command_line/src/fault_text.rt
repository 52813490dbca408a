//! The words that say what is wrong with words. A person reads them, and no script.

use crate::fault::{WordsFault, WordsReason};
use std::fmt;

impl WordsReason {
    /// Says what is wrong with the word, or missing after the last one.
    fn write<W: fmt::Write>(self, word: &str, f: &mut fmt::Formatter<W>) -> fmt::Result {
        match self {
            WordsReason::NoWords => f.write_str("there is no command"),
            WordsReason::NoCommand => write!(
                f,
                "{word:?} is no command: first comes base, verify, sign, rewrite, explain, audit, \
                 gateway, lists, negotiate or sample"
            ),
            WordsReason::LeftOver => write!(f, "{word:?} is a word too many"),
            WordsReason::NotTaken(command) => {
                let usage = command.usage();
                write!(f, "{command} takes no {word:?} here, but {usage}")
            }
            WordsReason::Twice(command, option) => {
                let option = option.word();
                write!(f, "{command} takes {option} once")
            }
            WordsReason::Excluded(option, given) => {
                let (option, given) = (option.word(), given.word());
                write!(f, "{option} doesn't go with {given}")
            }
            WordsReason::NoWord(option) => {
                let (name, after) = (option.word(), option.word_after());
                write!(f, "after {name} comes {after}")
            }
            WordsReason::BadWord(option) => {
                let (name, after) = (option.word(), option.word_after());
                write!(f, "after {name} comes {after}, and not {word:?}")
            }
            WordsReason::Missing(command, option) => {
                let (name, after) = (option.word(), option.word_after());
                write!(f, "{command} needs {name}, and after it {after}")
            }
            WordsReason::NoParams => f.write_str(
                "base needs PARAMS, the covered components, as '(\"@method\" \"date\")' in \
                 one word",
            ),
            WordsReason::NoSeed => f.write_str("sample needs SEED, a number of 1 to 9 digits"),
            WordsReason::BadSeed => {
                write!(f, "SEED is a number of 1 to 9 digits, and not {word:?}")
            }
            WordsReason::NoCount => f.write_str("sample needs COUNT, a number from 0 to 64"),
            WordsReason::BadCount => write!(f, "COUNT is a number from 0 to 64, and not {word:?}"),
        }
    }
}

impl fmt::Display for WordsFault<'_> {
    fn fmt<W: fmt::Write>(&self, f: &mut fmt::Formatter<W>) -> fmt::Result {
        let word = match self.from.first() {
            Some(word) => word.as_str(),
            None => "",
        };
        self.reason.write(word, f)?;
        match self.command {
            Some(command) => write!(f, "; see hms {command} --help"),
            None => f.write_str("; see hms --help"),
        }
    }
}
