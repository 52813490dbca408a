//! Why words are no command, said to whoever wrote them.

ghost use Rattle.std.specs.Prelude.{◌≡◌, ◌++◌, ◌∷◌, ℕ, List, None, [], codes, not, is_some, map, false, IfErr, IfNone, IfOk, IfSome, string_bytes};
ghost use Rattle.std.specs.List.{find};
ghost use Rattle.std.specs.Str.{bytes_eq};
ghost use Rattle.command_line.specs.Command.{CommandLine, IsCommand, NoCommand};
ghost use Rattle.command_line.specs.Faults.{IsStart, IsWordsFault};
ghost use Rattle.command_options.specs.Names.{command_word, first_command};
ghost use Rattle.command_options.specs.Numbers.{IsSeed};
ghost use Rattle.command_options.specs.Found.{word_in};
ghost use Rattle.command_line.specs.tools.Wrong.{is_text_name, needed, AreCommand, AreFound, BeginsNoHelp, HasFault, IsNameReason, IsNextName, IsNextOrEnd};

use crate::command::{first_of, read_words};
use command_options::{CommandName, CommandOption, OptionWords, count_of, seed_of};

/// What is wrong with a word, or missing after the last one.
#[derive(Clone, Copy)]
pub enum WordsReason {
    /// There are no words.
    NoWords,
    /// The word is the name of no command.
    NoCommand,
    /// Nothing comes after a command that is whole.
    LeftOver,
    /// The command takes no option of that name.
    NotTaken(CommandName),
    /// The command takes the option once.
    Twice(CommandName, CommandOption),
    /// The first option doesn't go with the second one.
    Excluded(CommandOption, CommandOption),
    /// The option has no word.
    NoWord(CommandOption),
    /// The option can't have that word.
    BadWord(CommandOption),
    /// The command needs the option.
    Missing(CommandName, CommandOption),
    /// `base` needs PARAMS.
    NoParams,
    /// `sample` needs SEED.
    NoSeed,
    /// SEED can't be that word.
    BadSeed,
    /// `sample` needs COUNT.
    NoCount,
    /// COUNT can't be that word.
    BadCount,
}

/// What is wrong with words that are no command.
#[derive(Clone, Copy)]
pub struct WordsFault<'a> {
    /// The command of the first word.
    pub command: Option<CommandName>,
    /// What is wrong.
    pub reason: WordsReason,
    /// The words from the first one on with which they are no more the beginning of a command; none
    /// where further ones are missing.
    pub from: &'a [String],
}

/// The option of that name, where it can come next, or why it can't.
fn next_name(
    command: CommandName,
    found: OptionWords<'_>,
    name: &str,
) -> Result<CommandOption, WordsReason>
    ensures ok { IfOk result (IsNextName command found.entry name.now) }
    ensures err { IfErr result (IsNameReason command found.entry name.now) }
{
    let Some(option) = CommandOption::of_word(name) else {
        return Err(WordsReason::NotTaken(command));
    };
    if !option.is_taken_by(command) {
        return Err(WordsReason::NotTaken(command));
    }
    if found.has(option) {
        return Err(WordsReason::Twice(command, option));
    }
    match found.excluding(option) {
        Some(given) => Err(WordsReason::Excluded(option, given)),
        None => Ok(option),
    }
}

/// An option that can come next, its word, and the words after it.
#[derive(Clone, Copy)]
pub struct NextWords<'a> {
    pub option: CommandOption,
    pub word: &'a str,
    pub after: &'a [String],
}

/// The option that the words begin with, none where there are no words, or the fault of the first
/// two.
fn next_words<'a>(
    command: CommandName,
    found: OptionWords<'a>,
    words: &'a [String],
) -> Result<Option<NextWords<'a>>, WordsFault<'a>>
    ensures ok { IfOk result (IsNextOrEnd command found.entry (map string_bytes words.now)) }
    ensures err { IfErr result (λ fault. (start all : List (List ℕ)) → IsStart command start
        → AreFound command found.entry all (map string_bytes words.now)
        → BeginsNoHelp command all → HasFault (start ++ all) fault) }
{
    let Some((name, others)) = first_of(words) else {
        return Ok(None);
    };
    let option = match next_name(command, found, name) {
        Ok(option) => option,
        Err(reason) => return Err(WordsFault {
            command: Some(command),
            reason,
            from: words,
        }),
    };
    let Some((word, after)) = first_of(others) else {
        let reason = WordsReason::NoWord(option);
        return Err(WordsFault {
            command: Some(command),
            reason,
            from: others,
        });
    };
    if !option.may_have(word) {
        let reason = WordsReason::BadWord(option);
        return Err(WordsFault {
            command: Some(command),
            reason,
            from: others,
        });
    }
    Ok(Some(NextWords {
        option,
        word,
        after,
    }))
}

/// The options of the command, those that were found and those that the words are, or the first
/// fault of these.
fn options_or_fault<'a>(
    command: CommandName,
    found: OptionWords<'a>,
    words: &'a [String],
) -> Result<OptionWords<'a>, WordsFault<'a>>
    ensures ok { IfOk result (λ more. (all : List (List ℕ))
        → AreFound command found.entry all (map string_bytes words.now)
        → AreFound command more all []) }
    ensures err { IfErr result (λ fault. (start all : List (List ℕ)) → IsStart command start
        → AreFound command found.entry all (map string_bytes words.now)
        → BeginsNoHelp command all → HasFault (start ++ all) fault) }
{
    match next_words(command, found, words) {
        Err(fault) => Err(fault),
        Ok(None) => Ok(found),
        Ok(Some(next)) => {
            options_or_fault(command, found.with(next.option, next.word), next.after)
        }
    }
}

/// The options that the command needs.
fn needed(command: CommandName) -> &'static [CommandOption]
    ensures { result.now ≡ needed command }
{
    match command {
        CommandName::Base | CommandName::Sample => &[],
        CommandName::Verify | CommandName::Sign => &[CommandOption::Conf, CommandOption::Now],
        CommandName::Rewrite => &[CommandOption::Script],
        CommandName::Explain => &[CommandOption::Label, CommandOption::Other],
        CommandName::Audit | CommandName::Gateway => &[CommandOption::Conf],
        CommandName::Lists => &[CommandOption::Into],
        CommandName::Negotiate => {
            &[
                CommandOption::Conf,
                CommandOption::Now,
                CommandOption::Request,
            ]
        }
    }
}

/// The first option that the command needs and that has no word.
fn lacking(command: CommandName, found: OptionWords<'_>) -> Option<CommandOption>
    ensures { result ≡
        find (λ option. not (is_some (word_in found.entry option))) (needed command) }
{
    needed(command)
        .iter()
        .copied()
        .find(|option| !found.has(*option))
}

/// The fault of the words after those before the options of a command.
fn command_fault<'a>(command: CommandName, words: &'a [String]) -> Option<WordsFault<'a>>
    ensures none { IfNone result ((start : List (List ℕ)) → IsStart command start
        → AreCommand (start ++ map string_bytes words.now)) }
    ensures some { IfSome result (λ fault. (start : List (List ℕ)) → IsStart command start
        → BeginsNoHelp command (map string_bytes words.now)
        → HasFault (start ++ map string_bytes words.now) fault) }
{
    let found = match options_or_fault(command, OptionWords::new(), words) {
        Ok(found) => found,
        Err(fault) => return Some(fault),
    };
    let option = lacking(command, found)?;
    Some(WordsFault {
        command: Some(command),
        reason: WordsReason::Missing(command, option),
        from: &[],
    })
}

/// The fault of the words after `base`.
fn base_fault(words: &[String]) -> Option<WordsFault<'_>>
    ensures none { IfNone result (AreCommand (codes "base" ∷ map string_bytes words.now)) }
    ensures some { IfSome result (HasFault (codes "base" ∷ map string_bytes words.now)) }
{
    let command = Some(CommandName::Base);
    match first_of(words) {
        None => Some(WordsFault {
            command,
            reason: WordsReason::NoParams,
            from: words,
        }),
        Some((_, others)) => command_fault(CommandName::Base, others),
    }
}

/// The fault of the words after `sample` and its seed.
fn count_fault(words: &[String]) -> Option<WordsFault<'_>>
    ensures none { IfNone result ((seed : List ℕ) (n : ℕ) → IsSeed seed n
        → AreCommand (codes "sample" ∷ seed ∷ map string_bytes words.now)) }
    ensures some { IfSome result (λ fault. (seed : List ℕ) (n : ℕ) → IsSeed seed n
        → HasFault (codes "sample" ∷ seed ∷ map string_bytes words.now) fault) }
{
    let command = Some(CommandName::Sample);
    let Some((count, after)) = first_of(words) else {
        return Some(WordsFault {
            command,
            reason: WordsReason::NoCount,
            from: words,
        });
    };
    let Some(_) = count_of(count) else {
        return Some(WordsFault {
            command,
            reason: WordsReason::BadCount,
            from: words,
        });
    };
    first_of(after)?;
    Some(WordsFault {
        command,
        reason: WordsReason::LeftOver,
        from: after,
    })
}

/// The fault of the words after `sample`.
fn sample_fault(words: &[String]) -> Option<WordsFault<'_>>
    ensures none { IfNone result (AreCommand (codes "sample" ∷ map string_bytes words.now)) }
    ensures some { IfSome result (λ fault.
        BeginsNoHelp CommandName.Sample (map string_bytes words.now)
        → HasFault (codes "sample" ∷ map string_bytes words.now) fault) }
{
    let command = Some(CommandName::Sample);
    let Some((seed, others)) = first_of(words) else {
        return Some(WordsFault {
            command,
            reason: WordsReason::NoSeed,
            from: words,
        });
    };
    let Some(_) = seed_of(seed) else {
        return Some(WordsFault {
            command,
            reason: WordsReason::BadSeed,
            from: words,
        });
    };
    count_fault(others)
}

/// The words after `--help`, where that is the first one.
fn after_help(words: &[String]) -> Option<&[String]>
    ensures some { IfSome result (λ after. map string_bytes words.now
        ≡ codes "--help" ∷ map string_bytes after.now) }
    ensures none { IfNone result ((word : List ℕ) (after : List (List ℕ))
        → map string_bytes words.now ≡ word ∷ after → bytes_eq word (codes "--help") ≡ false) }
{
    let (word, after) = first_of(words)?;
    if word == "--help" {
        return Some(after);
    }
    None
}

/// The fault of the words after the name of a command and `--help`.
fn help_fault<'a>(command: CommandName, words: &'a [String]) -> Option<WordsFault<'a>>
    requires { ¬ (command ≡ CommandName.Base) }
    ensures none { IfNone result
        (AreCommand (command_word command ∷ codes "--help" ∷ map string_bytes words.now)) }
    ensures some { IfSome result
        (HasFault (command_word command ∷ codes "--help" ∷ map string_bytes words.now)) }
{
    first_of(words)?;
    Some(WordsFault {
        command: Some(command),
        reason: WordsReason::LeftOver,
        from: words,
    })
}

/// The fault of the words after the name of a command other than `base`, where they don't begin
/// with `--help`.
fn unhelped_fault<'a>(command: CommandName, words: &'a [String]) -> Option<WordsFault<'a>>
    requires other { ¬ (command ≡ CommandName.Base) }
    requires plain { (word : List ℕ) (after : List (List ℕ))
        → map string_bytes words.now ≡ word ∷ after → bytes_eq word (codes "--help") ≡ false }
    ensures none { IfNone result
        (AreCommand (command_word command ∷ map string_bytes words.now)) }
    ensures some { IfSome result
        (HasFault (command_word command ∷ map string_bytes words.now)) }
{
    match command {
        CommandName::Sample => sample_fault(words),
        _ => command_fault(command, words),
    }
}

/// The fault of the words after the name of a command other than `base`.
fn plain_fault<'a>(command: CommandName, words: &'a [String]) -> Option<WordsFault<'a>>
    requires { ¬ (command ≡ CommandName.Base) }
    ensures none { IfNone result
        (AreCommand (command_word command ∷ map string_bytes words.now)) }
    ensures some { IfSome result
        (HasFault (command_word command ∷ map string_bytes words.now)) }
{
    match after_help(words) {
        Some(after) => help_fault(command, after),
        None => unhelped_fault(command, words),
    }
}

/// The fault of the words after the name of a command.
fn named_fault<'a>(command: CommandName, words: &'a [String]) -> Option<WordsFault<'a>>
    ensures none { IfNone result
        (AreCommand (command_word command ∷ map string_bytes words.now)) }
    ensures some { IfSome result
        (HasFault (command_word command ∷ map string_bytes words.now)) }
{
    match command {
        CommandName::Base => base_fault(words),
        _ => plain_fault(command, words),
    }
}

/// The fault of the words after `help`.
fn topic_fault(words: &[String]) -> Option<WordsFault<'_>>
    ensures none { IfNone result (AreCommand (codes "help" ∷ map string_bytes words.now)) }
    ensures some { IfSome result (HasFault (codes "help" ∷ map string_bytes words.now)) }
{
    let Some((name, others)) = first_of(words) else {
        return None;
    };
    let Some(_) = CommandName::of_word(name) else {
        return Some(WordsFault {
            command: None,
            reason: WordsReason::NoCommand,
            from: words,
        });
    };
    first_of(others)?;
    Some(WordsFault {
        command: None,
        reason: WordsReason::LeftOver,
        from: others,
    })
}

/// Whether the word is one after which nothing comes.
fn is_text_name(word: &str) -> bool
    ensures { result ≡ is_text_name word.now }
{
    word == "--help" || word == "--version"
}

/// The fault of words, the first of which is the name of no command.
fn other_fault(words: &[String]) -> Option<WordsFault<'_>>
    requires { first_command (map string_bytes words.now) ≡ None }
    ensures none { IfNone result (AreCommand (map string_bytes words.now)) }
    ensures some { IfSome result (HasFault (map string_bytes words.now)) }
{
    let Some((name, others)) = first_of(words) else {
        return Some(WordsFault {
            command: None,
            reason: WordsReason::NoWords,
            from: words,
        });
    };
    if name == "help" {
        return topic_fault(others);
    }
    if !is_text_name(name) {
        return Some(WordsFault {
            command: None,
            reason: WordsReason::NoCommand,
            from: words,
        });
    }
    first_of(others)?;
    Some(WordsFault {
        command: None,
        reason: WordsReason::LeftOver,
        from: others,
    })
}

/// The fault of words, where they are no command.
fn fault_of(words: &[String]) -> Option<WordsFault<'_>>
    ensures none { IfNone result (AreCommand (map string_bytes words.now)) }
    ensures some { IfSome result (HasFault (map string_bytes words.now)) }
{
    let Some((name, others)) = first_of(words) else {
        return other_fault(words);
    };
    match CommandName::of_word(name) {
        Some(command) => named_fault(command, others),
        None => other_fault(words),
    }
}

/// What is wrong with the words, where they are no command. It takes no memory.
pub fn words_fault(words: &[String]) -> Option<WordsFault<'_>>
    ensures none { IfNone result
        ((command : CommandLine) × IsCommand (map string_bytes words.now) command) }
    ensures no_command { IfSome result (λ fault. NoCommand (map string_bytes words.now)) }
    ensures fault { IfSome result (λ fault. IsWordsFault (map string_bytes words.now)
        fault.command fault.reason (map string_bytes fault.from.now)) }
{
    match read_words(words) {
        Some(_) => None,
        None => fault_of(words),
    }
}
