//! The options of the commands.

ghost use Rattle.std.specs.Prelude.{◌≡◌, ◌<◌, ◌^◌, ◌∷◌, ℕ, List, length, None, Some, map, is_some, if◌then◌else◌, IfSome, IfNone, IsTrue, string_bytes};
ghost use Rattle.std.specs.Str.{bytes_eq};
ghost use Rattle.std.specs.Str.Parse.{digits_value};
ghost use Rattle.std.specs.List.{list_all};
ghost use Rattle.byte_grammar.specs.Classes.{is_digit};
ghost use Rattle.sfv_text.specs.declared.pair.Pair.{Pair};
ghost use Rattle.command_options.specs.Numbers.{is_number};
ghost use Rattle.command_options.specs.Options.{is_moment, is_nonce, is_taken_by, option_of, row_of, AreOptions};
ghost use Rattle.command_options.specs.Found.{excluding_in, word_in, AddsOption, AreFoundBefore, IsNextOption, HasOptions};

use nonces::MAX_NONCE_BYTES;
use sfv_text::{are_string_bytes, is_key};

/// The most digits of a moment.
pub const MAX_MOMENT_DIGITS: usize = 15;

/// The commands that have a name.
#[derive(Clone, Copy)]
pub enum CommandName {
    /// `base`.
    Base,
    /// `verify`.
    Verify,
    /// `sign`.
    Sign,
    /// `rewrite`.
    Rewrite,
    /// `explain`.
    Explain,
    /// `audit`.
    Audit,
    /// `gateway`.
    Gateway,
    /// `lists`.
    Lists,
    /// `negotiate`.
    Negotiate,
    /// `sample`, which has no options.
    Sample,
}

/// The options.
#[derive(Clone, Copy)]
pub enum CommandOption {
    /// `--conf`: the file of the configuration.
    Conf,
    /// `--now`: the moment.
    Now,
    /// `--label`: the label that is asked for.
    Label,
    /// `--request`: the file of the request that the input answers.
    Request,
    /// `--nonce`: the nonce of the signature.
    Nonce,
    /// `--wanted`: the file of the message that asks for signatures.
    Wanted,
    /// `--script`: the file of the script.
    Script,
    /// `--other`: the file of the other record of the message.
    Other,
    /// `--into`: what the input is turned into.
    Into,
}

/// The words that options have. They are borrowed.
#[derive(Clone, Copy)]
pub struct OptionWords<'a> {
    /// The word after `--conf`.
    pub conf: Option<&'a str>,
    /// The word after `--now`.
    pub now: Option<&'a str>,
    /// The word after `--label`.
    pub label: Option<&'a str>,
    /// The word after `--request`.
    pub request: Option<&'a str>,
    /// The word after `--nonce`.
    pub nonce: Option<&'a str>,
    /// The word after `--wanted`.
    pub wanted: Option<&'a str>,
    /// The word after `--script`.
    pub script: Option<&'a str>,
    /// The word after `--other`.
    pub other: Option<&'a str>,
    /// The word after `--into`.
    pub into: Option<&'a str>,
}

fn are_digits(bytes: &[u8]) -> bool
    ensures { result ≡ list_all is_digit bytes.now }
{
    bytes.iter().all(|byte| byte.is_ascii_digit())
}

/// Whether the word is a number, in 1 to so many digits.
pub fn is_number(most: usize, word: &[u8]) -> bool
    ensures { result ≡ is_number most word.now }
{
    !word.is_empty() && word.len() <= most && are_digits(word)
}

/// Whether the word is a moment: seconds since the epoch, in 1 to 15 digits.
fn is_moment(word: &[u8]) -> bool
    ensures { result ≡ is_moment word.now }
{
    is_number(MAX_MOMENT_DIGITS, word)
}

/// Whether the word is a nonce: 1 to 256 bytes of a String.
fn is_nonce(word: &[u8]) -> bool
    ensures { result ≡ is_nonce word.now }
{
    !word.is_empty() && word.len() <= MAX_NONCE_BYTES && are_string_bytes(word)
}

/// The number that a word of 1 to 15 digits writes.
pub fn number_of(word: &str) -> u64
    requires { IsTrue (is_moment word.now) }
    ensures value { result ≡ digits_value 10 word.now }
    ensures timely { result < 10 ^ MAX_MOMENT_DIGITS }
{
    let bytes = word.as_bytes();
    let mut number = 0;
    for byte in bytes {
        number = number * 10 + u64::from(*byte - b'0');
    }
    number
}

/// All options.
const OPTIONS: &[CommandOption] = &[
    CommandOption::Conf,
    CommandOption::Now,
    CommandOption::Label,
    CommandOption::Request,
    CommandOption::Nonce,
    CommandOption::Wanted,
    CommandOption::Script,
    CommandOption::Other,
    CommandOption::Into,
];

impl CommandOption {
    /// The option of that name.
    pub fn of_word(word: &str) -> Option<CommandOption>
        ensures { result ≡ option_of word.now }
    {
        for option in OPTIONS {
            if word == option.word() {
                return Some(*option);
            }
        }
        None
    }

    /// Its name.
    pub fn word(self) -> &'static str
        ensures { result.now ≡ (row_of self).word }
    {
        match self {
            CommandOption::Conf => "--conf",
            CommandOption::Now => "--now",
            CommandOption::Label => "--label",
            CommandOption::Request => "--request",
            CommandOption::Nonce => "--nonce",
            CommandOption::Wanted => "--wanted",
            CommandOption::Script => "--script",
            CommandOption::Other => "--other",
            CommandOption::Into => "--into",
        }
    }

    /// Whether the command takes the option.
    pub fn is_taken_by(self, command: CommandName) -> bool
        ensures { result ≡ is_taken_by command self }
    {
        match self {
            CommandOption::Conf => !matches!(command, CommandName::Sample),
            CommandOption::Now => matches!(
                command,
                CommandName::Verify | CommandName::Sign | CommandName::Negotiate
            ),
            CommandOption::Label => matches!(
                command,
                CommandName::Verify | CommandName::Rewrite | CommandName::Explain
            ),
            CommandOption::Request => !matches!(
                command,
                CommandName::Audit | CommandName::Gateway | CommandName::Lists | CommandName::Sample
            ),
            CommandOption::Nonce => matches!(command, CommandName::Sign),
            CommandOption::Wanted => matches!(command, CommandName::Sign),
            CommandOption::Script => matches!(command, CommandName::Rewrite),
            CommandOption::Other => matches!(command, CommandName::Explain),
            CommandOption::Into => matches!(command, CommandName::Lists),
        }
    }

    /// Whether the option may have the word.
    pub fn may_have(self, word: &str) -> bool
        ensures { result ≡ (row_of self).may_have word.now }
    {
        match self {
            CommandOption::Now => is_moment(word.as_bytes()),
            CommandOption::Label => is_key(word.as_bytes()),
            CommandOption::Nonce => is_nonce(word.as_bytes()),
            CommandOption::Into => word == "message" || word == "fields",
            CommandOption::Conf
            | CommandOption::Request
            | CommandOption::Wanted
            | CommandOption::Script
            | CommandOption::Other => !word.is_empty(),
        }
    }
}

impl<'a> OptionWords<'a> {
    /// No option has a word.
    pub fn new() -> OptionWords<'a>
        ensures { (option : CommandOption) → word_in result option ≡ None }
    {
        OptionWords {
            conf: None,
            now: None,
            label: None,
            request: None,
            nonce: None,
            wanted: None,
            script: None,
            other: None,
            into: None,
        }
    }

    /// Whether the option has a word.
    pub fn has(self, option: CommandOption) -> bool
        ensures { result ≡ is_some (word_in self.entry option) }
    {
        let word = match option {
            CommandOption::Conf => self.conf,
            CommandOption::Now => self.now,
            CommandOption::Label => self.label,
            CommandOption::Request => self.request,
            CommandOption::Nonce => self.nonce,
            CommandOption::Wanted => self.wanted,
            CommandOption::Script => self.script,
            CommandOption::Other => self.other,
            CommandOption::Into => self.into,
        };
        word.is_some()
    }

    /// The option with a word beside which this one can't come: a nonce, and a message that asks
    /// for signatures.
    pub fn excluding(self, option: CommandOption) -> Option<CommandOption>
        ensures { result ≡ excluding_in self.entry option }
    {
        match option {
            CommandOption::Nonce if self.wanted.is_some() => Some(CommandOption::Wanted),
            CommandOption::Wanted if self.nonce.is_some() => Some(CommandOption::Nonce),
            _ => None,
        }
    }

    /// With the word of an option.
    pub fn with(self, option: CommandOption, word: &'a str) -> OptionWords<'a>
        ensures { (other : CommandOption) → word_in result other ≡
            (if bytes_eq (row_of option).word (row_of other).word then Some word.now
            else word_in self.entry other) }
    {
        let mut found = self;
        match option {
            CommandOption::Conf => found.conf = Some(word),
            CommandOption::Now => found.now = Some(word),
            CommandOption::Label => found.label = Some(word),
            CommandOption::Request => found.request = Some(word),
            CommandOption::Nonce => found.nonce = Some(word),
            CommandOption::Wanted => found.wanted = Some(word),
            CommandOption::Script => found.script = Some(word),
            CommandOption::Other => found.other = Some(word),
            CommandOption::Into => found.into = Some(word),
        }
        found
    }
}

/// The option of that name, where it can come next: the command takes it, it has no word yet, and
/// it may have this one.
fn next_option(
    command: CommandName,
    found: OptionWords<'_>,
    name: &str,
    word: &str,
) -> Option<CommandOption>
    ensures some { IfSome result (IsNextOption command found.entry name.now word.now) }
    ensures none { IfNone result ((option : CommandOption)
        → ¬ IsNextOption command found.entry name.now word.now option) }
{
    let option = CommandOption::of_word(name)?;
    if found.has(option) || !option.is_taken_by(command) || !option.may_have(word) {
        return None;
    }
    Some(option)
}

/// Adds the word of the option of that name, where it can come next.
fn add_option<'a>(
    command: CommandName,
    found: OptionWords<'a>,
    name: &str,
    word: &'a str,
) -> Option<OptionWords<'a>>
    ensures some { IfSome result (AddsOption command found.entry name.now word.now) }
    ensures none { IfNone result ((option : CommandOption)
        → ¬ IsNextOption command found.entry name.now word.now option) }
{
    match next_option(command, found, name, word) {
        Some(option) => Some(found.with(option, word)),
        None => None,
    }
}

/// An option, its word, and the words after them.
fn next_pair(words: &[String]) -> Option<(&str, &str, &[String])>
    ensures some { IfSome result (λ pair. map string_bytes words.now
        ≡ pair.0.now ∷ pair.1.now ∷ map string_bytes pair.2.now) }
    ensures none { IfNone result (length words.now < 2) }
{
    match words {
        [option, word, after @ ..] => Some((option.as_str(), word.as_str(), after)),
        _ => None,
    }
}

/// Reads the words after options that were found.
fn read_more<'a>(
    command: CommandName,
    found: OptionWords<'a>,
    words: &'a [String],
) -> Option<OptionWords<'a>>
    ensures some { IfSome result (λ more. (all : List (List ℕ))
        → AreFoundBefore command found.entry all (map string_bytes words.now)
        → HasOptions command all more) }
    ensures none { IfNone result ((all : List (List ℕ)) (options : List (Pair (List ℕ)))
        → AreFoundBefore command found.entry all (map string_bytes words.now)
        → ¬ AreOptions command all options) }
{
    let Some((name, word, after)) = next_pair(words) else {
        return if words.is_empty() { Some(found) } else { None };
    };
    match add_option(command, found, name, word) {
        Some(more) => read_more(command, more, after),
        None => None,
    }
}

/// The words of the options, where the words are options of the command, each given at most once.
pub fn read_options<'a>(command: CommandName, words: &'a [String]) -> Option<OptionWords<'a>>
    ensures some { IfSome result (HasOptions command (map string_bytes words.now)) }
    ensures none { IfNone result ((options : List (Pair (List ℕ)))
        → ¬ AreOptions command (map string_bytes words.now) options) }
{
    read_more(command, OptionWords::new(), words)
}
