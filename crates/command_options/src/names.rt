//! The names of the commands.

ghost use Rattle.std.specs.Prelude.{◌≡◌};
ghost use Rattle.command_options.specs.Names.{command_of, command_word};

use crate::options::CommandName;
use std::fmt;

/// All commands.
const COMMANDS: &[CommandName] = &[
    CommandName::Base,
    CommandName::Verify,
    CommandName::Sign,
    CommandName::Rewrite,
    CommandName::Explain,
    CommandName::Audit,
    CommandName::Gateway,
    CommandName::Lists,
    CommandName::Negotiate,
    CommandName::Sample,
];

impl CommandName {
    /// The command of that name.
    pub fn of_word(word: &str) -> Option<CommandName>
        ensures { result ≡ command_of word.now }
    {
        for command in COMMANDS {
            if word == command.word() {
                return Some(*command);
            }
        }
        None
    }

    /// Its name.
    pub fn word(self) -> &'static str
        ensures { result.now ≡ command_word self }
    {
        match self {
            CommandName::Base => "base",
            CommandName::Verify => "verify",
            CommandName::Sign => "sign",
            CommandName::Rewrite => "rewrite",
            CommandName::Explain => "explain",
            CommandName::Audit => "audit",
            CommandName::Gateway => "gateway",
            CommandName::Lists => "lists",
            CommandName::Negotiate => "negotiate",
            CommandName::Sample => "sample",
        }
    }
}

impl fmt::Display for CommandName {
    ghost use Rattle.std.specs.Prelude.{Some};
    ghost use Rattle.command_options.specs.Names.{command_word};

    ghost output = { λ command. Some (command_word command) };

    fn fmt<W: fmt::Write>(&self, f: &mut fmt::Formatter<W>) -> fmt::Result {
        f.write_str(self.word())
    }
}
