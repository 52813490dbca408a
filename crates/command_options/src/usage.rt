//! What comes after the name of a command or of an option. A person reads it, and no script.

use crate::options::{CommandName, CommandOption};

impl CommandName {
    /// What comes after its name, in the words of a line of help.
    pub fn usage(self) -> &'static str {
        match self {
            CommandName::Base => "PARAMS [--conf FILE] [--request REQ] < MESSAGE",
            CommandName::Verify => {
                "--conf FILE --now SECONDS [--label LABEL] [--request REQ] < MESSAGE"
            }
            CommandName::Sign => {
                "--conf FILE --now SECONDS [--nonce NONCE | --wanted WISHES] [--request REQ] \
                 < MESSAGE"
            }
            CommandName::Rewrite => {
                "--script SCRIPT [--label LABEL] [--conf FILE] [--request REQ] < MESSAGE"
            }
            CommandName::Explain => {
                "--label LABEL --other OTHER [--conf FILE] [--request REQ] < MESSAGE"
            }
            CommandName::Audit | CommandName::Gateway => "--conf FILE < RECORDING",
            CommandName::Lists => "--into message|fields [--conf FILE] < LIST",
            CommandName::Negotiate => "--conf FILE --now SECONDS --request REQ < RESPONSE",
            CommandName::Sample => "SEED COUNT",
        }
    }
}

impl CommandOption {
    /// What its word is, said to whoever has to write it.
    pub fn word_after(self) -> &'static str {
        match self {
            CommandOption::Conf => "the name of a file, the configuration",
            CommandOption::Now => {
                "the moment, seconds since 1970-01-01 00:00 UTC in 1 to 15 digits, as `date \
                 +%s` writes"
            }
            CommandOption::Label => {
                "a label, lower-case letters, digits and `_-.*`, with a letter or `*` first"
            }
            CommandOption::Request => "the name of a file, the request that the input answers",
            CommandOption::Nonce => "1 to 256 characters of ASCII, none of them a control",
            CommandOption::Wanted => "the name of a file, a message with Accept-Signature",
            CommandOption::Script => "the name of a file, the steps to take",
            CommandOption::Other => "the name of a file, the other record of the message",
            CommandOption::Into => "`message` or `fields`, what the input is turned into",
        }
    }
}
