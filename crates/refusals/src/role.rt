//! The texts that a run reads, by what they are to it.

use std::fmt;

/// What a text is to the run that reads it.
#[derive(Clone, Copy, PartialEq, Eq)]
pub enum Role {
    /// The configuration.
    Conf,
    /// The request that a response answers (RFC 9421 section 2.4).
    Request,
    /// The message that says which signatures are wanted (RFC 9421 section 5).
    Wanted,
    /// The script of changes to a message.
    Script,
    /// The other record of the message that is the input.
    Other,
    /// The input.
    Input,
    /// The item of the input at this index.
    Item(usize),
}

/// How output calls it.
impl fmt::Display for Role {
    ghost use Rattle.std.specs.Prelude.{Some};
    ghost use Rattle.refusals.specs.Texts.{role_text};

    ghost output = { λ role. Some (role_text role) };

    fn fmt<W: fmt::Write>(&self, f: &mut fmt::Formatter<W>) -> fmt::Result {
        match self {
            Role::Conf => f.write_str("conf"),
            Role::Request => f.write_str("request"),
            Role::Wanted => f.write_str("wanted"),
            Role::Script => f.write_str("script"),
            Role::Other => f.write_str("other"),
            Role::Input => f.write_str("input"),
            Role::Item(index) => write!(f, "item {index}"),
        }
    }
}
