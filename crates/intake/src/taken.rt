//! What is read for a command over a message, before the command is done.

use component_values::Context;
use conf::Conf;
use msg_body::MessageView;
use rewrite_script::Rewrite;

/// The names of the files that a command was given.
#[derive(Clone, Copy)]
pub struct FileWords<'a> {
    /// The file of the configuration.
    pub conf: Option<&'a str>,
    /// The file of the request that the input answers.
    pub request: Option<&'a str>,
    /// The file of the message that asks for signatures (RFC 9421 section 5.1).
    pub wanted: Option<&'a str>,
    /// The file of the script.
    pub script: Option<&'a str>,
    /// The file of the other record of the message.
    pub other: Option<&'a str>,
}

/// What was read of the files, the other record of the message aside.
#[derive(Clone, Copy)]
pub struct FilesRead<'x> {
    /// The configuration, or that of the empty text.
    pub conf: &'x Conf,
    /// The request that the input answers.
    pub related: Option<&'x MessageView<'x>>,
    /// The message that asks for signatures.
    pub wishes: Option<&'x MessageView<'x>>,
    /// The steps of the script, or none.
    pub script: &'x [Rewrite],
}

/// What was read for a command, in the order in which it is read.
#[derive(Clone, Copy)]
pub struct Taken<'x> {
    /// The configuration, or that of the empty text.
    pub conf: &'x Conf,
    /// The message that asks for signatures.
    pub wishes: Option<&'x MessageView<'x>>,
    /// The steps of the script, or none.
    pub script: &'x [Rewrite],
    /// The other record of the message, which answers the same request as the input.
    pub other: Option<&'x MessageView<'x>>,
    /// The input, the request that it answers, and what the configuration says of both.
    pub context: &'x Context<'x, 'x>,
}
