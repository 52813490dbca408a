//! The messages and the scripts of a chain.

ghost use Rattle.std.specs.Prelude.{◌≡◌, ◌≤◌, length, option_map};
ghost use Rattle.msg_body.specs.Views.{message_of};
ghost use Rattle.msg_body.specs.declared.limits.TheConstants.{MAX_MESSAGE_BYTES};
ghost use Rattle.hop_audit.specs.ChainValues.{reading_of};
ghost use Rattle.hop_audit.specs.tools.Read.{SaysMessage, SaysScript, script_fault};

use crate::fault::ChainFault;
use framing::is_head_request;
use msg_body::{Expect, MessageError, MessageFault, MessageView, Reading, whole_message};
use recording::Role;
use rewrite_script::{MAX_SCRIPT_BYTES, Script, ScriptFault, read_script};
use std::alloc::Global;

pub(crate) fn reading_of(related: Option<&MessageView<'_>>, role: Role) -> Reading
    ensures { result ≡ reading_of (option_map (λ request. message_of request.now) related.entry)
        role }
{
    match role {
        Role::Request | Role::Related => Reading::of_request(),
        Role::Response => Reading {
            expect: Expect::Response,
            to_head: match related {
                Some(request) => is_head_request(request.start()),
                None => false,
            },
        },
    }
}

pub(crate) fn item_message<'r>(
    alloc: Global,
    item: usize,
    reading: Reading,
    text: &'r [u8],
) -> Result<MessageView<'r>, ChainFault>
    requires { length text.now ≤ MAX_MESSAGE_BYTES }
    ensures { SaysMessage item reading text.now result }
{
    match whole_message(alloc, reading, text) {
        Ok(view) => Ok(view),
        Err(MessageFault::Refused(MessageError::Memory)) => Err(ChainFault::Memory),
        Err(fault) => Err(ChainFault::Message(item, fault)),
    }
}

fn script_fault(item: usize, fault: ScriptFault) -> ChainFault
    ensures { result ≡ script_fault item fault }
{
    match fault {
        ScriptFault::Memory => ChainFault::Memory,
        ScriptFault::TooMany | ScriptFault::BadLine(_) => ChainFault::Script(item, fault),
    }
}

pub(crate) fn item_script(alloc: Global, item: usize, text: &[u8]) -> Result<Script, ChainFault>
    ensures { SaysScript item text.now result }
{
    if text.len() > MAX_SCRIPT_BYTES {
        return Err(ChainFault::ScriptTooLong(item));
    }
    match read_script(alloc, text) {
        Ok(script) => Ok(script),
        Err(fault) => Err(script_fault(item, fault)),
    }
}
