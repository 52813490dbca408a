// Tests of rewrites.

ghost use Rattle.std.specs.Prelude.{List, ℕ, IsTrue, false};
ghost use Rattle.msg_body.specs.Messages.{IsMessage};
ghost use Rattle.msg_body.specs.Views.{message_of};
ghost use Rattle.component_values.specs.Context.{HasWholeMessage, context_of};
ghost use Rattle.rewrite_script.specs.Lines.{is_writable};
ghost use Rattle.signatures.specs.Signatures.{HasSignature};

use crate::given::message;
use component_ids::{Scheme, SigParams, Types};
use component_values::Context;
use msg_body::MessageView;
use msg_head::Side;
use rewrite_script::{LineRewrite, Rewrite};
use rewrites::{apply, permits};
use sfv_text::Text;
use signatures::read_label;
use std::alloc::Global;

const MESSAGE: &[u8] = b"GET / HTTP/1.1\r\n\
Host: h\r\n\
A:  x\r\n\
Signature-Input: s=(\"a\")\r\n\
Signature: s=:AA==:\r\n\r\n";

// The message after a step, and whether the signature of the label `s` permits it.
struct Row {
    after: &'static [u8],
    is_permitted: bool,
}

const PADDED: Row = Row {
    after: b"GET / HTTP/1.1\r\n\
    Host: h\r\n\
    A:x\r\n\
    Signature-Input: s=(\"a\")\r\n\
    Signature: s=:AA==:\r\n\r\n",
    is_permitted: true,
};

const REMOVED: Row = Row {
    after: b"GET / HTTP/1.1\r\n\
    Host: h\r\n\
    Signature-Input: s=(\"a\")\r\n\
    Signature: s=:AA==:\r\n\r\n",
    is_permitted: false,
};

// `pad h 1 - -`
fn padding(alloc: Global) -> Rewrite
    ensures { IsTrue (is_writable result) }
{
    Rewrite::Lines(LineRewrite::Pad {
        side: Side::Header,
        index: 1,
        before: Text::new(alloc),
        after: Text::new(alloc),
    })
}

// `remove h 1`
fn removal() -> Rewrite
    ensures { IsTrue (is_writable result) }
{
    Rewrite::Lines(LineRewrite::Remove {
        side: Side::Header,
        index: 1,
    })
}

// Whether the step gives the row's message, and the signature permits it as the row says.
fn is_taken(
    alloc: Global,
    context: &Context<'_, '_>,
    step: &Rewrite,
    label: &[u8],
    params: &SigParams,
    row: &Row,
) -> bool
    requires writable { IsTrue (is_writable step.now) }
    requires whole { HasWholeMessage (context_of context.now) }
    requires signature { (tag : List ℕ)
        × HasSignature (context_of context.now).message label.now params.now tag }
{
    let applied = match apply(alloc, context, step) {
        Ok(text) => text.bytes() == row.after,
        Err(_) => false,
    };
    match permits(alloc, context, step, label, params) {
        Ok(permitted) => applied && permitted == row.is_permitted,
        Err(_) => false,
    }
}

fn are_taken(alloc: Global, context: &Context<'_, '_>, label: &[u8], params: &SigParams) -> bool
    requires whole { HasWholeMessage (context_of context.now) }
    requires signature { (tag : List ℕ)
        × HasSignature (context_of context.now).message label.now params.now tag }
{
    is_taken(alloc, context, &padding(alloc), label, params, &PADDED)
        && is_taken(alloc, context, &removal(), label, params, &REMOVED)
}

fn are_steps(alloc: Global, context: &Context<'_, '_>) -> bool
    requires { HasWholeMessage (context_of context.now) }
{
    let label = b"s";
    match read_label(alloc, context.message, label) {
        Ok(read) => are_taken(alloc, context, label, &read.params),
        Err(_) => false,
    }
}

fn is_rewritten(alloc: Global, message: &MessageView<'_>) -> bool
    requires { IsMessage false (message_of message.now) }
{
    match Types::standard(alloc) {
        Ok(types) => are_steps(alloc, &Context::of_message(message, Scheme::Http, &types)),
        Err(_) => false,
    }
}

fn has_steps(alloc: Global) -> bool {
    match message(alloc, MESSAGE) {
        Some(given) => is_rewritten(alloc, &given.view),
        None => false,
    }
}

#[test]
fn steps_give_messages_and_signatures_permit_them_or_not(rt: HostRuntime) {
    assert!(rt; has_steps(rt.alloc()));
}
