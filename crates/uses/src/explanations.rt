// Tests of normal_forms.

ghost use Rattle.std.specs.Prelude.{List, ℕ, false};
ghost use Rattle.msg_body.specs.Messages.{IsMessage};
ghost use Rattle.msg_body.specs.Views.{message_of};
ghost use Rattle.component_values.specs.Context.{HasWholeMessage, context_of};
ghost use Rattle.signatures.specs.Signatures.{HasSignature};

use crate::given::{is_text, message};
use component_ids::{Scheme, SigParams, Types};
use component_values::Context;
use msg_body::MessageView;
use normal_forms::{Explained, explain, normal_form};
use rewrite_script::print_script;
use signatures::read_label;
use std::alloc::Global;

const SENT: &[u8] = b"GET / HTTP/1.1\r\n\
Host: h\r\n\
A:  x\r\n\
Signature-Input: s=(\"a\")\r\n\
Signature: s=:AA==:\r\n\r\n";

const STEPS: &[u8] = b"case h 0 host\n\
pad h 0 - -\n\
case h 1 a\n\
pad h 1 - -\n\
case h 2 signature-input\n\
pad h 2 - -\n\
case h 3 signature\n\
pad h 3 - -\n";

const NORMAL: &[u8] = b"GET / HTTP/1.1\r\n\
host:h\r\n\
a:x\r\n\
signature-input:s=(\"a\")\r\n\
signature:s=:AA==:\r\n\r\n";

// A record with all that isn't normal. The second line of `b` in the trailer section is.
const MIXED: &[u8] = b"POST / HTTP/1.1\r\n\
Host: h\r\n\
A: 1\r\n\
B: x\r\n y\r\n\
a:\r\n\
C: 2\r\n\
A: 3\r\n\
Transfer-Encoding: chunked\r\n\
Signature-Input: s=(\"a\" \"b\" \"b\";tr)\r\n\
Signature: s=:AA==:\r\n\r\n\
3\r\nabc\r\n05;c\r\ndefgh\r\n0\r\n\
B: 1\r\n\
C: 2\r\n\
b:2\r\n\r\n";

const MIXED_STEPS: &[u8] = b"remove h 4\n\
case h 0 host\n\
pad h 0 - -\n\
case h 1 a\n\
pad h 1 - -\n\
case h 2 b\n\
unfold h 2 2\n\
pad h 2 - -\n\
case h 4 a\n\
pad h 4 - -\n\
case h 5 transfer-encoding\n\
pad h 5 - -\n\
case h 6 signature-input\n\
pad h 6 - -\n\
case h 7 signature\n\
pad h 7 - -\n\
join h 3 4\n\
pad h 3 - -\n\
join h 1 3\n\
pad h 1 - -\n\
remove t 1\n\
case t 0 b\n\
pad t 0 - -\n\
join t 0 1\n\
pad t 0 - -\n\
rechunk 8\n";

const MIXED_NORMAL: &[u8] = b"POST / HTTP/1.1\r\n\
host:h\r\n\
a:1, , 3\r\n\
b:x y\r\n\
transfer-encoding:chunked\r\n\
signature-input:s=(\"a\" \"b\" \"b\";tr)\r\n\
signature:s=:AA==:\r\n\r\n\
8\r\nabcdefgh\r\n0\r\n\
b:1, 2\r\n\r\n";

// A record, the steps that make it normal for the label `s`, and the normal message, which takes
// none.
struct Form {
    message: &'static [u8],
    steps: &'static [u8],
    normal: &'static [u8],
}

const FORMS: [Form; 3] = [
    Form {
        message: SENT,
        steps: STEPS,
        normal: NORMAL,
    },
    Form {
        message: NORMAL,
        steps: b"",
        normal: NORMAL,
    },
    Form {
        message: MIXED,
        steps: MIXED_STEPS,
        normal: MIXED_NORMAL,
    },
];

// Whether the message of the context has the row's normal form for the label.
fn is_normal(
    alloc: Global,
    context: &Context<'_, '_>,
    label: &[u8],
    params: &SigParams,
    row: &Form,
) -> bool
    requires whole { HasWholeMessage (context_of context.now) }
    requires signature { (tag : List ℕ)
        × HasSignature (context_of context.now).message label.now params.now tag }
{
    match normal_form(alloc, context, label, params) {
        Ok(normal) => {
            normal.message.bytes() == row.normal
                && is_text(print_script(alloc, normal.steps.as_slice()), row.steps)
        }
        Err(_) => false,
    }
}

fn has_form(alloc: Global, context: &Context<'_, '_>, row: &Form) -> bool
    requires { HasWholeMessage (context_of context.now) }
{
    let label = b"s";
    match read_label(alloc, context.message, label) {
        Ok(read) => is_normal(alloc, context, label, &read.params, row),
        Err(_) => false,
    }
}

fn are_steps(alloc: Global, explained: &Explained, row: &Form) -> bool {
    match explained {
        Explained::Same { first, second } => {
            is_text(print_script(alloc, first.as_slice()), row.steps) && second.is_empty()
        }
        Explained::Differs { .. } => false,
    }
}

// Whether the record and the normal message are the same for the label, after the row's steps.
fn are_explained(
    alloc: Global,
    recorded: &MessageView<'_>,
    normal: &MessageView<'_>,
    types: &Types,
    row: &Form,
) -> bool
    requires recorded { IsMessage false (message_of recorded.now) }
    requires normal { IsMessage false (message_of normal.now) }
{
    let first = Context::of_message(recorded, Scheme::Http, types);
    let second = Context::of_message(normal, Scheme::Http, types);
    match explain(alloc, &first, &second, b"s") {
        Ok(explained) => are_steps(alloc, &explained, row),
        Err(_) => false,
    }
}

fn is_form_by(
    alloc: Global,
    recorded: &MessageView<'_>,
    normal: &MessageView<'_>,
    types: &Types,
    row: &Form,
) -> bool
    requires recorded { IsMessage false (message_of recorded.now) }
    requires normal { IsMessage false (message_of normal.now) }
{
    let context = Context::of_message(recorded, Scheme::Http, types);
    has_form(alloc, &context, row) && are_explained(alloc, recorded, normal, types, row)
}

fn is_form_beside(
    alloc: Global,
    recorded: &MessageView<'_>,
    normal: &MessageView<'_>,
    row: &Form,
) -> bool
    requires recorded { IsMessage false (message_of recorded.now) }
    requires normal { IsMessage false (message_of normal.now) }
{
    match Types::standard(alloc) {
        Ok(types) => is_form_by(alloc, recorded, normal, &types, row),
        Err(_) => false,
    }
}

fn is_form_of(alloc: Global, recorded: &MessageView<'_>, row: &Form) -> bool
    requires { IsMessage false (message_of recorded.now) }
{
    match message(alloc, row.normal) {
        Some(given) => is_form_beside(alloc, recorded, &given.view, row),
        None => false,
    }
}

fn is_form(alloc: Global, row: &Form) -> bool {
    match message(alloc, row.message) {
        Some(given) => is_form_of(alloc, &given.view, row),
        None => false,
    }
}

#[test]
fn messages_have_normal_forms_and_are_explained_by_them(rt: HostRuntime) {
    for (index, row) in FORMS.iter().enumerate() {
        assert!(rt; is_form(rt.alloc(), row), "row {index}");
    }
}
