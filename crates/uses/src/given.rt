// What tests are given: a configuration and messages, each dropped by one call, so that what owns
// it is proved sooner; and whether a text that is answered is as it has to be.

ghost use Rattle.std.specs.Prelude.{IfSome, false};
ghost use Rattle.framing.specs.Framings.{is_head_request};
ghost use Rattle.msg_body.specs.Messages.{IsMessage};
ghost use Rattle.msg_body.specs.Views.{message_of};

use conf::{Conf, read_conf};
use intake::{Reading, message_of_role};
use msg_body::{MessageView, whole_message};
use refusals::Role;
use sfv_text::{Memory, Text};
use std::alloc::Global;

// A configuration that is given.
pub(crate) struct GivenConf {
    pub(crate) conf: Conf,
}

impl Drop for GivenConf {
    fn drop(self) {
        let GivenConf { conf: _ } = self;
    }
}

// The configuration of the text; None where it is none.
pub(crate) fn conf_of(alloc: Global, text: &[u8]) -> Option<GivenConf> {
    match read_conf(alloc, text) {
        Ok(conf) => Some(GivenConf { conf }),
        Err(_) => None,
    }
}

// A message that is given.
pub(crate) struct Given<'m> {
    pub(crate) view: MessageView<'m>,
}

impl<'m> Drop for Given<'m> {
    fn drop(self) {
        let Given { view: _ } = self;
    }
}

// The message that the text is; None where it is none.
pub(crate) fn message(alloc: Global, text: &[u8]) -> Option<Given<'_>>
    ensures { IfSome result (λ given. IsMessage false (message_of given.view)) }
{
    if text.len() > 1_000 {
        return None;
    }
    match whole_message(alloc, Reading::of_any(), text) {
        Ok(view) => Some(Given { view }),
        Err(_) => None,
    }
}

// The response to the request that the text is.
pub(crate) fn response<'m>(
    alloc: Global,
    request: &MessageView<'_>,
    text: &'m [u8],
) -> Option<Given<'m>>
    ensures { IfSome result (λ given.
        IsMessage (is_head_request (message_of request.now).head.start) (message_of given.view)) }
{
    if text.len() > 1_000 {
        return None;
    }
    match message_of_role(alloc, Reading::of_input(Some(request)), Role::Input, text) {
        Ok(view) => Some(Given { view }),
        Err(_) => None,
    }
}

// Whether the answer is this text.
pub(crate) fn is_text(answer: Result<Text, Memory>, bytes: &[u8]) -> bool {
    match answer {
        Ok(text) => text.bytes() == bytes,
        Err(_) => false,
    }
}

fn is_message(alloc: Global, text: &[u8]) -> bool {
    message(alloc, text).is_some()
}

// Whether the text is a response to this request.
fn is_response(alloc: Global, request: &[u8], text: &[u8]) -> bool {
    match message(alloc, request) {
        Some(given) => response(alloc, &given.view, text).is_some(),
        None => false,
    }
}

// A response to HEAD has no content, whatever its length says.
#[test]
fn texts_are_messages_or_none(rt: HostRuntime) {
    let alloc = rt.alloc();
    let answer = b"HTTP/1.1 200 OK\r\nContent-Length: 3\r\n\r\n".as_slice();
    assert!(rt; is_message(alloc, b"GET / HTTP/1.1\r\n\r\n"));
    assert!(rt; !is_message(alloc, answer));
    assert!(rt; is_response(alloc, b"HEAD / HTTP/1.1\r\n\r\n", answer));
    assert!(rt; !is_response(alloc, b"GET / HTTP/1.1\r\n\r\n", answer));
}
