//! What the values of components are drawn from.

use component_ids::{Scheme, Types};
use framing::is_head_request;
use msg_body::MessageView;

/// What the values of components are drawn from (RFC 9421 section 1.1: the context of a signature).
#[derive(Clone, Copy)]
pub struct Context<'a, 'm> {
    /// The message that is signed.
    pub message: &'a MessageView<'m>,
    /// The request that a response answers, from which components with `req` are drawn (RFC 9421
    /// section 2.4).
    pub related: Option<&'a MessageView<'m>>,
    /// The scheme of a request whose target doesn't name one (RFC 9421 section 2.2.4).
    pub scheme: Scheme,
    /// Which fields are structured, and how (RFC 9421 section 2.1.1).
    pub types: &'a Types,
}

impl<'a, 'm> Context<'a, 'm> {
    ghost use Rattle.std.specs.Prelude.{◌≡◌, None};
    ghost use Rattle.msg_body.specs.Views.{message_of};
    ghost use Rattle.component_values.specs.Context.{answers_head, context_of};

    /// The context of a message without a related request.
    pub fn of_message(
        message: &'a MessageView<'m>,
        scheme: Scheme,
        types: &'a Types,
    ) -> Context<'a, 'm>
        ensures { context_of result ≡ record {
          message = message_of message.now;
          related = None;
          scheme = scheme;
          types = types.now;
        } }
    {
        let related = None;
        Context {
            message,
            related,
            scheme,
            types,
        }
    }

    /// Whether the message answers a HEAD request, so that it has no content (RFC 9112 section
    /// 6.3).
    pub fn answers_head(&self) -> bool
        ensures { result ≡ answers_head (context_of self.now).related }
    {
        match self.related {
            Some(request) => is_head_request(request.start()),
            None => false,
        }
    }
}
