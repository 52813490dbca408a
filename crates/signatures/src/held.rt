//! The context of a signature, whose message is owned or borrowed.

use component_ids::{Scheme, Types};
use component_values::Context;
use msg_body::MessageView;

/// A message, owned or borrowed.
#[derive(Drop)]
pub(crate) enum HeldMessage<'a, 'm> {
    Owned(MessageView<'m>),
    Borrowed(&'a MessageView<'m>),
}

impl<'a, 'm> HeldMessage<'a, 'm> {
    ghost use Rattle.std.specs.Prelude.{◌≡◌};
    ghost use Rattle.signatures.specs.tools.Held.{held_message};

    /// The message.
    pub(crate) fn view(&self) -> &MessageView<'m>
        ensures { result.now ≡ held_message self.now }
    {
        match self {
            HeldMessage::Owned(message) => message,
            HeldMessage::Borrowed(message) => *message,
        }
    }
}

/// What the values of components are drawn from, the message owned or borrowed.
#[derive(Drop)]
pub(crate) struct HeldContext<'a, 'm> {
    pub(crate) message: HeldMessage<'a, 'm>,
    pub(crate) related: Option<&'a MessageView<'m>>,
    pub(crate) scheme: Scheme,
    pub(crate) types: &'a Types,
}

impl<'a, 'm> HeldContext<'a, 'm> {
    ghost use Rattle.std.specs.Prelude.{◌≡◌};
    ghost use Rattle.component_values.specs.Context.{context_of};
    ghost use Rattle.signatures.specs.tools.Held.{held_context};

    /// The context, whose message is borrowed.
    pub(crate) fn of(context: Context<'a, 'm>) -> HeldContext<'a, 'm>
        ensures { held_context result ≡ context_of context.entry }
    {
        HeldContext {
            message: HeldMessage::Borrowed(context.message),
            related: context.related,
            scheme: context.scheme,
            types: context.types,
        }
    }

    /// The context, borrowed.
    pub(crate) fn context(&self) -> Context<'_, 'm>
        ensures { context_of result ≡ held_context self.now }
    {
        Context {
            message: self.message.view(),
            related: self.related,
            scheme: self.scheme,
            types: self.types,
        }
    }
}
