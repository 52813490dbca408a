//! What the values of components are drawn from under a configuration.

ghost use Rattle.std.specs.Prelude.{◌≡◌, option_map};
ghost use Rattle.msg_body.specs.Views.{message_of};
ghost use Rattle.component_values.specs.Context.{context_of};
ghost use Rattle.settings.specs.ConfMeaning.{meaning};
ghost use Rattle.signatures.specs.Contexts.{context_for};

use component_values::Context;
use msg_body::MessageView;
use settings::Conf;

/// The context of a message, of the request that it answers, where that is known, and of what the
/// configuration says.
pub fn context_for<'a, 'm>(
    conf: &'a Conf,
    message: &'a MessageView<'m>,
    related: Option<&'a MessageView<'m>>,
) -> Context<'a, 'm>
    ensures { context_of result ≡ context_for (meaning conf.now) (message_of message.now)
        (option_map (λ request. message_of request.now) related.entry) }
{
    Context {
        message,
        related,
        scheme: conf.scheme(),
        types: conf.types(),
    }
}
