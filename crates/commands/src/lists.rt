//! The command `lists`: the message of a recorded list of fields, and the list of a message (RFC
//! 9113 section 8.3, RFC 9114 section 4.3).

ghost use Rattle.std.specs.Prelude.{◌≤◌, length};
ghost use Rattle.component_values.specs.Context.{context_of};
ghost use Rattle.conf.specs.ConfMeaning.{meaning};
ghost use Rattle.refusals.specs.declared.refusal.TheConstants.{MAX_INPUT_BYTES};
ghost use Rattle.commands.specs.Lists.{ReportsIntoFields, ReportsIntoMessage};
ghost use Rattle.commands.specs.Outcome.{IfOutcome, ReadsNothing};

use crate::outcome::Outcome;
use component_values::Context;
use conf::Conf;
use field_lists::{from_message, to_message};
use intake::Stop;
use list_texts::{print_fields, read_fields};
use std::alloc::Global;

/// The message that the list of these bytes is turned into, by the scheme of the configuration.
pub fn message_outcome(alloc: Global, conf: &Conf, input: &[u8]) -> Result<Outcome, Stop>
    requires { length input.now ≤ MAX_INPUT_BYTES }
    ensures report { IfOutcome result (ReportsIntoMessage (meaning conf.now) input.now) }
    ensures reads_nothing { ReadsNothing result }
{
    let list = read_fields(alloc, input)?;
    let message = to_message(alloc, &list, conf.scheme());
    drop(list);
    Ok(Outcome::Done(message?))
}

/// The list of fields that the context's message is turned into.
pub fn list_outcome(alloc: Global, context: &Context<'_, '_>) -> Result<Outcome, Stop>
    ensures report { IfOutcome result (ReportsIntoFields (context_of context.now)) }
    ensures reads_nothing { ReadsNothing result }
{
    let list = from_message(alloc, context)?;
    let text = print_fields(alloc, &list);
    drop(list);
    Ok(Outcome::Done(text?))
}
