//! What a gateway answers for a message.

use component_ids::ComponentId;
use component_values::Lack;
use msg_body::MessageFault;
use sfv_text::Text;
use signing::SignFault;
use verdicts::Verdict;

/// What a gateway answers for a message. The index counts the messages of the stream, from 0.
#[derive(Drop)]
pub enum GatewayRecord {
    /// The label is accepted. The message is the one after the steps, with the gateway's signature.
    Pass {
        index: usize,
        label: Text,
        message: Text,
    },
    /// No label is accepted. The verdict is that on the first one that was asked for.
    Stop {
        index: usize,
        label: Text,
        verdict: Verdict,
    },
    /// A label is accepted, and the message after the steps isn't signed.
    Held {
        index: usize,
        fault: HeldFault,
    },
    /// It isn't one whole message.
    Bad {
        index: usize,
        fault: BadFault,
    },
}

/// Why an accepted message is held, in the order in which it is judged.
#[derive(Drop)]
pub enum HeldFault {
    /// It can't be signed, for another reason than that a component lacks a value.
    Sign(SignFault),
    /// The first component to be covered that has no value, and how it lacks it.
    Lacks(Lack, ComponentId),
    /// The accepted signature covers what the gateway's signature changes.
    Covered,
}

/// Why a message is bad. The request that it answers is judged first.
#[derive(Clone, Copy)]
pub enum BadFault {
    /// The request that it answers isn't one whole request.
    Related,
    /// It isn't one whole message, for this reason.
    Message(MessageFault),
}

impl GatewayRecord {
    ghost use Rattle.std.specs.Prelude.{◌≡◌};
    ghost use Rattle.gateway.specs.Records.{is_pass};

    /// Whether the message passed.
    pub fn is_pass(&self) -> bool
        ensures { result ≡ is_pass self.now }
    {
        matches!(self, GatewayRecord::Pass { .. })
    }
}
