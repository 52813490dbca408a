//! The chain that the items of a recording are.

ghost use Rattle.recording.specs.Recordings.{BeginWithMoment, bodies};
ghost use Rattle.hop_audit.specs.tools.Recorded.{SaysOrder};

use crate::fault::ChainFault;
use recording::{OrderFault, RecordedChain, Recording, recorded_chain};
use std::alloc::Global;

/// The chain that the items are, or that they aren't in its order, or that it has too many hops.
pub(crate) fn chain_of<'r>(
    alloc: Global,
    recording: &Recording<'r>,
) -> Result<RecordedChain<'r>, ChainFault>
    requires begins { BeginWithMoment (bodies recording.now) }
    ensures { SaysOrder recording.now result }
{
    match recorded_chain(alloc, recording) {
        Ok(chain) => Ok(chain),
        Err(OrderFault::Memory) => Err(ChainFault::Memory),
        Err(OrderFault::Order(offset)) => Err(ChainFault::Order(offset)),
        Err(OrderFault::TooManyHops) => Err(ChainFault::TooManyHops),
    }
}
