//! The items of a stream, as they come to a gateway.

ghost use Rattle.std.specs.Prelude.{◌≡◌, ◌≤◌, ◌<◌, None, Some, IfOk, IsSome, OnOk, length};
ghost use Rattle.msg_body.specs.declared.limits.TheConstants.{MAX_MESSAGE_BYTES};
ghost use Rattle.recording.specs.Items.{placed};
ghost use Rattle.recording.specs.declared.limits.TheConstants.{MAX_ITEMS};
ghost use Rattle.settings.specs.ConfMeaning.{meaning};
ghost use Rattle.settings.specs.declared.gateway_conf.GatewayConf.{GatewayConf};
ghost use Rattle.gateway.specs.Arrivals.{IsSized, arrival_of};
ghost use Rattle.gateway.specs.tools.HeldStreams.{AnswersInRange, CanMeet, SaysAdded, SaysFinished, SaysFree, SaysItemMet, answered, answered_by, stream_held};

use crate::arrival::Arrival;
use crate::fault::StreamFault;
use crate::gateway::Gateway;
use crate::gateway_record::GatewayRecord;
use nonces::Steps;
use recording::{Item, ItemBody, Role};
use settings::Conf;
use sfv_text::{Memory, Text};
use std::alloc::Global;
use std::marker::Model;
use std::sync::ledger::Ledger;

/// A request that the next message is to answer.
#[derive(Drop)]
struct RelatedRequest {
    /// The offset of its line.
    offset: u64,
    text: Text,
}

/// A gateway, and what the items so far say of the next message.
#[derive(Drop)]
pub(crate) struct Stream<'c> {
    gateway: Gateway<'c>,
    /// The last moment.
    moment: u64,
    related: Option<RelatedRequest>,
}

impl<'c> Model for Stream<'c> {
    ghost use Rattle.std.specs.Coded.{codes};
    ghost use Rattle.component_ids.specs.tools.Kinds.{kinds_code};
    ghost use Rattle.settings.specs.tools.KeyEntries.{keys_code};
    ghost use Rattle.gateway.specs.tools.HeldStreams.{HeldStream, IsStreamHeld, related_held};

    ghost Value = { HeldStream };

    ghost coded = { Prim.hlevel (codes, kinds_code, keys_code) };

    ghost view = { λ s. record {
      conf = s.gateway.conf;
      moment = s.moment;
      related = related_held s.related;
      seen = s.gateway.seen;
      count = s.gateway.count;
    } };

    ghost invariant = { λ s. IsStreamHeld s.gateway.seen s.moment (related_held s.related) };
}

/// What is to be a response to this request.
fn response_to<'t>(text: &'t [u8], request: &'t [u8]) -> Arrival<'t>
    ensures { arrival_of result ≡ answered_by text.now request.now }
{
    let related = Some(request);
    Arrival::Response { text, related }
}

impl<'c> Stream<'c> {
    /// A stream of which no item came.
    pub(crate) fn open(alloc: Global, conf: &'c Conf) -> Result<Stream<'c>, Memory>
        requires sign { IsSome (meaning conf.now).sign }
        requires gateway { IsSome (meaning conf.now).gateway }
        ensures { IfOk result (λ stream. stream ≡ stream_held (meaning conf.now)) }
    {
        Ok(Stream {
            gateway: Gateway::open(alloc, conf, 0)?,
            moment: 0,
            related: None,
        })
    }

    /// The record of a message that comes now.
    fn step<L: Ledger>(
        &mut self,
        alloc: Global,
        arrival: Arrival<'_>,
        steps: &mut Steps<L>,
    ) -> Result<Option<GatewayRecord>, StreamFault>
        requires sized { IsSized (arrival_of arrival) }
        requires few { self.old.count < MAX_ITEMS }
        requires alone { self.old.related ≡ None }
        ensures added { (settings : GatewayConf) → self.old.conf.gateway ≡ Some settings
            → SaysAdded settings self.old self.new (arrival_of arrival.entry) result }
        ensures in_range { AnswersInRange result }
    {
        let answer = self.gateway.step(alloc, self.moment, arrival, steps)?;
        Ok(Some(answer))
    }

    /// The record of a response that comes now, to the request before it, where that is there.
    fn answer<L: Ledger>(
        &mut self,
        alloc: Global,
        text: &[u8],
        steps: &mut Steps<L>,
    ) -> Result<Option<GatewayRecord>, StreamFault>
        requires short { length text.now ≤ MAX_MESSAGE_BYTES }
        requires few { self.old.count < MAX_ITEMS }
        ensures added { (settings : GatewayConf) → self.old.conf.gateway ≡ Some settings
            → SaysAdded settings self.old self.new (answered self.old.related text.now) result }
        ensures in_range { AnswersInRange result }
    {
        match self.related.take() {
            None => {
                let related = None;
                self.step(alloc, Arrival::Response { text, related }, steps)
            }
            Some(request) => self.step(alloc, response_to(text, request.text.bytes()), steps),
        }
    }

    /// Nothing but a response comes after a related request.
    fn check_free(&self, offset: u64) -> Result<(), StreamFault>
        ensures { SaysFree self.now offset result }
    {
        match &self.related {
            Some(_) => Err(StreamFault::OutOfPlace(offset)),
            None => Ok(()),
        }
    }

    /// Keeps the request that the next item has to answer.
    fn keep_related(&mut self, alloc: Global, offset: u64, text: &[u8]) -> Result<(), Memory>
        requires { length text.now ≤ MAX_MESSAGE_BYTES }
        ensures { OnOk result (self.new ≡ record self.old {
          related = Some (record { offset = offset; text = text.now });
        }) }
    {
        let text = Text::from_bytes(alloc, text)?;
        self.related = Some(RelatedRequest { offset, text });
        Ok(())
    }

    /// Goes on by an item, and answers the record of a message.
    pub(crate) fn meet<L: Ledger>(
        &mut self,
        alloc: Global,
        item: Item<'_>,
        steps: &mut Steps<L>,
    ) -> Result<Option<GatewayRecord>, StreamFault>
        requires { CanMeet self.old (placed item) }
        ensures met { (settings : GatewayConf) → self.old.conf.gateway ≡ Some settings
            → SaysItemMet settings self.old self.new (placed item.entry) result }
        ensures in_range { AnswersInRange result }
    {
        match item.body {
            ItemBody::At(moment) => {
                self.check_free(item.offset)?;
                self.moment = moment;
                Ok(None)
            }
            ItemBody::Message(Role::Request, text) => {
                self.check_free(item.offset)?;
                self.step(alloc, Arrival::Request(text), steps)
            }
            ItemBody::Message(Role::Response, text) => self.answer(alloc, text, steps),
            ItemBody::Message(Role::Related, text) => {
                self.check_free(item.offset)?;
                self.keep_related(alloc, item.offset, text)?;
                Ok(None)
            }
            ItemBody::Script(_) => Err(StreamFault::OutOfPlace(item.offset)),
        }
    }

    /// After a related request a stream doesn't end.
    pub(crate) fn finish(&self) -> Result<(), StreamFault>
        ensures { SaysFinished self.now result }
    {
        match &self.related {
            Some(request) => Err(StreamFault::OutOfPlace(request.offset)),
            None => Ok(()),
        }
    }
}
