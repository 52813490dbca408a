//! A gateway.

ghost use Rattle.std.specs.Prelude.{◌≡◌, ◌≤◌, ◌<◌, ◌≢◌, ◌+◌, None, IfOk, IsSome, IsTrue, OnErr, MatchResult, Some, option_copied, option_map};
ghost use Rattle.msg_body.specs.Views.{message_of};
ghost use Rattle.msg_body.specs.WholeTexts.{out_of_memory};
ghost use Rattle.component_values.specs.Context.{HasWholeMessage};
ghost use Rattle.nonces.specs.declared.limits.TheConstants.{MAX_MOMENT};
ghost use Rattle.recording.specs.declared.limits.TheConstants.{MAX_ITEMS};
ghost use Rattle.settings.specs.ConfMeaning.{meaning};
ghost use Rattle.settings.specs.ValidSections.{IsValidGateway};
ghost use Rattle.settings.specs.declared.gateway_conf.GatewayConf.{GatewayConf};
ghost use Rattle.gateway.specs.Arrivals.{IsAnswered, IsSized, arrival_of, arrival_reading};
ghost use Rattle.gateway.specs.RecordTexts.{is_record_in_range};
ghost use Rattle.gateway.specs.Records.{Answers};
ghost use Rattle.gateway.specs.Seen.{IsAdvanced, nothing_seen};
ghost use Rattle.gateway.specs.declared.accepted.Judged.{Judged};
ghost use Rattle.gateway.specs.tools.Judged.{IsAnswerOf, IsOutcome, IsOutcomeOf, MayBeRemembered, SaysJudged, SaysRelated, related_read};

use crate::accepted::{AcceptedLabel, Judged, judge};
use crate::arrival::Arrival;
use crate::forward::Forwarding;
use crate::gateway_record::{BadFault, GatewayRecord};
use crate::own_signature::Forwarded;
use crate::seen::remember;
use framing::is_head_request;
use msg_body::{Expect, MessageError, MessageFault, MessageView, Reading, whole_message};
use nonces::{NonceBook, Steps};
use settings::{Conf, GatewayConf};
use sfv_text::Memory;
use signatures::Exchange;
use std::alloc::Global;
use std::marker::Model;
use std::sync::ledger::Ledger;
use verdicts::{Verifier, asked_labels, window_of};

/// A gateway (RFC 9421 sections 1.1, 3.1, 3.2 and 7.2.2): it verifies messages as they come,
/// remembers their nonces, takes the configured steps that their signatures permit, and signs.
#[derive(Drop)]
pub struct Gateway<'c> {
    conf: &'c Conf,
    book: NonceBook,
    /// How many messages came.
    count: usize,
}

impl<'c> Model for Gateway<'c> {
    ghost use Rattle.std.specs.Coded.{codes};
    ghost use Rattle.component_ids.specs.tools.Kinds.{kinds_code};
    ghost use Rattle.settings.specs.ConfMeaning.{meaning};
    ghost use Rattle.settings.specs.tools.KeyEntries.{keys_code};
    ghost use Rattle.gateway.specs.Records.{GatewayState};
    ghost use Rattle.gateway.specs.tools.Held.{IsGatewayHeld};

    ghost Value = { GatewayState };

    ghost coded = { Prim.hlevel (codes, kinds_code, keys_code) };

    ghost view = { λ g. record { conf = meaning g.conf.now; seen = g.book; count = g.count } };

    // The configuration has both tables, and the book is as its policy says.
    ghost invariant = { λ g. IsGatewayHeld (meaning g.conf.now) g.book };
}

/// How the message is read.
fn reading_of(arrival: Arrival<'_>, related: Option<&MessageView<'_>>) -> Reading
    ensures { result ≡ arrival_reading (arrival_of arrival.entry).role
        (option_map (λ request. message_of request.now) related.entry) }
{
    match arrival {
        Arrival::Request(_) => Reading::of_request(),
        Arrival::Response { .. } => Reading {
            expect: Expect::Response,
            to_head: match related {
                Some(request) => is_head_request(request.start()),
                None => false,
            },
        },
    }
}

/// Why a text is no message, where memory wasn't lacking.
fn bad_fault(fault: MessageFault) -> Result<MessageFault, Memory>
    ensures same { IfOk result (λ own. (own ≡ fault) × (own ≢ out_of_memory)) }
{
    match fault {
        MessageFault::Refused(MessageError::Memory) => Err(Memory),
        _ => Ok(fault),
    }
}

/// The request that the message answers, where one came with it, or why it is bad.
fn related_request<'t>(
    alloc: Global,
    arrival: Arrival<'t>,
) -> Result<Result<Option<MessageView<'t>>, BadFault>, Memory>
    requires { IsSized (arrival_of arrival) }
    ensures { IfOk result (λ answer. SaysRelated (arrival_of arrival.entry)
        (related_read answer)) }
{
    let Some(text) = arrival.related() else {
        return Ok(Ok(None));
    };
    match whole_message(alloc, Reading::of_request(), text) {
        Ok(request) => Ok(Ok(Some(request))),
        Err(fault) => {
            bad_fault(fault)?;
            Ok(Err(BadFault::Related))
        }
    }
}

/// What comes of a message, and the label by which it is accepted, if any.
#[derive(Drop)]
struct Outcome {
    answer: GatewayRecord,
    accepted: Option<AcceptedLabel>,
}

impl Outcome {
    /// Nothing is accepted.
    fn refused(answer: GatewayRecord) -> Outcome
        ensures { result ≡ record { answer = answer; accepted = None } }
    {
        let accepted = None;
        Outcome { answer, accepted }
    }
}

impl<'c> Gateway<'c> {
    /// A gateway to which nothing has come. Its configuration has the tables `sign` and `gateway`.
    pub fn open(alloc: Global, conf: &'c Conf, now: u64) -> Result<Gateway<'c>, Memory>
        requires sign { IsSome (meaning conf.now).sign }
        requires gateway { IsSome (meaning conf.now).gateway }
        requires now { now ≤ MAX_MOMENT }
        ensures { IfOk result (λ gateway. gateway ≡ record {
          conf = meaning conf.now;
          seen = nothing_seen (meaning conf.now) now;
          count = 0;
        }) }
    {
        let book = NonceBook::open(alloc, conf.nonces(), window_of(conf), now)?;
        let count = 0;
        Ok(Gateway { conf, book, count })
    }

    /// The nonces that it remembers. The moment is that of the last message, or of `open`.
    pub fn book(&self) -> &NonceBook
        ensures { result.now ≡ self.now.seen }
    {
        &self.book
    }

    /// What the configuration says of gateways.
    fn settings(&self) -> &'c GatewayConf
        ensures is { self.now.conf.gateway ≡ Some result.now }
        ensures valid { IsValidGateway result.now }
    {
        match self.conf.gateway() {
            Some(gateway) => gateway,
            None => unreachable!(),
        }
    }

    /// The label that has to be accepted, where one is given.
    fn label(&self) -> Option<&'c [u8]>
        ensures { (settings : GatewayConf) → self.now.conf.gateway ≡ Some settings
            → option_copied result ≡ settings.label }
    {
        match &self.settings().label {
            Some(label) => Some(label.bytes()),
            None => None,
        }
    }

    /// What comes of the labels of a message that are asked for.
    fn judge_asked<L: Ledger>(
        &self,
        alloc: Global,
        exchange: &mut Exchange<'_, '_>,
        steps: &mut Steps<L>,
    ) -> Result<Judged, Memory>
        ensures judged { IfOk result (SaysJudged self.now exchange.old.context) }
        ensures exchange { exchange.new.context ≡ exchange.old.context }
        ensures steps { steps.old ≤ steps.new }
    {
        let (conf, moment) = (self.conf, self.book.moment());
        let seen = Some(&self.book);
        let verifier = Verifier { conf, moment, seen };
        let labels = asked_labels(alloc, self.label(), exchange)?;
        judge(alloc, exchange, &verifier, labels.as_slice(), steps)
    }

    /// The record of the exchange's message, of which the label is accepted.
    fn forward(
        &self,
        alloc: Global,
        exchange: &Exchange<'_, '_>,
        accepted: &AcceptedLabel,
    ) -> Result<GatewayRecord, Memory>
        requires whole { HasWholeMessage exchange.now.context }
        requires judged { SaysJudged self.now exchange.now.context (Judged.Accepted accepted.now) }
        ensures { (settings : GatewayConf) → self.now.conf.gateway ≡ Some settings → IfOk result
            (IsAnswerOf settings self.now exchange.now.context accepted.now) }
    {
        self.book.keeps_limits();
        let forwarding = Forwarding {
            conf: self.conf,
            moment: self.book.moment(),
            accepted,
        };
        let steps = self.settings().steps.as_slice();
        let index = self.count;
        match forwarding.forward(alloc, &exchange.context(), steps)? {
            Forwarded::Signed(message) => Ok(GatewayRecord::Pass {
                index,
                label: accepted.label.copy(alloc)?,
                message,
            }),
            Forwarded::Held(fault) => Ok(GatewayRecord::Held { index, fault }),
        }
    }

    /// What comes of a message that was read.
    fn judge_message<L: Ledger>(
        &self,
        alloc: Global,
        exchange: &mut Exchange<'_, '_>,
        steps: &mut Steps<L>,
    ) -> Result<Outcome, Memory>
        requires { HasWholeMessage exchange.old.context }
        ensures is { (settings : GatewayConf) → self.now.conf.gateway ≡ Some settings → IfOk result
            (IsOutcomeOf settings self.now exchange.old.context) }
        ensures now { IfOk result (λ outcome. MayBeRemembered self.now outcome.accepted) }
        ensures steps { steps.old ≤ steps.new }
    {
        match self.judge_asked(alloc, exchange, steps)? {
            Judged::Accepted(accepted) => {
                let answer = self.forward(alloc, exchange, &accepted)?;
                let accepted = Some(accepted);
                Ok(Outcome { answer, accepted })
            }
            Judged::Refused { label, verdict } => Ok(Outcome::refused(GatewayRecord::Stop {
                index: self.count,
                label,
                verdict,
            })),
        }
    }

    /// What comes of a message, of which this is the request that it answers.
    fn judge_read<L: Ledger>(
        &self,
        alloc: Global,
        arrival: Arrival<'_>,
        related: Option<&MessageView<'_>>,
        steps: &mut Steps<L>,
    ) -> Result<Outcome, Memory>
        requires sized { IsSized (arrival_of arrival) }
        requires answers { IsAnswered (arrival_of arrival).related
            (option_map (λ request. message_of request.now) related) }
        ensures is { (settings : GatewayConf) → self.now.conf.gateway ≡ Some settings → IfOk result
            (IsOutcome settings self.now (arrival_of arrival.entry)) }
        ensures now { IfOk result (λ outcome. MayBeRemembered self.now outcome.accepted) }
        ensures steps { steps.old ≤ steps.new }
    {
        let index = self.count;
        let reading = reading_of(arrival, related);
        match whole_message(alloc, reading, arrival.text()) {
            Ok(message) => {
                let mut exchange = Exchange::of(alloc, message, related, self.conf);
                self.judge_message(alloc, &mut exchange, steps)
            }
            Err(fault) => {
                let fault = BadFault::Message(bad_fault(fault)?);
                Ok(Outcome::refused(GatewayRecord::Bad { index, fault }))
            }
        }
    }

    /// What comes of a message.
    fn judge_arrival<L: Ledger>(
        &self,
        alloc: Global,
        arrival: Arrival<'_>,
        steps: &mut Steps<L>,
    ) -> Result<Outcome, Memory>
        requires { IsSized (arrival_of arrival) }
        ensures is { (settings : GatewayConf) → self.now.conf.gateway ≡ Some settings → IfOk result
            (IsOutcome settings self.now (arrival_of arrival.entry)) }
        ensures now { IfOk result (λ outcome. MayBeRemembered self.now outcome.accepted) }
        ensures steps { steps.old ≤ steps.new }
    {
        let index = self.count;
        match related_request(alloc, arrival)? {
            Ok(related) => self.judge_read(alloc, arrival, related.as_ref(), steps),
            Err(fault) => Ok(Outcome::refused(GatewayRecord::Bad { index, fault })),
        }
    }

    /// Answers a message that comes at this moment. Out of memory only what is over is forgotten.
    pub fn step<L: Ledger>(
        &mut self,
        alloc: Global,
        now: u64,
        arrival: Arrival<'_>,
        steps: &mut Steps<L>,
    ) -> Result<GatewayRecord, Memory>
        requires sized { IsSized (arrival_of arrival) }
        requires now { now ≤ MAX_MOMENT }
        requires later { self.old.seen.moment ≤ now }
        requires few { self.old.count < MAX_ITEMS }
        ensures answers { (settings : GatewayConf) → self.old.conf.gateway ≡ Some settings
            → IfOk result (λ given. Answers settings self.old now (arrival_of arrival.entry) given
            self.new.seen) }
        ensures in_range { IfOk result (λ given. IsTrue (is_record_in_range given)) }
        ensures memory { OnErr result (IsAdvanced now self.old.seen self.new.seen) }
        ensures moment { self.new.seen.moment ≡ now }
        ensures count { MatchResult result (λ _. self.new.count ≡ self.old.count + 1)
            (λ _. self.new.count ≡ self.old.count) }
        ensures conf { self.new.conf ≡ self.old.conf }
        ensures steps { steps.old ≤ steps.new }
    {
        self.book.advance(now, steps);
        let Outcome { answer, accepted } = self.judge_arrival(alloc, arrival, steps)?;
        remember(&mut self.book, self.conf, accepted.as_ref(), steps);
        self.count += 1;
        Ok(answer)
    }
}
