//! A message with what is read of it for its signatures.

use crate::digest::digest_of;
use crate::fields::SignatureFields;
use crate::held::{HeldContext, HeldMessage};
use crate::label::{LabelFault, LabelRead, Labels};
use crate::message_signatures::MessageSignatures;
use crate::place::DigestReason;
use crate::values::{feed_base_in, text_in};
use component_ids::{ComponentId, SigParams};
use component_values::{Context, NoValue, Readings, ValueFault};
use msg_body::MessageView;
use settings::Conf;
use sfv_text::{Absorb, Memory, Text};
use std::alloc::Global;
use std::marker::Model;

/// A message, the request that it answers, and what was read of them for the signatures before: the
/// two fields of signatures, structured fields, the query, and the digests of the content. Each is
/// read at most once, when it is first asked for. A contract sees it as what the values of
/// components are drawn from (RFC 9421 section 1.1: the context of a signature), with what is known
/// of the digests.
#[derive(Drop)]
pub struct Exchange<'a, 'm> {
    held: HeldContext<'a, 'm>,
    /// The fields of signatures, once they were asked for.
    fields: Option<SignatureFields>,
    /// What values of components are made of.
    values: Readings,
    /// Once the digests of the content were asked for: why they don't hold, or nothing.
    digest: Option<Option<DigestReason>>,
}

impl<'a, 'm> Model for Exchange<'a, 'm> {
    ghost use Rattle.std.specs.Coded.{codes};
    ghost use Rattle.component_ids.specs.tools.Kinds.{kinds_code};
    ghost use Rattle.signatures.specs.Exchanges.{ExchangeState};
    ghost use Rattle.signatures.specs.tools.Held.{held_context};
    ghost use Rattle.signatures.specs.tools.Kept.{AreReadFor};

    ghost Value = { ExchangeState };

    ghost coded = { Prim.hlevel (codes, kinds_code) };

    ghost view = { λ e. record { context = held_context e.held; digest = e.digest } };

    ghost invariant = { λ e. AreReadFor (held_context e.held) e.fields e.values e.digest };
}

impl<'a, 'm> Exchange<'a, 'm> {
    ghost use Rattle.std.specs.Prelude.{◌≡◌, ◌++◌, ℕ, List, Option, Ok, Some, length, option_map, IsTrue, IfErr, IfOk, OnErr};
    ghost use Rattle.byte_grammar.specs.Causes.{AnswersWhere};
    ghost use Rattle.msg_body.specs.Views.{message_of};
    ghost use Rattle.component_ids.specs.SignatureParams.{are_sig_params_in_range};
    ghost use Rattle.derived_values.specs.Answers.{AnswersRow};
    ghost use Rattle.derived_values.specs.declared.lack.Lack.{Lack};
    ghost use Rattle.component_values.specs.Context.{context_of};
    ghost use Rattle.component_values.specs.Faults.{HasIndexBelow};
    ghost use Rattle.component_values.specs.Values.{ComesTo, HaveValues, IsFirstLack};
    ghost use Rattle.settings.specs.ConfMeaning.{meaning};
    ghost use Rattle.signatures.specs.SignatureBase.{signature_base};
    ghost use Rattle.signatures.specs.Rules.{IsLabelUnread};
    ghost use Rattle.signatures.specs.Signatures.{AreLabels, HasSignature};
    ghost use Rattle.signatures.specs.declared.label.LabelFault.{LabelFault};
    ghost use Rattle.signatures.specs.declared.place.DigestReason.{DigestReason};
    ghost use Rattle.signatures.specs.declared.place.Place.{Place};
    ghost use Rattle.signatures.specs.declared.rule.Rule.{Rule};
    ghost use Rattle.signatures.specs.ContentDigests.{IsDigestAnswer};
    ghost use Rattle.signatures.specs.Contexts.{context_for};
    ghost use Rattle.signatures.specs.Exchanges.{StillKnows, unread};
    ghost use Rattle.signatures.specs.MessageSignatures.{AreSignaturesOf};
    ghost use Rattle.signatures.specs.tools.Held.{held_context};

    /// The exchange of this context, of which nothing was read yet.
    fn unread(alloc: Global, held: HeldContext<'a, 'm>) -> Exchange<'a, 'm>
        ensures { result ≡ unread (held_context held.entry) }
    {
        Exchange {
            held,
            fields: None,
            values: Readings::new(alloc),
            digest: None,
        }
    }

    /// An exchange of which nothing was read yet. It takes no memory.
    pub fn new(alloc: Global, context: Context<'a, 'm>) -> Exchange<'a, 'm>
        ensures { result ≡ unread (context_of context.entry) }
    {
        Exchange::unread(alloc, HeldContext::of(context))
    }

    /// The exchange of a message that it owns, with the request that the message answers, where
    /// that is known, under a configuration. Nothing was read of it yet. It takes no memory.
    pub fn of(
        alloc: Global,
        message: MessageView<'m>,
        related: Option<&'a MessageView<'m>>,
        conf: &'a Conf,
    ) -> Exchange<'a, 'm>
        ensures { result ≡ unread (context_for (meaning conf.now) (message_of message.entry)
            (option_map (λ request. message_of request.now) related.entry)) }
    {
        let held = HeldContext {
            message: HeldMessage::Owned(message),
            related,
            scheme: conf.scheme(),
            types: conf.types(),
        };
        Exchange::unread(alloc, held)
    }

    /// What the values of components are drawn from.
    pub fn context(&self) -> Context<'_, 'm>
        ensures { context_of result ≡ self.now.context }
    {
        self.held.context()
    }

    /// The message.
    pub fn message(&self) -> &MessageView<'m>
        ensures { message_of result.now ≡ self.now.context.message }
    {
        self.held.message.view()
    }

    /// The labels of the message's signatures (RFC 9421 section 4.1): the keys of `Signature-Input`
    /// in order. Where no header line has that name, or the field is no Dictionary, there is none.
    pub fn labels(&mut self, alloc: Global) -> Result<Labels, Memory>
        ensures labels { IfOk result (λ labels. AreLabels self.old.context.message labels) }
        ensures same { self.new ≡ self.old }
    {
        if let Some(fields) = &self.fields {
            return fields.labels(alloc);
        }
        let fields = SignatureFields::read(alloc, self.held.message.view())?;
        let labels = fields.labels(alloc);
        self.fields = Some(fields);
        labels
    }

    /// The signature of the label (RFC 9421 sections 4.1 and 4.2): its member of each field of
    /// signatures. Else it answers the first of rules 1 to 12 that fails.
    pub fn label(&mut self, alloc: Global, label: &[u8]) -> Result<LabelRead, LabelFault>
        ensures ok { IfOk result (λ read.
            HasSignature self.old.context.message label.now read.params read.tag) }
        ensures in_range { IfOk result (λ read. IsTrue (are_sig_params_in_range read.params)) }

        // The first rule that fails is answered, and no other.
        ensures fault { (rule : Rule) (place : Place) → AnswersWhere LabelFault.Memory result
            (LabelFault.Rule rule place)
            (IsLabelUnread self.old.context.message label.now rule place) }
        ensures same { self.new ≡ self.old }
    {
        if let Some(fields) = &self.fields {
            return fields.label(alloc, label);
        }
        let fields = SignatureFields::read(alloc, self.held.message.view())?;
        let read = fields.label(alloc, label);
        self.fields = Some(fields);
        read
    }

    /// The labels of the message, each with its signature. Who keeps them reads each label once.
    pub fn signatures(&mut self, alloc: Global) -> Result<MessageSignatures, Memory>
        ensures signatures { IfOk result (AreSignaturesOf self.old.context.message) }
        ensures same { self.new ≡ self.old }
    {
        if let Some(fields) = &self.fields {
            return MessageSignatures::of(alloc, fields);
        }
        let fields = SignatureFields::read(alloc, self.held.message.view())?;
        let signatures = MessageSignatures::of(alloc, &fields);
        self.fields = Some(fields);
        signatures
    }

    /// Feeds the signature base of the components that the signature parameters cover (RFC 9421
    /// section 2.5). Where one lacks a value, or memory runs out, nothing is fed.
    pub fn feed_base<A: Absorb>(
        &mut self,
        alloc: Global,
        params: &SigParams,
        into: &mut A,
    ) -> Result<(), ValueFault>
        requires { IsTrue (are_sig_params_in_range params.now) }
        ensures base { IfOk result (λ _. (values : List (List ℕ))
            × HaveValues self.old.context params.now.ids values
            × ((text : List ℕ) → A.absorbed into.old text
            → A.absorbed into.new (text ++ signature_base params.now values))) }
        ensures unfed { OnErr result (into.new ≡ into.old) }

        // The first lack is answered, and no other.
        ensures lacks { (index : ℕ) (lack : Lack) → AnswersWhere ValueFault.Memory result
            (ValueFault.Lacks index lack)
            (IsFirstLack self.old.context params.now.ids index lack) }
        ensures index { IfErr result (HasIndexBelow (length params.now.ids)) }
        ensures same { self.new ≡ self.old }
    {
        feed_base_in(alloc, &self.held, params, &mut self.values, into)
    }

    /// The value of a component, or how it lacks one (RFC 9421 section 2.5).
    pub fn component_text(&mut self, alloc: Global, id: &ComponentId) -> Result<Text, NoValue>
        ensures row { AnswersRow (ComesTo self.old.context id.now) result }
        ensures same { self.new ≡ self.old }
    {
        text_in(alloc, &self.held, id, &mut self.values)
    }

    /// Why the digests of the field `Content-Digest` aren't those of the content (RFC 9530 section
    /// 2); nothing where they are. Once it is known, nothing is read and no memory is taken.
    pub fn digest(&mut self, alloc: Global) -> Result<Option<DigestReason>, Memory>
        ensures digest { IfOk result (IsDigestAnswer self.old.context.message) }
        ensures kept { IfOk result (λ answer. self.new.digest ≡ Some answer) }
        ensures again { (answer : Option DigestReason) → self.old.digest ≡ Some answer
            → result ≡ Ok answer }
        ensures still { StillKnows self.old self.new }
        ensures same { self.new.context ≡ self.old.context }
    {
        let answer = digest_of(alloc, &self.held, self.digest)?;
        self.digest = Some(answer);
        Ok(answer)
    }
}
