//! The two header fields that have the signatures of a message.

ghost use Rattle.std.specs.Prelude.{IsTrue, IfOk};
ghost use Rattle.byte_grammar.specs.Causes.{AnswersWhere};
ghost use Rattle.msg_body.specs.Messages.{Message};
ghost use Rattle.msg_body.specs.Views.{message_of};
ghost use Rattle.component_ids.specs.SignatureParams.{are_sig_params_in_range};
ghost use Rattle.signatures.specs.declared.label.LabelFault.{LabelFault};
ghost use Rattle.signatures.specs.declared.place.Place.{Place};
ghost use Rattle.signatures.specs.declared.rule.Rule.{Rule};
ghost use Rattle.signatures.specs.Fields.{AreFieldsOf};
ghost use Rattle.signatures.specs.Signatures.{AreLabels, HasSignature};
ghost use Rattle.signatures.specs.Rules.{IsLabelUnread};
ghost use Rattle.signatures.specs.tools.Answered.{ExplainsLabel};

use crate::field::{DictField, read_field};
use crate::label::{LabelFault, LabelRead, Labels};
use crate::labels::keys_of;
use crate::place::Place;
use crate::read::read_members;
use crate::rule::Rule;
use msg_body::MessageView;
use sfv_text::Memory;
use std::alloc::Global;

/// What was read of the header fields `Signature-Input` and `Signature` of a message (RFC 9421
/// sections 4.1 and 4.2), so that each is read once for all labels.
#[derive(Drop)]
pub struct SignatureFields {
    input: DictField,
    signature: DictField,
}

impl SignatureFields {
    /// Reads the two fields of the message.
    pub fn read(alloc: Global, view: &MessageView<'_>) -> Result<SignatureFields, Memory>
        ensures { IfOk result (AreFieldsOf (message_of view.now)) }
    {
        let input = read_field(alloc, view, b"signature-input")?;
        let signature = read_field(alloc, view, b"signature")?;
        Ok(SignatureFields { input, signature })
    }

    /// The labels of the message's signatures: the keys of `Signature-Input` in order. Where no
    /// header line has that name, or the field is no Dictionary, there is none.
    pub fn labels(&self, alloc: Global) -> Result<Labels, Memory>
        ensures { (message : Message) → AreFieldsOf message self.now
            → IfOk result (λ labels. AreLabels message labels) }
    {
        match &self.input {
            DictField::Dict(dict) => keys_of(alloc, dict),
            DictField::Absent => Ok(Labels::new(alloc)),
            DictField::Malformed => Ok(Labels::new(alloc)),
        }
    }

    /// The signature of the label, or the first of rules 1 to 12 that fails.
    fn judge_label(&self, alloc: Global, label: &[u8]) -> Result<LabelRead, LabelFault>
        ensures { (message : Message) → AreFieldsOf message self.now
            → ExplainsLabel message label.now result }
    {
        let input = match &self.input {
            DictField::Dict(dict) => dict,
            DictField::Absent => return Err(LabelFault::Rule(Rule::InputAbsent, Place::None)),
            DictField::Malformed => return Err(LabelFault::Rule(Rule::InputMalformed, Place::None)),
        };
        let signature = match &self.signature {
            DictField::Dict(dict) => dict,
            DictField::Absent => return Err(LabelFault::Rule(Rule::SignatureAbsent, Place::None)),
            DictField::Malformed => {
                return Err(LabelFault::Rule(Rule::SignatureMalformed, Place::None));
            }
        };
        read_members(alloc, input, signature, label)
    }

    /// The signature of the label: its member of each field. Else it answers the first of rules 1
    /// to 12 that fails.
    pub fn label(&self, alloc: Global, label: &[u8]) -> Result<LabelRead, LabelFault>
        ensures ok { (message : Message) → AreFieldsOf message self.now → IfOk result (λ read.
            HasSignature message label.now read.params read.tag) }
        ensures in_range { (message : Message) → AreFieldsOf message self.now
            → IfOk result (λ read. IsTrue (are_sig_params_in_range read.params)) }

        // The first rule that fails is answered, and no other.
        ensures fault { (message : Message) → AreFieldsOf message self.now
            → (rule : Rule) (place : Place) → AnswersWhere LabelFault.Memory result
            (LabelFault.Rule rule place) (IsLabelUnread message label.now rule place) }
    {
        self.judge_label(alloc, label)
    }
}

/// The labels of the message's signatures (RFC 9421 section 4.1): the keys of `Signature-Input` in
/// order. Where no header line has that name, or the field is no Dictionary, there is none.
pub fn labels_of(alloc: Global, view: &MessageView<'_>) -> Result<Labels, Memory>
    ensures { IfOk result (λ labels. AreLabels (message_of view.now) labels) }
{
    SignatureFields::read(alloc, view)?.labels(alloc)
}

/// Reads the signature of the label (RFC 9421 sections 4.1 and 4.2) from the message's header
/// fields `Signature-Input` and `Signature`. Else it answers the first of rules 1 to 12 that fails.
pub fn read_label(
    alloc: Global,
    view: &MessageView<'_>,
    label: &[u8],
) -> Result<LabelRead, LabelFault>
    ensures ok { IfOk result (λ read.
        HasSignature (message_of view.now) label.now read.params read.tag) }
    ensures in_range { IfOk result (λ read. IsTrue (are_sig_params_in_range read.params)) }

    // The first rule that fails is answered, and no other.
    ensures fault { (rule : Rule) (place : Place) → AnswersWhere LabelFault.Memory result
        (LabelFault.Rule rule place) (IsLabelUnread (message_of view.now) label.now rule place) }
{
    let fields = match SignatureFields::read(alloc, view) {
        Ok(fields) => fields,
        Err(Memory) => return Err(LabelFault::Memory),
    };
    fields.label(alloc, label)
}
