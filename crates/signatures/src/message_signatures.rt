//! The signatures of a message, by their labels.

ghost use Rattle.std.specs.Prelude.{IfOk};
ghost use Rattle.msg_body.specs.Messages.{Message};
ghost use Rattle.signatures.specs.Fields.{AreFieldsOf};
ghost use Rattle.signatures.specs.Signatures.{AreLabels};
ghost use Rattle.signatures.specs.MessageSignatures.{IsSignatureOf};
ghost use Rattle.signatures.specs.tools.Reading.{AreReadIn};

use crate::fields::SignatureFields;
use crate::label::{LabelFault, LabelRead, Labels};
use sfv_text::{Memory, Pairs, Text};
use std::alloc::Global;

/// The labels of a message, each with its signature, where it has one (RFC 9421 sections 4.1 and
/// 4.2).
#[derive(Drop)]
pub struct MessageSignatures {
    labels: Labels,
    by_label: Pairs<Option<LabelRead>>,
}

/// The signature that the label has in the message of these fields, where it has one.
fn signature_in(
    alloc: Global,
    fields: &SignatureFields,
    label: &[u8],
) -> Result<Option<LabelRead>, Memory>
    ensures { (message : Message) → AreFieldsOf message fields.now
        → IfOk result (IsSignatureOf message label.now) }
{
    match fields.label(alloc, label) {
        Ok(read) => Ok(Some(read)),
        Err(LabelFault::Rule(_, _)) => Ok(None),
        Err(LabelFault::Memory) => Err(Memory),
    }
}

/// The signatures of these labels in the message of these fields.
fn signatures_in(
    alloc: Global,
    fields: &SignatureFields,
    labels: &Labels,
) -> Result<Pairs<Option<LabelRead>>, Memory>
    ensures { (message : Message) → AreFieldsOf message fields.now → AreLabels message labels.now
        → IfOk result (AreReadIn message) }
{
    let mut signatures = Pairs::new(alloc);
    for label in labels.as_slice() {
        let read = signature_in(alloc, fields, label.bytes())?;
        signatures.put(label.copy(alloc)?, read)?;
    }
    Ok(signatures)
}

impl MessageSignatures {
    ghost use Rattle.std.specs.Prelude.{ℕ, List, IsTrue, IfOk, IfSome, MatchOption};
    ghost use Rattle.component_ids.specs.SignatureParams.{are_sig_params_in_range};
    ghost use Rattle.component_ids.specs.declared.params.SigParams.{SigParams};
    ghost use Rattle.msg_body.specs.Messages.{Message};
    ghost use Rattle.signatures.specs.Fields.{AreFieldsOf};
    ghost use Rattle.signatures.specs.Signatures.{AreLabels, HasSignature};
    ghost use Rattle.signatures.specs.MessageSignatures.{AreSignaturesOf};

    /// Those of the message of these fields. Each label is read once.
    pub(crate) fn of(alloc: Global, fields: &SignatureFields) -> Result<MessageSignatures, Memory>
        ensures { (message : Message) → AreFieldsOf message fields.now
            → IfOk result (AreSignaturesOf message) }
    {
        let labels = fields.labels(alloc)?;
        let by_label = signatures_in(alloc, fields, &labels)?;
        Ok(MessageSignatures { labels, by_label })
    }

    /// The labels, in order.
    pub fn labels(&self) -> &[Text]
        ensures { (message : Message) → AreSignaturesOf message self.now
            → AreLabels message result.now }
    {
        self.labels.as_slice()
    }

    /// The signature of the label, where it has one.
    pub fn find(&self, label: &[u8]) -> Option<&LabelRead>
        ensures is { (message : Message) → AreSignaturesOf message self.now → MatchOption result
            ((params : SigParams) (tag : List ℕ) → ¬ HasSignature message label.now params tag)
            (λ read. HasSignature message label.now read.now.params read.now.tag) }
        ensures in_range { (message : Message) → AreSignaturesOf message self.now
            → IfSome result (λ read. IsTrue (are_sig_params_in_range read.now.params)) }
    {
        match self.by_label.find(label) {
            Some(Some(read)) => Some(read),
            Some(None) => None,
            None => None,
        }
    }
}
