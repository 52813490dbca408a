//! The signature of a label.

ghost use Rattle.std.specs.Prelude.{◌≡◌};
ghost use Rattle.msg_body.specs.Messages.{Message};
ghost use Rattle.signatures.specs.Signatures.{input_name, signature_name, HasDict};
ghost use Rattle.signatures.specs.tools.Answered.{ExplainsLabel};

use crate::label::{LabelFault, LabelRead};
use crate::place::Place;
use crate::rule::Rule;
use component_ids::{IdFault, read_params};
use sfv_text::{Dict, Member};
use std::alloc::Global;

/// The fault of a label whose Inner List is no signature parameters.
impl From<IdFault> for LabelFault {
    ghost use Rattle.std.specs.Prelude.{◌≡◌};
    ghost use Rattle.signatures.specs.tools.Answered.{id_fault_of};

    ghost from_gives = { λ fault label_fault. label_fault ≡ id_fault_of fault };

    fn from(fault: IdFault) -> LabelFault {
        match fault {
            IdFault::Memory => LabelFault::Memory,
            IdFault::TooMany => LabelFault::Rule(Rule::ComponentsMany, Place::None),
            IdFault::BadComponent(index, reason) => {
                LabelFault::Rule(Rule::ComponentBad, Place::Component(index, reason))
            }
            IdFault::Repeated(index) => {
                LabelFault::Rule(Rule::ComponentRepeated, Place::Index(index))
            }
            IdFault::BadParameter(key) => { LabelFault::Rule(Rule::ParameterBad, Place::Name(key)) }
        }
    }
}

/// The signature of the label in the Dictionaries `Signature-Input` and `Signature`.
pub(crate) fn read_members(
    alloc: Global,
    input: &Dict,
    signature: &Dict,
    label: &[u8],
) -> Result<LabelRead, LabelFault>
    ensures { (message : Message) → HasDict message input_name input.now
        → HasDict message signature_name signature.now → ExplainsLabel message label.now result }
{
    let Some(covered) = input.find(label) else {
        return Err(LabelFault::Rule(Rule::LabelNotInInput, Place::None));
    };
    let Some(member) = signature.find(label) else {
        return Err(LabelFault::Rule(Rule::LabelNotInSignature, Place::None));
    };
    let Member::InnerList(list) = covered else {
        return Err(LabelFault::Rule(Rule::InputNotList, Place::None));
    };
    let Some(tag) = member.byte_sequence() else {
        return Err(LabelFault::Rule(Rule::SignatureNotBytes, Place::None));
    };
    let params = read_params(alloc, list)?;
    Ok(LabelRead {
        params,
        tag: tag.copy(alloc)?,
    })
}
