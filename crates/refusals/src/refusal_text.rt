//! The text of a refusal. Each function adds its part at the end of the line.

ghost use Rattle.std.specs.Prelude.{◌≡◌, ◌++◌, ◌∷◌, codes, OnOk};
ghost use Rattle.std.specs.Str.{byte};
ghost use Rattle.component_ids.specs.Causes.{id_fault_text};
ghost use Rattle.derived_values.specs.Words.{lack_word};
ghost use Rattle.field_lists.specs.Words.{from_fault_text, to_fault_text};
ghost use Rattle.normal_forms.specs.Words.{explain_fault_text};
ghost use Rattle.signing.specs.Words.{sign_fault_text, want_fault_text};
ghost use Rattle.refusals.specs.Texts.{role_text};
ghost use Rattle.refusals.specs.Refusal.{command_text, digest_text, step_text, refusal_text};

use crate::file::append_file;
use crate::refusal::{CommandRefusal, DigestRefusal, Refusal, StepRefusal};
use crate::role::Role;
use component_ids::IdFault;
use component_values::Lack;
use field_lists::{FromFault, ToFault};
use normal_forms::ExplainFault;
use sfv_text::{Memory, Text, append_number, append_words};
use signing::{SignFault, WantFault};
use std::alloc::Global;

fn append_role(alloc: Global, role: Role, line: &mut Text) -> Result<(), Memory>
    ensures { OnOk result (line.new ≡ line.old ++ (role_text role ++ codes " ")) }
{
    let text = format!(in alloc; "{role}")?;
    append_words(text.as_bytes(), b" ", line)
}

fn append_ids(alloc: Global, fault: &IdFault, line: &mut Text) -> Result<(), Memory>
    ensures { OnOk result (line.new ≡ line.old ++ id_fault_text fault.now) }
{
    let text = format!(in alloc; "{fault}")?;
    line.append(text.as_bytes())
}

fn append_lack(lack: Lack, id: &Text, line: &mut Text) -> Result<(), Memory>
    ensures { OnOk result (line.new ≡ line.old ++ (lack_word lack ++ byte " " ∷ id.now)) }
{
    line.append(lack.word().as_bytes())?;
    append_words(b" ", id.bytes(), line)
}

fn append_sign_fault(alloc: Global, fault: SignFault, line: &mut Text) -> Result<(), Memory>
    ensures { OnOk result (line.new ≡ line.old ++ sign_fault_text fault) }
{
    let text = format!(in alloc; "{fault}")?;
    line.append(text.as_bytes())
}

fn append_want_fault(alloc: Global, fault: &WantFault, line: &mut Text) -> Result<(), Memory>
    ensures { OnOk result (line.new ≡ line.old ++ want_fault_text fault.now) }
{
    let text = format!(in alloc; "{fault}")?;
    line.append(text.as_bytes())
}

fn append_step(alloc: Global, cause: StepRefusal, line: &mut Text) -> Result<(), Memory>
    ensures { OnOk result (line.new ≡ line.old ++ step_text cause) }
{
    match cause {
        StepRefusal::LabelUnread => line.append(b"label-unread"),
        StepRefusal::NotApplicable(index) => append_number(alloc, b"not-applicable ", index, line),
        StepRefusal::NotPermitted(index) => append_number(alloc, b"not-permitted ", index, line),
    }
}

fn append_explain_fault(alloc: Global, fault: ExplainFault, line: &mut Text) -> Result<(), Memory>
    ensures { OnOk result (line.new ≡ line.old ++ explain_fault_text fault) }
{
    let text = format!(in alloc; "{fault}")?;
    line.append(text.as_bytes())
}

fn append_to_fault(alloc: Global, fault: ToFault, line: &mut Text) -> Result<(), Memory>
    ensures { OnOk result (line.new ≡ line.old ++ to_fault_text fault) }
{
    let text = format!(in alloc; "{fault}")?;
    line.append(text.as_bytes())
}

fn append_from_fault(alloc: Global, fault: FromFault, line: &mut Text) -> Result<(), Memory>
    ensures { OnOk result (line.new ≡ line.old ++ from_fault_text fault) }
{
    let text = format!(in alloc; "{fault}")?;
    line.append(text.as_bytes())
}

fn append_digest(cause: DigestRefusal, line: &mut Text) -> Result<(), Memory>
    ensures { OnOk result (line.new ≡ line.old ++ digest_text cause) }
{
    match cause {
        DigestRefusal::Malformed => line.append(b"wish-malformed"),
        DigestRefusal::Unacceptable => line.append(b"wish-unacceptable"),
        DigestRefusal::Unmet => line.append(b"wish-digest"),
    }
}

fn append_command(alloc: Global, refusal: &CommandRefusal, line: &mut Text) -> Result<(), Memory>
    ensures { OnOk result (line.new ≡ line.old ++ command_text refusal.now) }
{
    match refusal {
        CommandRefusal::Syntax(offset) => append_number(alloc, b"params-syntax ", *offset, line),
        CommandRefusal::Ids(fault) => append_ids(alloc, fault, line),
        CommandRefusal::Lacks(lack, id) => append_lack(*lack, id, line),
        CommandRefusal::Sign(fault) => append_sign_fault(alloc, *fault, line),
        CommandRefusal::Wishes(fault) => append_want_fault(alloc, fault, line),
        CommandRefusal::NotTaken(cause) => append_step(alloc, *cause, line),
        CommandRefusal::Explain(fault) => append_explain_fault(alloc, *fault, line),
        CommandRefusal::ToMessage(fault) => append_to_fault(alloc, *fault, line),
        CommandRefusal::FromMessage(fault) => append_from_fault(alloc, *fault, line),
        CommandRefusal::Digest(cause) => append_digest(*cause, line),
    }
}

/// Adds what is refused, and why.
pub fn append_refusal(alloc: Global, refusal: &Refusal, line: &mut Text) -> Result<(), Memory>
    ensures { OnOk result (line.new ≡ line.old ++ refusal_text refusal.now) }
{
    match refusal {
        Refusal::Arguments => line.append(b"words"),
        Refusal::Of(role, cause) => {
            append_role(alloc, *role, line)?;
            append_file(alloc, cause, line)
        }
        Refusal::Command(cause) => {
            line.append(b"command ")?;
            append_command(alloc, cause, line)
        }
    }
}
