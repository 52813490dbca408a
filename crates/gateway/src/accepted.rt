//! Which label of a message is accepted.

ghost use Rattle.std.specs.Prelude.{◌≡◌, ◌≢◌, ◌≤◌, [], IfOk, MatchOption, option_copied};
ghost use Rattle.verdicts.specs.Verification.{IsAt, verification_by};
ghost use Rattle.gateway.specs.Accepted.{AreRefused};
ghost use Rattle.gateway.specs.tools.Judged.{IsFirstLabel, IsJudged, IsJudgedBy, IsJudgedLabel};

use component_ids::SigParams;
use nonces::Steps;
use sfv_text::{Memory, Text};
use signatures::{Exchange, LabelFault};
use std::alloc::Global;
use std::sync::ledger::Ledger;
use verdicts::{SignedLabel, Verdict, Verifier};

/// A label that is accepted, with its signature parameters.
#[derive(Drop)]
pub(crate) struct AcceptedLabel {
    pub(crate) label: Text,
    /// The keyid of the key under which it is accepted.
    pub(crate) keyid: Text,
    pub(crate) params: SigParams,
}

/// What comes of the labels of a message.
#[derive(Drop)]
pub(crate) enum Judged {
    /// This one is the first that is accepted.
    Accepted(AcceptedLabel),
    /// None is accepted. These are the first one and its verdict.
    Refused { label: Text, verdict: Verdict },
}

/// The label with these signature parameters, where the verdict accepts it, or else the verdict.
fn judged_by(
    alloc: Global,
    label: &[u8],
    params: SigParams,
    verdict: Verdict,
) -> Result<Result<AcceptedLabel, Verdict>, Memory>
    ensures { IfOk result (IsJudgedBy label.now params verdict) }
{
    match verdict {
        Verdict::Ok { keyid } => {
            let label = Text::from_bytes(alloc, label)?;
            Ok(Ok(AcceptedLabel {
                label,
                keyid,
                params,
            }))
        }
        Verdict::Rule { number, place } => Ok(Err(Verdict::Rule { number, place })),
    }
}

/// What comes of a label, whose signature is read once: it is accepted, or this is its verdict.
fn judge_label<L: Ledger>(
    alloc: Global,
    exchange: &mut Exchange<'_, '_>,
    verifier: &Verifier<'_>,
    label: &[u8],
    steps: &mut Steps<L>,
) -> Result<Result<AcceptedLabel, Verdict>, Memory>
    requires { IsAt verifier.now.moment (option_copied verifier.now.seen) }
    ensures judged { IfOk result (IsJudgedLabel exchange.old.context.message
        (verification_by verifier.entry.now exchange.old.context label.now)) }
    ensures exchange { exchange.new.context ≡ exchange.old.context }
    ensures steps { steps.old ≤ steps.new }
{
    match exchange.label(alloc, label) {
        Ok(read) => {
            let signed = SignedLabel {
                label,
                read: &read,
                is_right: None,
            };
            let verdict = verifier.verdict_on(alloc, exchange, &signed, steps)?;
            judged_by(alloc, label, read.params, verdict)
        }
        Err(fault) => match fault {
            LabelFault::Memory => Err(Memory),
            LabelFault::Rule(number, place) => Ok(Err(Verdict::Rule { number, place })),
        },
    }
}

/// The first of the labels that is accepted.
fn first_accepted<L: Ledger>(
    alloc: Global,
    exchange: &mut Exchange<'_, '_>,
    verifier: &Verifier<'_>,
    labels: &[Text],
    steps: &mut Steps<L>,
) -> Result<Option<AcceptedLabel>, Memory>
    requires { IsAt verifier.now.moment (option_copied verifier.now.seen) }
    ensures found { IfOk result (λ found. MatchOption found
        (AreRefused (verification_by verifier.entry.now exchange.old.context) labels.now)
        (IsFirstLabel exchange.old.context.message
        (verification_by verifier.entry.now exchange.old.context) labels.now)) }
    ensures exchange { exchange.new.context ≡ exchange.old.context }
    ensures steps { steps.old ≤ steps.new }
{
    for label in labels {
        match judge_label(alloc, exchange, verifier, label.bytes(), steps)? {
            Ok(accepted) => return Ok(Some(accepted)),
            Err(verdict) => drop(verdict),
        }
    }
    Ok(None)
}

/// Judges the labels in order: the first that is accepted, or the verdict on the first one.
pub(crate) fn judge<L: Ledger>(
    alloc: Global,
    exchange: &mut Exchange<'_, '_>,
    verifier: &Verifier<'_>,
    labels: &[Text],
    steps: &mut Steps<L>,
) -> Result<Judged, Memory>
    requires some { labels.now ≢ [] }
    requires now { IsAt verifier.now.moment (option_copied verifier.now.seen) }
    ensures judged { IfOk result
        (IsJudged exchange.old.context.message
        (verification_by verifier.entry.now exchange.old.context) labels.now) }
    ensures exchange { exchange.new.context ≡ exchange.old.context }
    ensures steps { steps.old ≤ steps.new }
{
    let Some((first, others)) = labels.split_first() else {
        unreachable!()
    };
    match judge_label(alloc, exchange, verifier, first.bytes(), steps)? {
        Ok(accepted) => Ok(Judged::Accepted(accepted)),
        Err(verdict) => match first_accepted(alloc, exchange, verifier, others, steps)? {
            Some(accepted) => Ok(Judged::Accepted(accepted)),
            None => Ok(Judged::Refused {
                label: first.copy(alloc)?,
                verdict,
            }),
        },
    }
}
