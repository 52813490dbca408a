//! The command `verify`: the verdicts on a message's labels (RFC 9421 section 3.2).

ghost use Rattle.std.specs.Prelude.{◌≡◌, ◌≤◌, ◌<◌, [], None, option_copied, option_map, IfOk};
ghost use Rattle.component_values.specs.Context.{context_of};
ghost use Rattle.conf.specs.ConfMeaning.{meaning};
ghost use Rattle.verdicts.specs.Verification.{IsAt, verification_by};
ghost use Rattle.commands.specs.Verify.{AreAsked, ReportsVerdicts};
ghost use Rattle.commands.specs.tools.Verdicts.{AreLinesSoFar, WritesVerdict, ReportsLabels};

use crate::outcome::Outcome;
use component_values::Context;
use conf::Conf;
use nonces::Steps;
use sfv_text::{Memory, Text};
use signatures::Exchange;
use std::alloc::Global;
use std::marker::Brand;
use std::sync::ledger::{Blank, Ledger};
use verdicts::{Labels, MAX_MOMENT, Verdict, Verifier, append_verdict_line};

/// Judges the label and adds its line. It answers whether the label is accepted.
fn write_line<L: Ledger>(
    alloc: Global,
    exchange: &mut Exchange<'_, '_>,
    verifier: &Verifier<'_>,
    label: &[u8],
    lines: &mut Text,
    steps: &mut Steps<L>,
) -> Result<bool, Memory>
    requires { IsAt verifier.now.moment (option_copied verifier.now.seen) }
    ensures writes { IfOk result (WritesVerdict
        (verification_by verifier.entry.now exchange.old.context label.now) lines.old lines.new) }
    ensures exchange { exchange.new.context ≡ exchange.old.context }
{
    let verdict = verifier.verdict(alloc, exchange, label, steps)?;
    let is_accepted = match verdict {
        Verdict::Ok { .. } => true,
        Verdict::Rule { .. } => false,
    };
    let written = append_verdict_line(alloc, label, &verdict, lines);
    drop(verdict);
    written?;
    Ok(is_accepted)
}

/// Adds the lines of the labels, in order. It answers whether all are accepted.
fn add_lines<L: Ledger>(
    alloc: Global,
    exchange: &mut Exchange<'_, '_>,
    verifier: &Verifier<'_>,
    labels: &[Text],
    lines: &mut Text,
    steps: &mut Steps<L>,
) -> Result<bool, Memory>
    requires now { verifier.now.moment ≤ MAX_MOMENT }
    requires seen { verifier.now.seen ≡ None }
    requires lines { lines.old ≡ [] }
    ensures { IfOk result (AreLinesSoFar (meaning verifier.entry.now.conf.now)
        verifier.entry.now.moment exchange.old.context labels.now lines.new) }
{
    let mut all_accepted = true;
    for label in labels {
        let is_accepted = write_line(alloc, exchange, verifier, label.bytes(), lines, steps)?;
        all_accepted &= is_accepted;
    }
    Ok(all_accepted)
}

/// The lines of the labels. Steps are counted and the count is let go.
fn write_lines<L: Ledger>(
    alloc: Global,
    exchange: &mut Exchange<'_, '_>,
    verifier: &Verifier<'_>,
    labels: &[Text],
    blank: Blank,
) -> Result<Outcome, Memory>
    requires now { verifier.now.moment ≤ MAX_MOMENT }
    requires seen { verifier.now.seen ≡ None }
    requires name { blank.name ≡ L.name }
    requires parts { blank.parts ≡ L.parts }
    requires some { 0 < blank.parts }
    ensures { IfOk result (ReportsLabels (meaning verifier.entry.now.conf.now)
        verifier.entry.now.moment exchange.old.context labels.now) }
{
    let mut steps: Steps<L> = Steps::new(blank);
    let mut lines = Text::new(alloc);
    let all_accepted = add_lines(alloc, exchange, verifier, labels, &mut lines, &mut steps)?;
    Ok(if all_accepted {
        Outcome::Done(lines)
    } else {
        Outcome::NotOk(lines)
    })
}

/// The labels that are asked for.
fn asked_labels(
    alloc: Global,
    label: Option<&str>,
    exchange: &mut Exchange<'_, '_>,
) -> Result<Labels, Memory>
    ensures asked { IfOk result
        (AreAsked (option_map (λ word. word.now) label.entry) exchange.old.context.message) }
    ensures exchange { exchange.new.context ≡ exchange.old.context }
{
    match label {
        Some(label) => verdicts::asked_labels(alloc, Some(label.as_bytes()), exchange),
        None => verdicts::asked_labels(alloc, None, exchange),
    }
}

/// The lines of the verdicts on the labels that are asked for.
fn report_labels(
    alloc: Global,
    conf: &Conf,
    now: u64,
    label: Option<&str>,
    exchange: &mut Exchange<'_, '_>,
) -> Result<Outcome, Memory>
    requires { now ≤ MAX_MOMENT }
    ensures { IfOk result (ReportsVerdicts (option_map (λ word. word.now) label.entry)
        now (meaning conf.now) exchange.old.context) }
{
    let labels = asked_labels(alloc, label, exchange)?;
    let verifier = Verifier {
        conf,
        moment: now,
        seen: None,
    };
    let blank = Blank::new(1);
    write_lines::<Brand>(alloc, exchange, &verifier, labels.as_slice(), blank)
}

/// The lines of the verdicts on the labels that are asked for: on the given one, whether or not the
/// message has it, or else on each that the message has, and on `-` where it has none. The moment
/// is in seconds since the epoch. No nonce is remembered.
pub fn verify_outcome(
    alloc: Global,
    conf: &Conf,
    now: u64,
    label: Option<&str>,
    context: &Context<'_, '_>,
) -> Result<Outcome, Memory>
    requires { now ≤ MAX_MOMENT }
    ensures { IfOk result (ReportsVerdicts (option_map (λ word. word.now) label.entry)
        now (meaning conf.now) (context_of context.now)) }
{
    let mut exchange = Exchange::new(alloc, *context);
    report_labels(alloc, conf, now, label, &mut exchange)
}
