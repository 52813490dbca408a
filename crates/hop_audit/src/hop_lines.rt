//! The lines of a hop.

ghost use Rattle.std.specs.Prelude.{◌≡◌, ◌≤◌, ℕ, length, List, OnOk, IfOk, IsTrue};
ghost use Rattle.std.specs.List.{All, list_all};
ghost use Rattle.signatures.specs.MessageSignatures.{AreSignaturesOf};
ghost use Rattle.msg_body.specs.Messages.{Message};
ghost use Rattle.rewrite_script.specs.Lines.{is_writable};
ghost use Rattle.rewrite_script.specs.Scripts.{HaveValues};
ghost use Rattle.rewrite_script.specs.declared.rewrite.Rewrite.{Rewrite};
ghost use Rattle.hop_audit.specs.Hops.{PlacedHop};
ghost use Rattle.hop_audit.specs.Report.{IsLabelLine};
ghost use Rattle.hop_audit.specs.tools.Compared.{AreCompared};
ghost use Rattle.hop_audit.specs.tools.HopLines.{AddsLabelLines, AreJudged, IsJudged, SaysExplained};
ghost use Rattle.hop_audit.specs.tools.Stages.{AreAlike};
ghost use Rattle.hop_audit.specs.tools.Walked.{AreMarksIn, IsMarkInRange};
ghost use Rattle.hop_audit.specs.tools.Written.{AddsHopLines};

use crate::comparison::Comparison;
use crate::known_tags::known_after;
use crate::line::{AuditLine, AuditReport};
use crate::stage::Stage;
use crate::walk::{Mark, Marks, Walked, walk};
use rewrite_script::Rewrite;
use sfv_text::{Memory, Text};
use signatures::{Exchange, MessageSignatures};
use std::alloc::Global;

/// Each label of the message before the hop, with its signature, where it has one.
fn marks_of<'s>(alloc: Global, signatures: &'s MessageSignatures) -> Result<Marks<'s>, Memory>
    ensures { (message : Message) → AreSignaturesOf message signatures.now
        → IfOk result (λ made. AreMarksIn message made.marks.items) }
{
    let labels = signatures.labels();
    let mut marks = Vec::with_capacity(alloc, labels.len())?;
    for label in labels {
        let label = label.bytes();
        let read = signatures.find(label);
        let permitted = read.is_some();
        marks.push(Mark {
            label,
            read,
            permitted,
        })?;
    }
    Ok(Marks { marks })
}

/// Whether the steps lead to the message of these bytes; else the step that isn't applicable, where
/// there is one.
fn explanation(walked: &Walked, bytes: &[u8]) -> (bool, Option<usize>)
    ensures { SaysExplained walked.now bytes.now result.0 result.1 }
{
    match walked {
        Walked::To(text) => (text.bytes() == bytes, None),
        Walked::Stopped(index) => (false, Some(*index)),
    }
}

/// A hop whose script was walked.
#[derive(Clone, Copy)]
struct WalkedHop {
    index: usize,
    explained: bool,
}

fn label_line(
    alloc: Global,
    hop: WalkedHop,
    mark: &Mark<'_>,
    before: &mut Exchange<'_, '_>,
    after: &mut Stage<'_, '_>,
    comparison: &mut Comparison,
) -> Result<AuditLine, Memory>
    requires in_range { IsMarkInRange mark.now }
    requires alike { AreAlike before.old.context after.old.context }
    requires compared { AreCompared before.old.context after.old.context.message
        comparison.old.compared }
    ensures line { (placed : PlacedHop)
        → IsJudged before.old.context placed after.old.context.message hop.index
        hop.explained mark.now
        → IfOk result (IsLabelLine before.old.context placed mark.now.label.now) }
    ensures compared { AreCompared before.old.context after.old.context.message
        comparison.new.compared }
    ensures before { before.new ≡ before.old }
    ensures after { after.new ≡ after.old }
{
    let index = hop.index;
    let label = Text::from_bytes(alloc, mark.label)?;
    let Some(read) = mark.read else {
        return Ok(AuditLine::Unread { index, label });
    };
    let fate = comparison.fate_of(alloc, mark.label, read, before, after)?;
    let permitted = hop.explained && mark.permitted;
    Ok(AuditLine::Label {
        index,
        label,
        permitted,
        fate,
    })
}

/// Adds the line of each label.
fn add_label_lines(
    alloc: Global,
    hop: WalkedHop,
    marks: &[Mark<'_>],
    before: &mut Exchange<'_, '_>,
    after: &mut Stage<'_, '_>,
    lines: &mut AuditReport,
) -> Result<(), Memory>
    requires in_range { All IsMarkInRange marks.now }
    requires alike { AreAlike before.old.context after.old.context }
    ensures lines { (script : List Rewrite) (labels : List (List ℕ))
        → AreJudged before.old.context hop.index script after.old.context.message labels
        marks.now hop.explained
        → OnOk result (AddsLabelLines before.old.context hop.index script
        after.old.context.message labels lines.old lines.new) }
    ensures before { before.new ≡ before.old }
    ensures after { after.new ≡ after.old }
{
    let mut comparison = Comparison::new(alloc);
    for mark in marks {
        let line = label_line(alloc, hop, mark, before, after, &mut comparison)?;
        lines.push(line)?;
    }
    Ok(())
}

/// Adds the hop's line, and a line for each label of the message before it.
fn add_own_lines(
    alloc: Global,
    index: usize,
    before: &mut Stage<'_, '_>,
    script: &[Rewrite],
    after: &mut Stage<'_, '_>,
    lines: &mut AuditReport,
) -> Result<(), Memory>
    requires writable { IsTrue (list_all is_writable script.now) }
    requires values { HaveValues script.now }
    requires alike { AreAlike before.old.context after.old.context }
    ensures lines { OnOk result (AddsHopLines before.old.context index script.now
        after.old.context.message lines.old lines.new) }
    ensures longer { OnOk result (length lines.old ≤ length lines.new) }
    ensures before { before.new ≡ before.old }
    ensures after { after.new ≡ after.old }
{
    let mut marks = marks_of(alloc, &before.signatures)?;
    let walked = walk(alloc, &before.exchange.context(), script, &mut marks)?;
    let (explained, stopped) = explanation(&walked, after.exchange.message().bytes());
    drop(walked);
    lines.push(AuditLine::Hop {
        index,
        explained,
        stopped,
    })?;
    let hop = WalkedHop { index, explained };
    let marks = marks.marks.as_slice();
    add_label_lines(alloc, hop, marks, &mut before.exchange, after, lines)
}

/// The same. Where the hop keeps the signature base of a label, what is known of the label's tag in
/// the message before is known of it in the message after, too.
pub(crate) fn add_hop_lines(
    alloc: Global,
    index: usize,
    before: &mut Stage<'_, '_>,
    script: &[Rewrite],
    after: &mut Stage<'_, '_>,
    lines: &mut AuditReport,
) -> Result<(), Memory>
    requires writable { IsTrue (list_all is_writable script.now) }
    requires values { HaveValues script.now }
    requires alike { AreAlike before.old.context after.old.context }
    requires conf { after.old.conf ≡ before.old.conf }
    ensures lines { OnOk result (AddsHopLines before.old.context index script.now
        after.old.context.message lines.old lines.new) }
    ensures before { before.new ≡ before.old }
    ensures after { after.new ≡ after.old }
{
    let first = lines.len();
    add_own_lines(alloc, index, before, script, after, lines)?;
    after.known = known_after(alloc, &before.known, &lines.as_slice()[first..])?;
    Ok(())
}
