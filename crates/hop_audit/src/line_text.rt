//! The text of a report. Each function adds its part at the end of the text.

ghost use Rattle.std.specs.Prelude.{◌≡◌, ◌++◌, ◌∷◌, OnOk, IsTrue, codes};
ghost use Rattle.std.specs.Str.{byte};
ghost use Rattle.component_ids.specs.Identifiers.{id_text, is_id_in_range};
ghost use Rattle.hop_audit.specs.Lines.{are_lines_in_range, explanation_text, fate_text, finds_fault, hop_line, is_counted, is_fate_in_range, is_line_in_range, line_text, permission_word, report_text};

use crate::line::{AuditLine, Fate};
use component_ids::{ComponentId, print_id};
use sfv_text::{Memory, Text, append_number, append_words};
use std::alloc::Global;
use verdicts::{Verdict, append_verdict_line};

/// Adds the word and the component.
fn append_component(
    alloc: Global,
    word: &[u8],
    id: &ComponentId,
    text: &mut Text,
) -> Result<(), Memory>
    requires { IsTrue (is_id_in_range id.now) }
    ensures { OnOk result (text.new ≡ text.old ++ (word.now ++ id_text id.now)) }
{
    let own = print_id(alloc, id)?;
    append_words(word, own.bytes(), text)
}

/// Adds what becomes of a signature.
fn append_fate(alloc: Global, fate: &Fate, text: &mut Text) -> Result<(), Memory>
    requires { IsTrue (is_fate_in_range fate.now) }
    ensures { OnOk result (text.new ≡ text.old ++ fate_text fate.now) }
{
    match fate {
        Fate::Dropped => text.append(b"dropped"),
        Fate::Changed(id) => append_component(alloc, b"changed ", id, text),
        Fate::Lacking(id) => append_component(alloc, b"lacking ", id, text),
        Fate::Kept => text.append(b"kept"),
    }
}

/// Adds whether a hop is explained.
fn append_explanation(
    alloc: Global,
    explained: bool,
    stopped: Option<usize>,
    text: &mut Text,
) -> Result<(), Memory>
    ensures { OnOk result (text.new ≡ text.old ++ explanation_text explained stopped) }
{
    if explained {
        return text.append(b"explained");
    }
    match stopped {
        None => text.append(b"unexplained"),
        Some(index) => append_number(alloc, b"unexplained ", index, text),
    }
}

/// Adds the line of a hop that says whether it is explained.
fn append_hop(
    alloc: Global,
    index: usize,
    explained: bool,
    stopped: Option<usize>,
    text: &mut Text,
) -> Result<(), Memory>
    ensures { OnOk result
        (text.new ≡ text.old ++ hop_line index (explanation_text explained stopped)) }
{
    append_number(alloc, b"hop ", index, text)?;
    text.append(b" ")?;
    append_explanation(alloc, explained, stopped, text)?;
    text.append(b"\n")
}

/// Adds what a line says after its label: whether the hop is permitted, and the signature's fate.
fn append_judged(alloc: Global, permitted: bool, fate: &Fate, text: &mut Text) -> Result<(), Memory>
    requires { IsTrue (is_fate_in_range fate.now) }
    ensures { OnOk result (text.new ≡ text.old ++ (byte " " ∷ (permission_word permitted
        ++ byte " " ∷ (fate_text fate.now ++ codes "\n")))) }
{
    text.append(if permitted {
        b" permitted ".as_slice()
    } else {
        b" not-permitted "
    })?;
    append_fate(alloc, fate, text)?;
    text.append(b"\n")
}

/// Adds a line.
fn append_line(alloc: Global, line: &AuditLine, text: &mut Text) -> Result<(), Memory>
    requires { IsTrue (is_line_in_range line.now) }
    ensures { OnOk result (text.new ≡ text.old ++ line_text line.now) }
{
    match line {
        AuditLine::Message {
            index,
            label,
            verdict,
        } => {
            append_number(alloc, b"message ", *index, text)?;
            text.append(b" ")?;
            append_verdict_line(alloc, label.bytes(), verdict, text)
        }
        AuditLine::Hop {
            index,
            explained,
            stopped,
        } => append_hop(alloc, *index, *explained, *stopped, text),
        AuditLine::Unread { index, label } => {
            append_number(alloc, b"hop ", *index, text)?;
            append_words(b" ", label.bytes(), text)?;
            text.append(b" unread\n")
        }
        AuditLine::Label {
            index,
            label,
            permitted,
            fate,
        } => {
            append_number(alloc, b"hop ", *index, text)?;
            append_words(b" ", label.bytes(), text)?;
            append_judged(alloc, *permitted, fate, text)
        }
    }
}

/// Whether the line counts against the chain.
fn counts(line: &AuditLine) -> bool
    ensures { result ≡ is_counted line.now }
{
    match line {
        AuditLine::Message { verdict, .. } => !matches!(verdict, Verdict::Ok { .. }),
        AuditLine::Hop { explained, .. } => !*explained,
        AuditLine::Unread { .. } => true,
        AuditLine::Label {
            permitted,
            fate,
            ..
        } => !*permitted || !matches!(fate, Fate::Kept),
    }
}

/// Whether a line of the report counts against the chain: a verdict that isn't `ok`, a hop that
/// isn't explained, a label that isn't read, a hop that isn't permitted, or a signature that isn't
/// kept.
pub fn finds_fault(lines: &[AuditLine]) -> bool
    ensures { result ≡ finds_fault lines.now }
{
    lines.iter().any(counts)
}

/// Adds the lines of a report.
pub fn append_report(alloc: Global, lines: &[AuditLine], text: &mut Text) -> Result<(), Memory>
    requires { IsTrue (are_lines_in_range lines.now) }
    ensures { OnOk result (text.new ≡ text.old ++ report_text lines.now) }
{
    for line in lines {
        append_line(alloc, line, text)?;
    }
    Ok(())
}
