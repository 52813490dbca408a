//! The summary of a sample's audit.

ghost use Rattle.std.specs.Prelude.{◌≡◌, ◌≤◌, ◌++◌, ◌*◌, OnOk, count_by};
ghost use Rattle.hop_audit.specs.Lines.{finds_fault};
ghost use Rattle.byte_grammar.specs.Numbers.{number_line};
ghost use Rattle.recording.specs.declared.limits.TheConstants.{MAX_HOPS};
ghost use Rattle.samples.specs.Summary.{is_kept_line, is_ok_line, is_permitted_line, summary_text};

use hop_audit::{AuditLine, Fate, finds_fault};
use sfv_text::{Memory, Text, append_number};
use std::alloc::Global;
use verdicts::Verdict;

/// What the report on a sample says, in numbers.
#[derive(Clone, Copy, PartialEq, Eq)]
pub struct Summary {
    /// The hops.
    pub hops: usize,
    /// The steps of all hops.
    pub steps: usize,
    /// The hops that a signature permits.
    pub permitted: usize,
    /// The hops that keep a signature.
    pub kept: usize,
    /// The messages in which a label's verdict is `ok`.
    pub ok: usize,
    /// The bytes of the last message.
    pub last: usize,
    /// Whether a line of the report counts against the chain.
    pub finds_fault: bool,
}

/// Whether the line says that a hop is permitted.
fn is_permitted_line(line: &AuditLine) -> bool
    ensures { result ≡ is_permitted_line line.now }
{
    matches!(
        line,
        AuditLine::Label {
            permitted: true,
            ..
        }
    )
}

/// Whether the line says that a signature is kept.
fn is_kept_line(line: &AuditLine) -> bool
    ensures { result ≡ is_kept_line line.now }
{
    matches!(
        line,
        AuditLine::Label {
            fate: Fate::Kept,
            ..
        }
    )
}

/// Whether the line says that a verdict is `ok`.
fn is_ok_line(line: &AuditLine) -> bool
    ensures { result ≡ is_ok_line line.now }
{
    matches!(
        line,
        AuditLine::Message {
            verdict: Verdict::Ok { .. },
            ..
        }
    )
}

/// How many lines say that a hop is permitted.
fn count_permitted(lines: &[AuditLine]) -> usize
    ensures { result ≡ count_by is_permitted_line lines.now }
{
    lines.iter().filter(|line| is_permitted_line(line)).count()
}

/// How many lines say that a signature is kept.
fn count_kept(lines: &[AuditLine]) -> usize
    ensures { result ≡ count_by is_kept_line lines.now }
{
    lines.iter().filter(|line| is_kept_line(line)).count()
}

/// How many lines say that a verdict is `ok`.
fn count_ok(lines: &[AuditLine]) -> usize
    ensures { result ≡ count_by is_ok_line lines.now }
{
    lines.iter().filter(|line| is_ok_line(line)).count()
}

/// The summary of the lines.
pub(crate) fn summary_of(lines: &[AuditLine], hops: usize, last: usize) -> Summary
    requires { hops ≤ MAX_HOPS }
    ensures hops { result.hops ≡ hops }
    ensures steps { result.steps ≡ 3 * hops }
    ensures permitted { result.permitted ≡ count_by is_permitted_line lines.now }
    ensures kept { result.kept ≡ count_by is_kept_line lines.now }
    ensures ok { result.ok ≡ count_by is_ok_line lines.now }
    ensures last { result.last ≡ last }
    ensures faulty { result.finds_fault ≡ finds_fault lines.now }
{
    Summary {
        hops,
        steps: 3 * hops,
        permitted: count_permitted(lines),
        kept: count_kept(lines),
        ok: count_ok(lines),
        last,
        finds_fault: finds_fault(lines),
    }
}

/// Adds a line with a number.
fn append_line(alloc: Global, word: &[u8], number: usize, text: &mut Text) -> Result<(), Memory>
    ensures { OnOk result (text.new ≡ text.old ++ number_line word.now number) }
{
    append_number(alloc, word, number, text)?;
    text.append(b"\n")
}

/// Adds the lines of a summary.
pub fn append_summary(alloc: Global, summary: &Summary, text: &mut Text) -> Result<(), Memory>
    ensures { OnOk result (text.new ≡ text.old ++ summary_text summary.now) }
{
    append_line(alloc, b"hops ", summary.hops, text)?;
    append_line(alloc, b"steps ", summary.steps, text)?;
    append_line(alloc, b"permitted ", summary.permitted, text)?;
    append_line(alloc, b"kept ", summary.kept, text)?;
    append_line(alloc, b"ok ", summary.ok, text)?;
    append_line(alloc, b"last ", summary.last, text)
}
