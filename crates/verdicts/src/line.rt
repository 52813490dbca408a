//! The line of a label and its verdict. Each function adds its part at the end of the lines.

ghost use Rattle.std.specs.Prelude.{◌≡◌, ◌++◌, ◌∷◌, OnOk, IsTrue, codes};
ghost use Rattle.std.specs.Fmt.{decimal};
ghost use Rattle.std.specs.Str.{byte};
ghost use Rattle.component_ids.specs.Reasons.{word_of};
ghost use Rattle.verdicts.specs.Verdicts.{is_place_in_range, is_verdict_in_range};
ghost use Rattle.verdicts.specs.VerdictLine.{place_text, verdict_text, verdict_line};

use crate::outcome::Verdict;
use component_ids::{BadReason, print_id};
use sfv_text::{Memory, Text, append_number, append_words};
use signatures::Place;
use std::alloc::Global;

/// Adds the index of an item, after a space, and why it isn't a component identifier.
fn append_component(
    alloc: Global,
    index: usize,
    reason: BadReason,
    line: &mut Text,
) -> Result<(), Memory>
    ensures { OnOk result
        (line.new ≡ line.old ++ byte " " ∷ (decimal index ++ byte " " ∷ word_of reason)) }
{
    append_number(alloc, b" ", index, line)?;
    append_words(b" ", reason.word().as_bytes(), line)
}

/// Adds where a rule fails, after a space.
fn append_place(alloc: Global, place: &Place, line: &mut Text) -> Result<(), Memory>
    requires { IsTrue (is_place_in_range place.now) }
    ensures { OnOk result (line.new ≡ line.old ++ place_text place.now) }
{
    match place {
        Place::None => Ok(()),
        Place::Index(index) => append_number(alloc, b" ", *index, line),
        Place::Component(index, reason) => append_component(alloc, *index, *reason, line),
        Place::Name(text) => append_words(b" ", text.bytes(), line),
        Place::Identifier(id) => {
            let text = print_id(alloc, id)?;
            append_words(b" ", text.bytes(), line)
        }
        Place::Digest(reason) => append_words(b" ", reason.word().as_bytes(), line),
    }
}

/// Adds a verdict, after a space, and LF.
fn append_verdict(alloc: Global, verdict: &Verdict, line: &mut Text) -> Result<(), Memory>
    requires { IsTrue (is_verdict_in_range verdict.now) }
    ensures { OnOk result (line.new ≡ line.old
        ++ byte " " ∷ (verdict_text verdict.now ++ codes "\n")) }
{
    match verdict {
        Verdict::Ok { .. } => line.append(b" ok\n"),
        Verdict::Rule { number, place } => {
            append_number(alloc, b" rule ", number.number() as usize, line)?;
            append_words(b" ", number.word().as_bytes(), line)?;
            append_place(alloc, place, line)?;
            line.append(b"\n")
        }
    }
}

/// Adds the line of a label and its verdict at the end of `lines`: the label, a space, the verdict
/// and LF. After an error some of it may have been added.
pub fn append_verdict_line(
    alloc: Global,
    label: &[u8],
    verdict: &Verdict,
    lines: &mut Text,
) -> Result<(), Memory>
    requires { IsTrue (is_verdict_in_range verdict.now) }
    ensures { OnOk result (lines.new ≡ lines.old ++ verdict_line (label.now, verdict.now)) }
{
    lines.append(label)?;
    append_verdict(alloc, verdict, lines)
}
