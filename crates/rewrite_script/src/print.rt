//! Prints scripts.

ghost use Rattle.std.specs.Prelude.{◌≡◌, ◌≤◌, [], ◌∷◌, ◌++◌, length, codes, map, take, drop, OnOk, IfOk, IsTrue};
ghost use Rattle.std.specs.Fmt.{decimal};
ghost use Rattle.std.specs.List.{list_all};
ghost use Rattle.rewrite_script.specs.Lines.{blank_letter, blanks_word, is_writable, line_rewrite_words, rewrite_line, side_word, whole_rewrite_words};
ghost use Rattle.rewrite_script.specs.Scripts.{HaveValues, SpellsScript, script_text};
ghost use Rattle.rewrite_script.specs.declared.limits.TheConstants.{MAX_SCRIPT_LINES};
ghost use Rattle.rewrite_script.specs.tools.Printed.{line_of_words, words_after};

use crate::rewrite::{LineRewrite, Rewrite, WholeRewrite};
use msg_head::Side;
use sfv_text::{Memory, Text, append_number, append_words};
use std::alloc::Global;

/// Adds SP and the word of a side.
fn append_side(side: Side, text: &mut Text) -> Result<(), Memory>
    ensures { OnOk result (text.new ≡ text.old ++ (codes " " ++ side_word side)) }
{
    match side {
        Side::Header => text.append(b" h"),
        Side::Trailer => text.append(b" t"),
    }
}

/// Adds the letters of blanks.
fn append_letters(blanks: &[u8], text: &mut Text) -> Result<(), Memory>
    ensures { OnOk result (text.new ≡ text.old ++ map blank_letter blanks.now) }
{
    for blank in blanks {
        text.append(if *blank == b' ' { b"s" } else { b"t" })?;
    }
    Ok(())
}

/// Adds SP and the word of blanks.
fn append_blanks(blanks: &[u8], text: &mut Text) -> Result<(), Memory>
    ensures { OnOk result (text.new ≡ text.old ++ (codes " " ++ blanks_word blanks.now)) }
{
    if blanks.is_empty() {
        return text.append(b" -");
    }
    text.append(b" ")?;
    append_letters(blanks, text)
}

/// Adds SP and a number for each size.
fn append_sizes(alloc: Global, sizes: &[u64], text: &mut Text) -> Result<(), Memory>
    ensures { OnOk result (text.new ≡ text.old ++ words_after (map decimal sizes.now)) }
{
    for size in sizes {
        append_number(alloc, b" ", *size as usize, text)?;
    }
    Ok(())
}

/// Adds the kind, the side and the index of a rewriting of field lines.
fn append_place(
    alloc: Global,
    kind: &[u8],
    side: Side,
    index: usize,
    text: &mut Text,
) -> Result<(), Memory>
    ensures { OnOk result
        (text.new ≡ text.old ++ line_of_words (kind.now ∷ side_word side ∷ decimal index ∷ [])) }
{
    text.append(kind)?;
    append_side(side, text)?;
    append_number(alloc, b" ", index, text)
}

/// The kind, the side and the index of the rewriting.
fn place_of(rewrite: &LineRewrite) -> (&'static [u8], Side, usize)
    ensures { result.0.now ∷ side_word result.1 ∷ decimal result.2 ∷ []
        ≡ take 3 (line_rewrite_words rewrite.now) }
{
    match rewrite {
        LineRewrite::Pad { side, index, .. } => (b"pad", *side, *index),
        LineRewrite::Fold { side, index, .. } => (b"fold", *side, *index),
        LineRewrite::Unfold { side, index, .. } => (b"unfold", *side, *index),
        LineRewrite::Join { side, index, .. } => (b"join", *side, *index),
        LineRewrite::Split { side, index, .. } => (b"split", *side, *index),
        LineRewrite::Move { side, index, .. } => (b"move", *side, *index),
        LineRewrite::Case { side, index, .. } => (b"case", *side, *index),
        LineRewrite::Add { side, index, .. } => (b"add", *side, *index),
        LineRewrite::Remove { side, index } => (b"remove", *side, *index),
    }
}

/// Adds the kind, the side and the index of the rewriting.
fn append_line_place(alloc: Global, rewrite: &LineRewrite, text: &mut Text) -> Result<(), Memory>
    ensures { OnOk result
        (text.new ≡ text.old ++ line_of_words (take 3 (line_rewrite_words rewrite.now))) }
{
    let (kind, side, index) = place_of(rewrite);
    append_place(alloc, kind, side, index, text)
}

/// Adds what comes after the index of the rewriting.
fn append_arguments(alloc: Global, rewrite: &LineRewrite, text: &mut Text) -> Result<(), Memory>
    ensures { OnOk result
        (text.new ≡ text.old ++ words_after (drop 3 (line_rewrite_words rewrite.now))) }
{
    match rewrite {
        LineRewrite::Pad { before, after, .. } => {
            append_blanks(before.bytes(), text)?;
            append_blanks(after.bytes(), text)
        }
        LineRewrite::Fold { at, blanks, .. } => {
            append_number(alloc, b" ", *at, text)?;
            append_blanks(blanks.bytes(), text)
        }
        LineRewrite::Unfold { at, .. }
        | LineRewrite::Join { later: at, .. }
        | LineRewrite::Split { at, .. }
        | LineRewrite::Move { to: at, .. } => append_number(alloc, b" ", *at, text),
        LineRewrite::Case { name, .. } => append_words(b" ", name.bytes(), text),
        LineRewrite::Add {
            name,
            text: own,
            ..
        } => {
            append_words(b" ", name.bytes(), text)?;
            append_words(b" ", own.bytes(), text)
        }
        LineRewrite::Remove { .. } => Ok(()),
    }
}

/// Adds the line of a rewriting of field lines, without its end.
#[tactic(auto, using(crate::proofs::Printing::parts))]
fn append_line_rewrite(alloc: Global, rewrite: &LineRewrite, text: &mut Text) -> Result<(), Memory>
    ensures { OnOk result (text.new ≡ text.old ++ line_of_words (line_rewrite_words rewrite.now)) }
{
    append_line_place(alloc, rewrite, text)?;
    append_arguments(alloc, rewrite, text)
}

/// The kind of a rewriting of a whole message.
fn kind_of(rewrite: &WholeRewrite) -> &'static [u8]
    ensures { whole_rewrite_words rewrite.now
        ≡ result.now ∷ drop 1 (whole_rewrite_words rewrite.now) }
{
    match rewrite {
        WholeRewrite::AddLabel { .. } => b"add-label",
        WholeRewrite::Rechunk { .. } => b"rechunk",
        WholeRewrite::Chunk { .. } => b"chunk",
        WholeRewrite::Dechunk => b"dechunk",
        WholeRewrite::Origin => b"origin",
        WholeRewrite::Absolute => b"absolute",
        WholeRewrite::Host { .. } => b"host",
        WholeRewrite::Query { .. } => b"query",
        WholeRewrite::Resf { .. } => b"resf",
    }
}

/// Adds what comes after the kind of a rewriting of a whole message.
fn append_whole_arguments(
    alloc: Global,
    rewrite: &WholeRewrite,
    text: &mut Text,
) -> Result<(), Memory>
    ensures { OnOk result
        (text.new ≡ text.old ++ words_after (drop 1 (whole_rewrite_words rewrite.now))) }
{
    match rewrite {
        WholeRewrite::AddLabel { label, tag, params } => {
            append_words(b" ", label.bytes(), text)?;
            append_words(b" ", tag.bytes(), text)?;
            append_words(b" ", params.bytes(), text)
        }
        WholeRewrite::Rechunk { sizes } | WholeRewrite::Chunk { sizes } => {
            append_sizes(alloc, sizes.as_slice(), text)
        }
        WholeRewrite::Host { text: own } | WholeRewrite::Query { text: Some(own) } => {
            append_words(b" ", own.bytes(), text)
        }
        WholeRewrite::Resf { side, name } => {
            append_side(*side, text)?;
            append_words(b" ", name.bytes(), text)
        }
        WholeRewrite::Dechunk
        | WholeRewrite::Origin
        | WholeRewrite::Absolute
        | WholeRewrite::Query { text: None } => Ok(()),
    }
}

/// Adds the line of a rewriting of a whole message, without its end.
#[tactic(auto, using(crate::proofs::Printing::from_kind))]
fn append_whole_rewrite(
    alloc: Global,
    rewrite: &WholeRewrite,
    text: &mut Text,
) -> Result<(), Memory>
    ensures { OnOk result (text.new ≡ text.old ++ line_of_words (whole_rewrite_words rewrite.now)) }
{
    text.append(kind_of(rewrite))?;
    append_whole_arguments(alloc, rewrite, text)
}

/// Adds the line of a rewriting, without its end.
fn append_rewrite(alloc: Global, rewrite: &Rewrite, text: &mut Text) -> Result<(), Memory>
    ensures { OnOk result (text.new ≡ text.old ++ rewrite_line rewrite.now) }
{
    match rewrite {
        Rewrite::Lines(rewrite) => append_line_rewrite(alloc, rewrite, text),
        Rewrite::Whole(rewrite) => append_whole_rewrite(alloc, rewrite, text),
    }
}

/// The text of a script: each rewriting's line with its LF. What `read_script` has read is printed
/// as the bytes that it was read from. A script of at most `MAX_SCRIPT_LINES` rewritings, each of
/// which a line can write, has a text that reads as this script and no other.
///
/// ```text
/// let script = read_script(alloc, b"move h 1 0\npad t 0 s -\n")?;
/// print_script(alloc, script.as_slice())      // move h 1 0
///                                             // pad t 0 s -
/// ```
pub fn print_script(alloc: Global, script: &[Rewrite]) -> Result<Text, Memory>
    ensures text { IfOk result (λ text. text ≡ script_text script.now) }
    ensures spells { IsTrue (list_all is_writable script.now) → HaveValues script.now
        → length script.now ≤ MAX_SCRIPT_LINES
        → IfOk result (λ text. SpellsScript text script.now) }
{
    let mut text = Text::new(alloc);
    for rewrite in script {
        append_rewrite(alloc, rewrite, &mut text)?;
        text.append(b"\n")?;
    }
    Ok(text)
}
