//! The lines of the kinds of rewritings.

ghost use Rattle.std.specs.Prelude.{◌≡◌, Some, MatchResult};
ghost use Rattle.std.specs.Str.{byte, bytes_eq};
ghost use Rattle.rewrite_script.specs.declared.fault.LineFault.TheVariants.{NotSpelled};
ghost use Rattle.rewrite_script.specs.tools.LineWalk.{first_read, side_read, key_read, tag_read, number_read, blanks_read, name_read, two_read, pad_read, fold_read, unfold_read, join_read, split_read, move_read, case_read, add_read, remove_read, add_label_read, rechunk_read, chunk_read, host_read, query_read, resf_read, message_read, rewrite_read, word_read, line_read};
ghost use Rattle.rewrite_script.specs.Lines.{HasValues};
ghost use Rattle.rewrite_script.specs.tools.Gives.{Gives, GivesWhere};

use crate::argument::{
    blanks_of, cut, lower_name_of, name_of, number_of, query_text_of, read_word, side_of, sizes_of,
    text_of,
};
use crate::fault::LineFault;
use crate::label::{has_values, key_of, params_of, tag_of};
use crate::rewrite::{LineRewrite, Rewrite, Sizes, WholeRewrite};
use msg_head::Side;
use sfv_text::Text;
use std::alloc::Global;

/// Whether it is the word.
fn is_word(bytes: &[u8], word: &[u8]) -> bool
    ensures { result ≡ bytes_eq bytes.now word.now }
{
    bytes == word
}

/// Reads a side and SP.
#[tactic(auto, unfolding(crate::specs::tools::LineWalk::first_read))]
fn read_side(bytes: &[u8]) -> Result<(Side, &[u8]), LineFault>
    ensures { Gives (λ x. (x.0, x.1.now)) result (first_read (byte " ") side_read bytes.now) }
{
    let (word, rest) = read_word(bytes)?;
    let side = side_of(word)?;
    Ok((side, rest))
}

/// Reads a number and SP.
#[tactic(auto, unfolding(crate::specs::tools::LineWalk::first_read))]
fn read_number(bytes: &[u8]) -> Result<(usize, &[u8]), LineFault>
    ensures { Gives (λ x. (x.0, x.1.now)) result (first_read (byte " ") number_read bytes.now) }
{
    let (word, rest) = read_word(bytes)?;
    let number = number_of(word)?;
    Ok((number, rest))
}

/// Reads blanks and SP.
#[tactic(auto, unfolding(crate::specs::tools::LineWalk::first_read))]
fn read_blanks(alloc: Global, bytes: &[u8]) -> Result<(Text, &[u8]), LineFault>
    ensures { Gives (λ x. (x.0, x.1.now)) result (first_read (byte " ") blanks_read bytes.now) }
{
    let (word, rest) = read_word(bytes)?;
    let blanks = blanks_of(alloc, word)?;
    Ok((blanks, rest))
}

/// Reads a field name and SP.
#[tactic(auto, unfolding(crate::specs::tools::LineWalk::first_read))]
fn read_name(alloc: Global, bytes: &[u8]) -> Result<(Text, &[u8]), LineFault>
    ensures { Gives (λ x. (x.0, x.1.now)) result (first_read (byte " ") name_read bytes.now) }
{
    let (word, rest) = read_word(bytes)?;
    let name = name_of(alloc, word)?;
    Ok((name, rest))
}

/// `SIDE INDEX BLANKS BLANKS`
#[tactic(auto, unfolding(crate::specs::tools::LineWalk::pad_read, crate::specs::tools::LineWalk::then_read))]
fn read_pad(alloc: Global, bytes: &[u8]) -> Result<Rewrite, LineFault>
    ensures { Gives (λ rewrite. rewrite) result (pad_read bytes.now) }
{
    let (side, rest) = read_side(bytes)?;
    let (index, rest) = read_number(rest)?;
    let (before, rest) = read_blanks(alloc, rest)?;
    let after = blanks_of(alloc, rest)?;
    Ok(Rewrite::Lines(LineRewrite::Pad {
        side,
        index,
        before,
        after,
    }))
}

/// `SIDE INDEX OFFSET BLANKS`
#[tactic(auto, unfolding(crate::specs::tools::LineWalk::fold_read, crate::specs::tools::LineWalk::then_read))]
fn read_fold(alloc: Global, bytes: &[u8]) -> Result<Rewrite, LineFault>
    ensures { Gives (λ rewrite. rewrite) result (fold_read bytes.now) }
{
    let (side, rest) = read_side(bytes)?;
    let (index, rest) = read_number(rest)?;
    let (at, rest) = read_number(rest)?;
    let blanks = blanks_of(alloc, rest)?;
    Ok(Rewrite::Lines(LineRewrite::Fold {
        side,
        index,
        at,
        blanks,
    }))
}

/// `SIDE INDEX NUMBER`
#[tactic(auto, unfolding(crate::specs::tools::LineWalk::two_read, crate::specs::tools::LineWalk::then_read))]
fn read_two(bytes: &[u8]) -> Result<(Side, usize, usize), LineFault>
    ensures { Gives (λ x. (x.0, (x.1, x.2))) result (two_read bytes.now) }
{
    let (side, rest) = read_side(bytes)?;
    let (index, rest) = read_number(rest)?;
    let number = number_of(rest)?;
    Ok((side, index, number))
}

/// `SIDE INDEX OFFSET`
#[tactic(auto, unfolding(crate::specs::tools::LineWalk::unfold_read))]
fn read_unfold(bytes: &[u8]) -> Result<Rewrite, LineFault>
    ensures { Gives (λ rewrite. rewrite) result (unfold_read bytes.now) }
{
    let (side, index, at) = read_two(bytes)?;
    Ok(Rewrite::Lines(LineRewrite::Unfold { side, index, at }))
}

/// `SIDE INDEX INDEX`
#[tactic(auto, unfolding(crate::specs::tools::LineWalk::join_read))]
fn read_join(bytes: &[u8]) -> Result<Rewrite, LineFault>
    ensures { Gives (λ rewrite. rewrite) result (join_read bytes.now) }
{
    let (side, index, later) = read_two(bytes)?;
    Ok(Rewrite::Lines(LineRewrite::Join { side, index, later }))
}

/// `SIDE INDEX OFFSET`
#[tactic(auto, unfolding(crate::specs::tools::LineWalk::split_read))]
fn read_split(bytes: &[u8]) -> Result<Rewrite, LineFault>
    ensures { Gives (λ rewrite. rewrite) result (split_read bytes.now) }
{
    let (side, index, at) = read_two(bytes)?;
    Ok(Rewrite::Lines(LineRewrite::Split { side, index, at }))
}

/// `SIDE INDEX INDEX`
#[tactic(auto, unfolding(crate::specs::tools::LineWalk::move_read))]
fn read_move(bytes: &[u8]) -> Result<Rewrite, LineFault>
    ensures { Gives (λ rewrite. rewrite) result (move_read bytes.now) }
{
    let (side, index, to) = read_two(bytes)?;
    Ok(Rewrite::Lines(LineRewrite::Move { side, index, to }))
}

/// `SIDE INDEX NAME`
#[tactic(auto, unfolding(crate::specs::tools::LineWalk::case_read, crate::specs::tools::LineWalk::then_read))]
fn read_case(alloc: Global, bytes: &[u8]) -> Result<Rewrite, LineFault>
    ensures { Gives (λ rewrite. rewrite) result (case_read bytes.now) }
{
    let (side, rest) = read_side(bytes)?;
    let (index, rest) = read_number(rest)?;
    let name = name_of(alloc, rest)?;
    Ok(Rewrite::Lines(LineRewrite::Case { side, index, name }))
}

/// `SIDE INDEX NAME TEXT`
#[tactic(auto, unfolding(crate::specs::tools::LineWalk::add_read, crate::specs::tools::LineWalk::then_read))]
fn read_add(alloc: Global, bytes: &[u8]) -> Result<Rewrite, LineFault>
    ensures { Gives (λ rewrite. rewrite) result (add_read bytes.now) }
{
    let (side, rest) = read_side(bytes)?;
    let (index, rest) = read_number(rest)?;
    let (name, rest) = read_name(alloc, rest)?;
    let text = text_of(alloc, rest)?;
    Ok(Rewrite::Lines(LineRewrite::Add {
        side,
        index,
        name,
        text,
    }))
}

/// `SIDE INDEX`
#[tactic(auto, unfolding(crate::specs::tools::LineWalk::remove_read, crate::specs::tools::LineWalk::then_read))]
fn read_remove(bytes: &[u8]) -> Result<Rewrite, LineFault>
    ensures { Gives (λ rewrite. rewrite) result (remove_read bytes.now) }
{
    let (side, rest) = read_side(bytes)?;
    let index = number_of(rest)?;
    Ok(Rewrite::Lines(LineRewrite::Remove { side, index }))
}

/// Reads a key and SP.
#[tactic(auto, unfolding(crate::specs::tools::LineWalk::first_read))]
fn read_key(alloc: Global, bytes: &[u8]) -> Result<(Text, &[u8]), LineFault>
    ensures { Gives (λ x. (x.0, x.1.now)) result (first_read (byte " ") key_read bytes.now) }
{
    let (word, rest) = read_word(bytes)?;
    let key = key_of(alloc, word)?;
    Ok((key, rest))
}

/// Reads a tag and SP.
#[tactic(auto, unfolding(crate::specs::tools::LineWalk::first_read))]
fn read_tag(alloc: Global, bytes: &[u8]) -> Result<(Text, &[u8]), LineFault>
    ensures { Gives (λ x. (x.0, x.1.now)) result (first_read (byte " ") tag_read bytes.now) }
{
    let (word, rest) = read_word(bytes)?;
    let tag = tag_of(alloc, word)?;
    Ok((tag, rest))
}

/// `LABEL TAG PARAMS`
#[tactic(auto, unfolding(crate::specs::tools::LineWalk::add_label_read, crate::specs::tools::LineWalk::then_read))]
fn read_add_label(alloc: Global, bytes: &[u8]) -> Result<Rewrite, LineFault>
    ensures { Gives (λ rewrite. rewrite) result (add_label_read bytes.now) }
{
    let (label, rest) = read_key(alloc, bytes)?;
    let (tag, rest) = read_tag(alloc, rest)?;
    let params = params_of(alloc, rest)?;
    Ok(Rewrite::Whole(WholeRewrite::AddLabel { label, tag, params }))
}

/// `SIZE SIZE ..`
#[tactic(auto, unfolding(crate::specs::tools::LineWalk::rechunk_read))]
fn read_rechunk(alloc: Global, bytes: &[u8]) -> Result<Rewrite, LineFault>
    ensures { Gives (λ rewrite. rewrite) result (rechunk_read bytes.now) }
{
    let sizes = sizes_of(alloc, bytes)?;
    Ok(Rewrite::Whole(WholeRewrite::Rechunk { sizes }))
}

/// `SIZE SIZE ..`
#[tactic(auto, unfolding(crate::specs::tools::LineWalk::chunk_read))]
fn read_chunk(alloc: Global, bytes: &[u8]) -> Result<Rewrite, LineFault>
    ensures { Gives (λ rewrite. rewrite) result (chunk_read bytes.now) }
{
    let sizes = sizes_of(alloc, bytes)?;
    Ok(Rewrite::Whole(WholeRewrite::Chunk { sizes }))
}

/// `TEXT`
#[tactic(auto, unfolding(crate::specs::tools::LineWalk::host_read))]
fn read_host(alloc: Global, bytes: &[u8]) -> Result<Rewrite, LineFault>
    ensures { Gives (λ rewrite. rewrite) result (host_read bytes.now) }
{
    let text = text_of(alloc, bytes)?;
    Ok(Rewrite::Whole(WholeRewrite::Host { text }))
}

/// `TEXT`
#[tactic(auto, unfolding(crate::specs::tools::LineWalk::query_read))]
fn read_query(alloc: Global, bytes: &[u8]) -> Result<Rewrite, LineFault>
    ensures { Gives (λ rewrite. rewrite) result (query_read bytes.now) }
{
    let text = query_text_of(alloc, bytes)?;
    Ok(Rewrite::Whole(WholeRewrite::Query { text: Some(text) }))
}

/// `SIDE NAME`
#[tactic(auto, unfolding(crate::specs::tools::LineWalk::resf_read, crate::specs::tools::LineWalk::then_read))]
fn read_resf(alloc: Global, bytes: &[u8]) -> Result<Rewrite, LineFault>
    ensures { Gives (λ rewrite. rewrite) result (resf_read bytes.now) }
{
    let (side, rest) = read_side(bytes)?;
    let name = lower_name_of(alloc, rest)?;
    Ok(Rewrite::Whole(WholeRewrite::Resf { side, name }))
}

/// The rewriting of this kind, which changes more than field lines.
#[tactic(auto, unfolding(crate::specs::tools::LineWalk::message_read))]
fn read_of_message(alloc: Global, kind: &[u8], rest: &[u8]) -> Result<Rewrite, LineFault>
    ensures { Gives (λ rewrite. rewrite) result (message_read kind.now rest.now) }
{
    if is_word(kind, b"add-label") {
        return read_add_label(alloc, rest);
    }
    if is_word(kind, b"rechunk") {
        return read_rechunk(alloc, rest);
    }
    if is_word(kind, b"chunk") {
        return read_chunk(alloc, rest);
    }
    if is_word(kind, b"host") {
        return read_host(alloc, rest);
    }
    if is_word(kind, b"query") {
        return read_query(alloc, rest);
    }
    if is_word(kind, b"resf") {
        return read_resf(alloc, rest);
    }
    Err(LineFault::NotSpelled)
}

/// The rewriting of this kind, whose other words come after the SP.
#[tactic(auto, unfolding(crate::specs::tools::LineWalk::rewrite_read))]
fn read_rewrite(alloc: Global, kind: &[u8], rest: &[u8]) -> Result<Rewrite, LineFault>
    ensures { Gives (λ rewrite. rewrite) result (rewrite_read kind.now rest.now) }
{
    if is_word(kind, b"pad") {
        return read_pad(alloc, rest);
    }
    if is_word(kind, b"fold") {
        return read_fold(alloc, rest);
    }
    if is_word(kind, b"unfold") {
        return read_unfold(rest);
    }
    if is_word(kind, b"join") {
        return read_join(rest);
    }
    if is_word(kind, b"split") {
        return read_split(rest);
    }
    if is_word(kind, b"move") {
        return read_move(rest);
    }
    if is_word(kind, b"case") {
        return read_case(alloc, rest);
    }
    if is_word(kind, b"add") {
        return read_add(alloc, rest);
    }
    if is_word(kind, b"remove") {
        return read_remove(rest);
    }
    read_of_message(alloc, kind, rest)
}

/// The rewriting whose line is this one word.
#[tactic(auto, unfolding(crate::specs::tools::LineWalk::word_read))]
fn of_word(alloc: Global, word: &[u8]) -> Result<Rewrite, LineFault>
    ensures { Gives (λ rewrite. rewrite) result (word_read word.now) }
{
    if is_word(word, b"rechunk") {
        return Ok(Rewrite::Whole(WholeRewrite::Rechunk {
            sizes: Sizes::new(alloc),
        }));
    }
    if is_word(word, b"chunk") {
        return Ok(Rewrite::Whole(WholeRewrite::Chunk {
            sizes: Sizes::new(alloc),
        }));
    }
    if is_word(word, b"dechunk") {
        return Ok(Rewrite::Whole(WholeRewrite::Dechunk));
    }
    if is_word(word, b"origin") {
        return Ok(Rewrite::Whole(WholeRewrite::Origin));
    }
    if is_word(word, b"absolute") {
        return Ok(Rewrite::Whole(WholeRewrite::Absolute));
    }
    if is_word(word, b"query") {
        return Ok(Rewrite::Whole(WholeRewrite::Query { text: None }));
    }
    Err(LineFault::NotSpelled)
}

/// Reads the words of a line, without the LF at its end.
#[tactic(auto, unfolding(crate::specs::tools::LineWalk::line_read))]
fn read_words(alloc: Global, line: &[u8]) -> Result<Rewrite, LineFault>
    ensures { Gives (λ rewrite. rewrite) result (line_read line.now) }
{
    match cut(b' ', line) {
        None => of_word(alloc, line),
        Some((kind, rest)) => read_rewrite(alloc, kind, rest),
    }
}

/// Judges whether the words of the rewriting have values.
fn judge_values(alloc: Global, rewrite: &Rewrite) -> Result<(), LineFault>
    ensures { MatchResult result (λ _. HasValues rewrite.now)
        (λ fault. fault ≡ NotSpelled → ¬ HasValues rewrite.now) }
{
    if !has_values(alloc, rewrite)? {
        return Err(LineFault::NotSpelled);
    }
    Ok(())
}

/// The rewriting, where its words have values.
#[tactic(auto, using(crate::proofs::ValueLaws::given_judged))]
fn with_values(alloc: Global, rewrite: Rewrite) -> Result<Rewrite, LineFault>
    ensures { GivesWhere HasValues (λ given. given) result (Some rewrite) }
{
    let judged = judge_values(alloc, &rewrite);
    judged.and(Ok(rewrite))
}

/// Reads a line, without the LF at its end.
#[tactic(auto, using(crate::proofs::ValueLaws::given_where, crate::proofs::ValueLaws::none_where))]
pub(crate) fn read_line(alloc: Global, line: &[u8]) -> Result<Rewrite, LineFault>
    ensures { GivesWhere HasValues (λ rewrite. rewrite) result (line_read line.now) }
{
    let rewrite = read_words(alloc, line)?;
    with_values(alloc, rewrite)
}
