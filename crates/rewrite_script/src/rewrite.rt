//! Rewritings.

use msg_head::Side;
use sfv_text::{Sequence, Text};

/// A rewriting of the field lines of a side. An index counts these lines, an offset the bytes of a
/// line's raw value, both from 0. Blanks are SP and HTAB, at most `MAX_BLANKS` of them.
#[derive(Drop)]
pub enum LineRewrite {
    /// `pad`: the spacing at both ends of the raw value, blanks and folds, becomes these blanks.
    Pad {
        side: Side,
        index: usize,
        before: Text,
        after: Text,
    },
    /// `fold`: the blank at the offset becomes CRLF and these blanks (RFC 9112 section 5.2).
    Fold {
        side: Side,
        index: usize,
        at: usize,
        blanks: Text,
    },
    /// `unfold`: the fold at the offset becomes SP (RFC 9112 section 5.2).
    Unfold {
        side: Side,
        index: usize,
        at: usize,
    },
    /// `join`: the line and a later one of the same name become one (RFC 9110 section 5.3).
    Join {
        side: Side,
        index: usize,
        later: usize,
    },
    /// `split`: the line becomes two at the comma at the offset (RFC 9110 section 5.3).
    Split {
        side: Side,
        index: usize,
        at: usize,
    },
    /// `move`: the line comes to another index.
    Move {
        side: Side,
        index: usize,
        to: usize,
    },
    /// `case`: the name becomes this one, with letters of another case (RFC 9110 section 5.1).
    Case {
        side: Side,
        index: usize,
        name: Text,
    },
    /// `add`: a line of this name and this text is put in.
    Add {
        side: Side,
        index: usize,
        name: Text,
        text: Text,
    },
    /// `remove`: the line goes.
    Remove {
        side: Side,
        index: usize,
    },
}

/// A rewriting of a whole message: of its target, its content, a field by its name.
#[derive(Drop)]
pub enum WholeRewrite {
    /// `add-label`: lines with a signature of this label are put in (RFC 9421 section 4). The tag
    /// is its bytes in base64, `params` the covered components and the signature parameters.
    AddLabel {
        label: Text,
        tag: Text,
        params: Text,
    },
    /// `rechunk`: the content comes in chunks of these sizes (RFC 9112 section 7.1).
    Rechunk {
        sizes: Sizes,
    },
    /// `chunk`: content of a known length comes in chunks of these sizes (RFC 9112 section 7.1).
    Chunk {
        sizes: Sizes,
    },
    /// `dechunk`: content in chunks comes with its length (RFC 9112 section 6.2).
    Dechunk,
    /// `origin`: the target comes to origin form (RFC 9112 section 3.2.1).
    Origin,
    /// `absolute`: the target comes to absolute form (RFC 9112 section 3.2.2).
    Absolute,
    /// `host`: the value of the Host line becomes this text (RFC 9110 section 7.2).
    Host {
        text: Text,
    },
    /// `query`: the target's query becomes this one, with its `?`, or goes (RFC 3986 section 3.4).
    Query {
        text: Option<Text>,
    },
    /// `resf`: the lines of the name become one, with the strict text of their structured field
    /// (RFC 9651 section 4.1).
    Resf {
        side: Side,
        name: Text,
    },
}

/// A rewriting of a message.
#[derive(Drop)]
pub enum Rewrite {
    /// Of field lines, by their indexes.
    Lines(LineRewrite),
    /// Of the whole message.
    Whole(WholeRewrite),
}

/// The sizes of chunks, in bytes.
pub type Sizes = Sequence<u64>;

/// A script: its rewritings, in order.
pub type Script = Sequence<Rewrite>;
