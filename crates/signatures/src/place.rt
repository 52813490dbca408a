//! Where a rule fails.

ghost use Rattle.std.specs.Prelude.{◌≡◌};
ghost use Rattle.signatures.specs.Words.{reason_word};

use component_ids::{BadReason, ComponentId};
use content_digest::Algorithm;
use sfv_text::Text;
use std::fmt;

/// Where a rule fails.
#[derive(Debug, Drop)]
pub enum Place {
    /// The rule says it all.
    None,
    /// At the covered component of the index, counted from 0.
    Index(usize),
    /// At the item of the index, counted from 0, for this reason.
    Component(usize, BadReason),
    /// At this text: the key of a parameter, the name of an algorithm, or the strict text of a
    /// String (RFC 9651 section 4.1.6), quotes included.
    Name(Text),
    /// At this component, which is covered or has to be.
    Identifier(ComponentId),
    /// At the digest of the content, for this reason.
    Digest(DigestReason),
}

/// It begins with a space where it isn't empty. A component has its name alone.
impl fmt::Display for Place {
    ghost use Rattle.std.specs.Prelude.{Some};
    ghost use Rattle.signatures.specs.Words.{displayed_place};

    ghost output = { λ place. Some (displayed_place place) };

    fn fmt<W: fmt::Write>(&self, f: &mut fmt::Formatter<W>) -> fmt::Result {
        match self {
            Place::None => Ok(()),
            Place::Index(index) => write!(f, " {index}"),
            Place::Component(index, reason) => write!(f, " {index} {reason}"),
            Place::Name(text) => write!(f, " {text}"),
            Place::Identifier(id) => {
                let name = &id.name;
                write!(f, " {name}")
            }
            Place::Digest(reason) => {
                let word = reason.word();
                write!(f, " {word}")
            }
        }
    }
}

/// Why the digest of the content isn't accepted (RFC 9530 section 2).
#[derive(Clone, Copy, Debug, PartialEq, Eq)]
pub enum DigestReason {
    /// No covered component is the whole field `Content-Digest`.
    Uncovered,
    /// The field is no Dictionary, or a digest of a known algorithm is no Byte Sequence.
    Malformed,
    /// It has no digest of a known algorithm.
    NoneKnown,
    /// The first digest that isn't that of the content is of this algorithm.
    Mismatch(Algorithm),
}

impl DigestReason {
    /// The word that stands for it in output.
    pub fn word(self) -> &'static str
        ensures { result.now ≡ reason_word self }
    {
        match self {
            DigestReason::Uncovered => "uncovered",
            DigestReason::Malformed => "malformed",
            DigestReason::NoneKnown => "none-known",
            DigestReason::Mismatch(Algorithm::Sha256) => "mismatch sha-256",
            DigestReason::Mismatch(Algorithm::Sha512) => "mismatch sha-512",
        }
    }
}
