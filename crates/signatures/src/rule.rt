//! The rules that a label is judged by.

ghost use Rattle.std.specs.Prelude.{◌≡◌};
ghost use Rattle.signatures.specs.Words.{rule_number, rule_word};

use std::error::Error;
use std::fmt;

/// A rule that a label is judged by, named for how it fails. Of several that fail the one of the
/// least number is reported.
#[derive(Clone, Copy, Debug, PartialEq, Eq)]
pub enum Rule {
    /// 1: no header line is named `Signature-Input` (RFC 9421 section 4.1).
    InputAbsent,
    /// 2: `Signature-Input` is no Dictionary.
    InputMalformed,
    /// 3: no header line is named `Signature` (RFC 9421 section 4.2).
    SignatureAbsent,
    /// 4: `Signature` is no Dictionary.
    SignatureMalformed,
    /// 5: `Signature-Input` has no member of the label.
    LabelNotInInput,
    /// 6: `Signature` has no member of the label.
    LabelNotInSignature,
    /// 7: the member of `Signature-Input` is no Inner List.
    InputNotList,
    /// 8: the member of `Signature` is no Byte Sequence.
    SignatureNotBytes,
    /// 9: it covers more than `MAX_COMPONENTS` components.
    ComponentsMany,
    /// 10: an item is no component identifier (RFC 9421 section 2).
    ComponentBad,
    /// 11: a component is covered twice (RFC 9421 section 2).
    ComponentRepeated,
    /// 12: a signature parameter has a value of a wrong type (RFC 9421 section 2.3).
    ParameterBad,
    /// 13: `alg` is a registered algorithm that isn't supported (RFC 9421 section 6.2.2).
    AlgRefused,
    /// 14: `alg` is no registered algorithm.
    AlgUnknown,
    /// 15: there is no `keyid`.
    KeyidAbsent,
    /// 16: the configuration has no key of that `keyid`.
    KeyUnknown,
    /// 17: a component that the policy requires isn't covered (RFC 9421 section 7.2.1).
    ComponentRequired,
    /// 18: there is no `created` (RFC 9421 section 2.3).
    CreatedAbsent,
    /// 19: it was created later than now, by more seconds than clocks may be apart.
    CreatedAhead,
    /// 20: it was created more seconds ago than a signature is taken for.
    TooOld,
    /// 21: `expires` is required and isn't there (RFC 9421 section 2.3).
    ExpiresAbsent,
    /// 22: it expired before now.
    Expired,
    /// 23: `tag` isn't the one that the policy asks for; or no policy is for this `tag`, or for a
    /// signature without one (RFC 9421 section 2.3).
    TagWrong,
    /// 24: `nonce` is required and isn't there (RFC 9421 section 2.3).
    NonceAbsent,
    /// 25: its `nonce` was seen with its `keyid` (RFC 9421 section 7.2.2).
    NonceRepeated,
    /// 26: its `nonce` is too long to be remembered.
    NonceLong,
    /// 27: the first component without a value is absent.
    Absent,
    /// 28: it is ambiguous.
    Ambiguous,
    /// 29: it can't be derived from this message.
    Underivable,
    /// 30: it isn't read as a structured field.
    Unreadable,
    /// 31: its value isn't ASCII.
    NotAscii,
    /// 32: the tag isn't the HMAC of the signature base (RFC 9421 section 3.3.3).
    MacMismatch,
    /// 33: the digest of the content isn't covered, or isn't that of the content (RFC 9530 section
    /// 2).
    Digest,
    /// 34: no more nonces can be remembered (RFC 9421 section 7.2.2).
    NoncesFull,
}

impl Rule {
    /// Its number, by which rules are ordered.
    pub fn number(self) -> u8
        ensures { result ≡ rule_number self }
    {
        match self {
            Rule::InputAbsent => 1,
            Rule::InputMalformed => 2,
            Rule::SignatureAbsent => 3,
            Rule::SignatureMalformed => 4,
            Rule::LabelNotInInput => 5,
            Rule::LabelNotInSignature => 6,
            Rule::InputNotList => 7,
            Rule::SignatureNotBytes => 8,
            Rule::ComponentsMany => 9,
            Rule::ComponentBad => 10,
            Rule::ComponentRepeated => 11,
            Rule::ParameterBad => 12,
            Rule::AlgRefused => 13,
            Rule::AlgUnknown => 14,
            Rule::KeyidAbsent => 15,
            Rule::KeyUnknown => 16,
            Rule::ComponentRequired => 17,
            Rule::CreatedAbsent => 18,
            Rule::CreatedAhead => 19,
            Rule::TooOld => 20,
            Rule::ExpiresAbsent => 21,
            Rule::Expired => 22,
            Rule::TagWrong => 23,
            Rule::NonceAbsent => 24,
            Rule::NonceRepeated => 25,
            Rule::NonceLong => 26,
            Rule::Absent => 27,
            Rule::Ambiguous => 28,
            Rule::Underivable => 29,
            Rule::Unreadable => 30,
            Rule::NotAscii => 31,
            Rule::MacMismatch => 32,
            Rule::Digest => 33,
            Rule::NoncesFull => 34,
        }
    }

    /// The word that stands for it in output.
    pub fn word(self) -> &'static str
        ensures { result.now ≡ rule_word self }
    {
        match self {
            Rule::InputAbsent => "input-absent",
            Rule::InputMalformed => "input-malformed",
            Rule::SignatureAbsent => "signature-absent",
            Rule::SignatureMalformed => "signature-malformed",
            Rule::LabelNotInInput => "label-not-in-input",
            Rule::LabelNotInSignature => "label-not-in-signature",
            Rule::InputNotList => "input-not-list",
            Rule::SignatureNotBytes => "signature-not-bytes",
            Rule::ComponentsMany => "components-many",
            Rule::ComponentBad => "component-bad",
            Rule::ComponentRepeated => "component-repeated",
            Rule::ParameterBad => "parameter-bad",
            Rule::AlgRefused => "alg-refused",
            Rule::AlgUnknown => "alg-unknown",
            Rule::KeyidAbsent => "keyid-absent",
            Rule::KeyUnknown => "key-unknown",
            Rule::ComponentRequired => "component-required",
            Rule::CreatedAbsent => "created-absent",
            Rule::CreatedAhead => "created-ahead",
            Rule::TooOld => "too-old",
            Rule::ExpiresAbsent => "expires-absent",
            Rule::Expired => "expired",
            Rule::TagWrong => "tag-wrong",
            Rule::NonceAbsent => "nonce-absent",
            Rule::NonceRepeated => "nonce-repeated",
            Rule::NonceLong => "nonce-long",
            Rule::Absent => "absent",
            Rule::Ambiguous => "ambiguous",
            Rule::Underivable => "underivable",
            Rule::Unreadable => "unreadable",
            Rule::NotAscii => "not-ascii",
            Rule::MacMismatch => "mac-mismatch",
            Rule::Digest => "digest",
            Rule::NoncesFull => "nonces-full",
        }
    }
}

impl fmt::Display for Rule {
    ghost use Rattle.std.specs.Prelude.{Some};
    ghost use Rattle.signatures.specs.Words.{rule_word};

    ghost output = { λ rule. Some (rule_word rule) };

    fn fmt<W: fmt::Write>(&self, f: &mut fmt::Formatter<W>) -> fmt::Result {
        f.write_str(self.word())
    }
}

impl Error for Rule {}
