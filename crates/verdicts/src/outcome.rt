//! The verdict on a label.

use sfv_text::Text;
use signatures::{Place, Rule};

/// The verdict on a label (RFC 9421 section 3.2).
#[derive(Drop)]
pub enum Verdict {
    /// It is accepted, under the key of this `keyid`.
    Ok { keyid: Text },
    /// The rule of the least number that fails, and where.
    Rule { number: Rule, place: Place },
}
