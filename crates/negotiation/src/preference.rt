//! The digest that a request asks for (RFC 9530 section 4).

ghost use Rattle.std.specs.Prelude.{◌≡◌};
ghost use Rattle.std.specs.List.{list_all};
ghost use Rattle.msg_body.specs.Views.{message_of};
ghost use Rattle.negotiation.specs.Preferences.{is_preference_sound, preference_in, preference_of};
ghost use Rattle.negotiation.specs.tools.Judged.{ExplainsWish};
ghost use Rattle.negotiation.specs.tools.Preferring.{IsMostPreferred};

use crate::fault::NegotiateFault;
use content_digest::Algorithm;
use msg_body::MessageView;
use sfv_text::{Member, Pair};
use signatures::{DictField, read_field};
use std::alloc::Global;

/// The preference for what is preferred most.
const MOST_PREFERRED: i64 = 10;

/// The preference that a member says: an Integer from 0, which is not acceptable, to 10.
fn preference_in(member: &Member) -> Option<u64>
    ensures { result ≡ preference_in member.now }
{
    let Member::Item(item) = member else {
        return None;
    };
    match item.bare.as_integer() {
        Some(number) if number >= 0 && number <= MOST_PREFERRED => Some(number as u64),
        _ => None,
    }
}

/// Whether the member says a preference, where its algorithm is known.
fn is_preference_sound(member: &Pair<Member>) -> bool
    ensures { result ≡ is_preference_sound member.now }
{
    Algorithm::of_key(member.key.bytes()).is_none() || preference_in(&member.value).is_some()
}

fn are_preferences_sound(members: &[Pair<Member>]) -> bool
    ensures { result ≡ list_all is_preference_sound members.now }
{
    members.iter().all(|member| is_preference_sound(member))
}

/// How much the member's algorithm is preferred: where it isn't known, it isn't acceptable.
fn preference_of(member: &Pair<Member>) -> u64
    ensures { result ≡ preference_of member.now }
{
    match Algorithm::of_key(member.key.bytes()) {
        Some(_) => preference_in(&member.value).unwrap_or(0),
        None => 0,
    }
}

/// The algorithm that the Dictionary prefers, the first where more than one is preferred most; none
/// where none is acceptable.
fn most_preferred(members: &[Pair<Member>]) -> Option<Algorithm>
    ensures { IsMostPreferred members.now result }
{
    let mut algorithm = None;
    let mut greatest = 0;
    for member in members {
        let preference = preference_of(member);
        if preference > greatest {
            greatest = preference;
            algorithm = Algorithm::of_key(member.key.bytes());
        }
    }
    algorithm
}

/// The algorithm of the digest that the request's header field `Want-Content-Digest` asks for; none
/// where it doesn't have the field.
pub(crate) fn wished_digest(
    alloc: Global,
    request: &MessageView<'_>,
) -> Result<Option<Algorithm>, NegotiateFault>
    ensures { ExplainsWish (message_of request.now) result }
{
    let dict = match read_field(alloc, request, b"want-content-digest")? {
        DictField::Absent => return Ok(None),
        DictField::Malformed => return Err(NegotiateFault::WishMalformed),
        DictField::Dict(dict) => dict,
    };
    if !are_preferences_sound(dict.as_slice()) {
        return Err(NegotiateFault::WishMalformed);
    }
    match most_preferred(dict.as_slice()) {
        Some(algorithm) => Ok(Some(algorithm)),
        None => Err(NegotiateFault::Unacceptable),
    }
}
