//! The wishes of a field `Accept-Signature`.

ghost use Rattle.std.specs.Prelude.{◌≡◌, ◌≢◌, ◌≤◌, Some, IfOk, IsSome, IsTrue};
ghost use Rattle.std.specs.List.{All, list_all};
ghost use Rattle.byte_grammar.specs.Causes.{AnswersWhere};
ghost use Rattle.sfv_text.specs.Range.{is_dict_member_in_range};
ghost use Rattle.msg_body.specs.Views.{message_of};
ghost use Rattle.nonces.specs.declared.limits.TheConstants.{MAX_MOMENT};
ghost use Rattle.settings.specs.ConfMeaning.{meaning};
ghost use Rattle.signing.specs.declared.fault.WantFault.{WantFault};
ghost use Rattle.signing.specs.Specs.{IsValidSpec};
ghost use Rattle.signing.specs.WishCauses.{IsWantFault};
ghost use Rattle.signing.specs.Wishes.{AreWished};
ghost use Rattle.signing.specs.tools.Wished.{fault_at, ExplainsWishes, ExplainsWanted};

use crate::fault::WantFault;
use crate::spec::Specs;
use crate::wish::{WishFault, spec_of_wish};
use msg_body::MessageView;
use settings::{Conf, SignConf};
use sfv_text::{Member, Pair};
use signatures::{DictField, read_field};
use std::alloc::Global;

/// The fault of the wish at the index in the field.
fn fault_at(index: usize, fault: WishFault) -> WantFault
    ensures { result ≡ fault_at index fault }
{
    match fault {
        WishFault::Memory => WantFault::Memory,
        WishFault::NotInnerList => WantFault::NotInnerList(index),
        WishFault::Ids(fault) => WantFault::Ids(index, fault),
        WishFault::Parameter => WantFault::Parameter(index),
        WishFault::AlgRefused => WantFault::AlgRefused(index),
        WishFault::AlgUnknown => WantFault::AlgUnknown(index),
        WishFault::KeyUnknown => WantFault::KeyUnknown(index),
    }
}

/// What the wishes ask to be signed, or the fault of the first that isn't met.
fn specs_of_wishes(
    alloc: Global,
    conf: &Conf,
    sign: &SignConf,
    now: u64,
    wishes: &[Pair<Member>],
) -> Result<Specs, WantFault>
    requires sign { (meaning conf.now).sign ≡ Some sign.now }
    requires now { now ≤ MAX_MOMENT }
    requires in_range { IsTrue (list_all is_dict_member_in_range wishes.now) }
    ensures { ExplainsWishes (meaning conf.now) sign.now now wishes.now result }
{
    let mut specs = Specs::new(alloc);
    for (index, wish) in wishes.iter().enumerate() {
        match spec_of_wish(alloc, conf, sign, now, wish) {
            Ok(spec) => specs.push(spec)?,
            Err(fault) => return Err(fault_at(index, fault)),
        }
    }
    Ok(specs)
}

fn judge_wishes(
    alloc: Global,
    view: &MessageView<'_>,
    conf: &Conf,
    now: u64,
) -> Result<Specs, WantFault>
    requires sign { IsSome (meaning conf.now).sign }
    requires now { now ≤ MAX_MOMENT }
    ensures { ExplainsWanted (meaning conf.now) now (message_of view.now) result }
{
    let Some(sign) = conf.sign() else {
        unreachable!()
    };
    let wishes = match read_field(alloc, view, b"accept-signature")? {
        DictField::Absent => return Err(WantFault::Absent),
        DictField::Malformed => return Err(WantFault::Malformed),
        DictField::Dict(wishes) => wishes,
    };
    if wishes.is_empty() {
        return Err(WantFault::Absent);
    }
    specs_of_wishes(alloc, conf, sign, now, wishes.as_slice())
}

/// What the message's header field `Accept-Signature` wishes to be signed (RFC 9421 section 5.1):
/// for each member in order what its signature is to be, under the member's label. The moments of
/// `created` and `expires` are filled in, and `created` and the configured `keyid` are added where
/// they aren't wished.
pub fn wanted(
    alloc: Global,
    view: &MessageView<'_>,
    conf: &Conf,
    now: u64,
) -> Result<Specs, WantFault>
    requires sign { IsSome (meaning conf.now).sign }
    requires now { now ≤ MAX_MOMENT }
    ensures ok { IfOk result (AreWished (meaning conf.now) now (message_of view.now)) }
    ensures valid { IfOk result (All IsValidSpec) }

    // The first fault whose cause holds is answered, and no other.
    ensures fault { (fault : WantFault) → fault ≢ WantFault.Memory → AnswersWhere WantFault.Memory
        result fault (IsWantFault (meaning conf.now) (message_of view.now) fault) }
{
    judge_wishes(alloc, view, conf, now)
}
