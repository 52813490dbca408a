//! A wish of a field `Accept-Signature`.

ghost use Rattle.std.specs.Prelude.{◌≡◌, ◌≤◌, ◌++◌, codes, Some, unwrap_or, map, IfErr, IfOk, IsTrue, OnOk};
ghost use Rattle.std.specs.List.{list_all};
ghost use Rattle.sfv_text.specs.declared.value.BareItem.TheVariants.{Str};
ghost use Rattle.sfv_text.specs.Range.{is_dict_member_in_range};
ghost use Rattle.nonces.specs.declared.limits.TheConstants.{MAX_MOMENT};
ghost use Rattle.settings.specs.ConfMeaning.{meaning};
ghost use Rattle.signing.specs.Asked.{moment_item};
ghost use Rattle.signing.specs.Wishes.{can_be_met, where_missing, wished_params, string_of_key};
ghost use Rattle.signing.specs.tools.Wished.{created_filled, expires_filled, fault_of_ids, ExplainsComponents, ExplainsAlgorithm, ExplainsWish, IsFaultOfParams, IsKeyOfWish};

use crate::asked::{digest_algorithm, expires_at, moment_item};
use crate::spec::SignSpec;
use component_ids::{IdFault, Ids, SigParams, has_param, is_string_key, read_params};
use hmac_sha256::HmacKey;
use settings::{Conf, SignConf};
use sfv_text::{BareItem, InnerList, Items, Member, Memory, Pair, Params, Text};
use signatures::{SUPPORTED_ALGORITHM, is_refused_algorithm};
use std::alloc::Global;

/// Why a wish isn't met.
#[derive(Drop)]
pub(crate) enum WishFault {
    Memory,
    NotInnerList,
    Ids(IdFault),
    Parameter,
    AlgRefused,
    AlgUnknown,
    KeyUnknown,
}

impl From<Memory> for WishFault {
    ghost use Rattle.std.specs.Prelude.{◌≡◌};
    ghost use Rattle.signing.specs.declared.wish.WishFault.TheVariants.{Memory as OutOfMemory};

    ghost from_gives = { λ _ fault. fault ≡ OutOfMemory };

    fn from(_memory: Memory) -> WishFault {
        WishFault::Memory
    }
}

/// Equal Items of their own.
fn copy_of_items(alloc: Global, items: &Items) -> Result<Items, Memory>
    ensures { IfOk result (λ copies. copies ≡ items.now) }
{
    let mut copies = Items::new(alloc);
    let items = items.as_slice();
    for item in items {
        copies.push(item.copy(alloc)?)?;
    }
    Ok(copies)
}

/// The fault of a wish whose components aren't read.
fn fault_of_ids(fault: IdFault) -> WishFault
    ensures { result ≡ fault_of_ids fault }
{
    match fault {
        IdFault::Memory => WishFault::Memory,
        fault => WishFault::Ids(fault),
    }
}

/// The components that the list covers. Its parameters aren't judged.
fn read_components(alloc: Global, list: &InnerList) -> Result<Ids, WishFault>
    ensures { ExplainsComponents list.now result }
{
    let components = InnerList {
        items: copy_of_items(alloc, &list.items)?,
        params: Params::new(alloc),
    };
    match read_params(alloc, &components) {
        Ok(SigParams { ids, params: _ }) => Ok(ids),
        Err(fault) => Err(fault_of_ids(fault)),
    }
}

/// Whether the wish for a parameter can be met.
fn can_be_met(after: Option<u64>, param: &Pair<BareItem>) -> bool
    ensures { result ≡ can_be_met after param.now }
{
    let key = param.key.bytes();
    if key == b"created".as_slice() {
        return param.value.is_true();
    }
    if key == b"expires".as_slice() {
        return param.value.is_true() && after.is_some();
    }
    if is_string_key(key) {
        return param.value.is_string();
    }
    true
}

fn can_all_be_met(after: Option<u64>, params: &Params) -> bool
    ensures { result ≡ list_all (can_be_met after) params.now }
{
    params.iter().all(|param| can_be_met(after, param))
}

/// Gives `expires` its moment, where it is wished and configured.
fn fill_expires(
    alloc: Global,
    params: &mut Params,
    now: u64,
    after: Option<u64>,
) -> Result<(), Memory>
    requires { now ≤ MAX_MOMENT }
    ensures { OnOk result (params.new ≡ map (expires_filled now after) params.old) }
{
    let Some(after) = after else {
        return Ok(());
    };
    if !has_param(params, b"expires") {
        return Ok(());
    }
    let moment = moment_item(expires_at(now, after));
    params.put(Text::from_bytes(alloc, b"expires")?, moment)
}

/// Gives `created` its moment, at the end where it isn't wished.
fn fill_created(alloc: Global, params: &mut Params, now: u64) -> Result<(), Memory>
    requires { now ≤ MAX_MOMENT }
    ensures { OnOk result (params.new ≡ map (created_filled now) params.old
        ++ where_missing params.old (codes "created") (moment_item now)) }
{
    params.put(Text::from_bytes(alloc, b"created")?, moment_item(now))
}

/// Adds the keyid at the end, where none is wished.
fn add_keyid(alloc: Global, params: &mut Params, keyid: &Text) -> Result<(), Memory>
    ensures { OnOk result (params.new ≡ params.old
        ++ where_missing params.old (codes "keyid") (Str keyid.now)) }
{
    if has_param(params, b"keyid") {
        return Ok(());
    }
    let value = BareItem::Str(keyid.copy(alloc)?);
    params.put(Text::from_bytes(alloc, b"keyid")?, value)
}

/// Makes the parameters of a wish those that are signed.
fn fill_wished(alloc: Global, params: &mut Params, sign: &SignConf, now: u64) -> Result<(), Memory>
    requires { now ≤ MAX_MOMENT }
    ensures { OnOk result (params.new ≡ wished_params sign.now now params.old) }
{
    fill_expires(alloc, params, now, sign.expires_after)?;
    fill_created(alloc, params, now)?;
    add_keyid(alloc, params, &sign.keyid)
}

/// The parameters of a wish as they are signed.
fn wished_params(
    alloc: Global,
    sign: &SignConf,
    now: u64,
    wished: &Params,
) -> Result<Params, Memory>
    requires { now ≤ MAX_MOMENT }
    ensures { IfOk result (λ params. params ≡ wished_params sign.now now wished.now) }
{
    let mut params = wished.copy(alloc)?;
    fill_wished(alloc, &mut params, sign, now)?;
    Ok(params)
}

/// Whether the algorithm that is wished is the supported one, or none is wished.
fn judge_algorithm(params: &Params) -> Result<(), WishFault>
    ensures { ExplainsAlgorithm (string_of_key params.now (codes "alg")) result }
{
    let Some(alg) = params.string(b"alg") else {
        return Ok(());
    };
    if alg.bytes() == SUPPORTED_ALGORITHM {
        return Ok(());
    }
    if is_refused_algorithm(alg.bytes()) {
        return Err(WishFault::AlgRefused);
    }
    Err(WishFault::AlgUnknown)
}

/// The keyid that is wished, or else the one that is configured.
fn wished_keyid<'a>(sign: &'a SignConf, params: &'a Params) -> &'a [u8]
    ensures { result.now ≡ unwrap_or (string_of_key params.now (codes "keyid")) sign.now.keyid }
{
    match params.string(b"keyid") {
        Some(keyid) => keyid.bytes(),
        None => sign.keyid.bytes(),
    }
}

/// The key of a wish whose components are read, or the first cause for which it isn't met.
fn key_of_wish<'a>(
    conf: &'a Conf,
    sign: &SignConf,
    list: &InnerList,
) -> Result<&'a HmacKey, WishFault>
    ensures ok { IfOk result (λ key. IsKeyOfWish (meaning conf.now) sign.now list.now key.now) }
    ensures fault { IfErr result (IsFaultOfParams (meaning conf.now) sign.now list.now) }
{
    if !can_all_be_met(sign.expires_after, &list.params) {
        return Err(WishFault::Parameter);
    }
    if let Err(fault) = judge_algorithm(&list.params) {
        return Err(fault);
    }
    match conf.hmac_key(wished_keyid(sign, &list.params)) {
        Some(key) => Ok(key),
        None => Err(WishFault::KeyUnknown),
    }
}

/// What a wish asks to be signed, or the first cause for which it isn't met.
pub(crate) fn spec_of_wish(
    alloc: Global,
    conf: &Conf,
    sign: &SignConf,
    now: u64,
    wish: &Pair<Member>,
) -> Result<SignSpec, WishFault>
    requires sign { (meaning conf.now).sign ≡ Some sign.now }
    requires now { now ≤ MAX_MOMENT }
    requires in_range { IsTrue (is_dict_member_in_range wish.now) }
    ensures { ExplainsWish (meaning conf.now) sign.now now wish.now result }
{
    let Member::InnerList(list) = &wish.value else {
        return Err(WishFault::NotInnerList);
    };
    let ids = read_components(alloc, list)?;
    let key = key_of_wish(conf, sign, list)?;
    let params = SigParams {
        ids,
        params: wished_params(alloc, sign, now, &list.params)?,
    };
    let digest = digest_algorithm(sign.digest);
    Ok(SignSpec::new(alloc, &wish.key, params, key, digest)?)
}
