//! What a configuration asks to be signed.

ghost use Rattle.std.specs.Prelude.{◌≡◌, ◌≤◌, Some, None, [], option_map, option_copied, IfOk, IfSome, IsSome, IsTrue, OnOk, if◌then◌else◌};
ghost use Rattle.std.specs.List.{list_all};
ghost use Rattle.sfv_text.specs.Range.{is_string_byte};
ghost use Rattle.sfv_text.specs.declared.value.BareItem.TheVariants.{Str};
ghost use Rattle.nonces.specs.declared.limits.TheConstants.{MAX_MOMENT};
ghost use Rattle.settings.specs.ConfMeaning.{meaning};
ghost use Rattle.signatures.specs.Algorithms.{supported_algorithm};
ghost use Rattle.signing.specs.Asked.{moment_item, expires_at, asked_params, covered_ids, digest_algorithm, IsSpecOf};
ghost use Rattle.signing.specs.Specs.{IsValidSpec};
ghost use Rattle.signing.specs.tools.Params.{put_given};

use crate::spec::SignSpec;
use component_ids::{ComponentId, SigParams, copy_of_ids};
use content_digest::Algorithm;
use nonces::MAX_MOMENT;
use settings::{Conf, SignConf, SignDigest};
use sfv_text::{BareItem, Memory, Params, Text};
use signatures::SUPPORTED_ALGORITHM;
use std::alloc::Global;

/// The last moment of a signature that is made now and expires so many seconds later, or the
/// greatest moment.
pub(crate) fn expires_at(now: u64, after: u64) -> u64
    requires { now ≤ MAX_MOMENT }
    ensures is { result ≡ expires_at now after }
    ensures within { result ≤ MAX_MOMENT }
{
    if after > MAX_MOMENT - now {
        MAX_MOMENT
    } else {
        now + after
    }
}

/// The moment as an Integer.
pub(crate) fn moment_item(moment: u64) -> BareItem
    requires { moment ≤ MAX_MOMENT }
    ensures { result ≡ moment_item moment }
{
    BareItem::Integer(moment as i64)
}

/// The algorithm of the digest that is added, where one is.
pub(crate) fn digest_algorithm(digest: SignDigest) -> Option<Algorithm>
    ensures { result ≡ digest_algorithm digest }
{
    match digest {
        SignDigest::No => None,
        SignDigest::Sha256 => Some(Algorithm::Sha256),
        SignDigest::Sha512 => Some(Algorithm::Sha512),
    }
}

/// Puts the key with a moment, where there is one.
pub(crate) fn put_moment(
    alloc: Global,
    params: &mut Params,
    key: &[u8],
    moment: Option<u64>,
) -> Result<(), Memory>
    requires { IfSome moment (λ n. n ≤ MAX_MOMENT) }
    ensures { OnOk result (params.new ≡ put_given params.old key.now moment_item moment) }
{
    let Some(moment) = moment else {
        return Ok(());
    };
    params.put(Text::from_bytes(alloc, key)?, moment_item(moment))
}

/// Puts the key with a String, where there is one.
pub(crate) fn put_string(
    alloc: Global,
    params: &mut Params,
    key: &[u8],
    text: Option<&[u8]>,
) -> Result<(), Memory>
    ensures { OnOk result (params.new
        ≡ put_given params.old key.now Str (option_copied text.entry)) }
{
    let Some(text) = text else {
        return Ok(());
    };
    let value = BareItem::Str(Text::from_bytes(alloc, text)?);
    params.put(Text::from_bytes(alloc, key)?, value)
}

/// The moment of `expires`, where it is configured.
fn expires_of(sign: &SignConf, now: u64) -> Option<u64>
    requires { now ≤ MAX_MOMENT }
    ensures is { result ≡ option_map (expires_at now) sign.now.expires_after }
    ensures within { IfSome result (λ n. n ≤ MAX_MOMENT) }
{
    match sign.expires_after {
        Some(after) => Some(expires_at(now, after)),
        None => None,
    }
}

/// The name of the algorithm, where it is given.
fn alg_of(sign: &SignConf) -> Option<&'static [u8]>
    ensures { option_copied result
        ≡ (if sign.now.alg then Some supported_algorithm else None) }
{
    if sign.alg {
        Some(SUPPORTED_ALGORITHM)
    } else {
        None
    }
}

/// The value of `tag`, where it is given.
fn tag_of(sign: &SignConf) -> Option<&[u8]>
    ensures { option_copied result ≡ sign.now.tag }
{
    match &sign.tag {
        Some(tag) => Some(tag.bytes()),
        None => None,
    }
}

/// Puts the parameters that are asked for, where none are there.
fn put_asked(
    alloc: Global,
    params: &mut Params,
    sign: &SignConf,
    now: u64,
    nonce: Option<&[u8]>,
) -> Result<(), Memory>
    requires none { params.old ≡ [] }
    requires now { now ≤ MAX_MOMENT }
    ensures { OnOk result (params.new ≡ asked_params sign.now now (option_copied nonce.entry)) }
{
    put_moment(alloc, params, b"created", Some(now))?;
    put_moment(alloc, params, b"expires", expires_of(sign, now))?;
    put_string(alloc, params, b"nonce", nonce)?;
    put_string(alloc, params, b"alg", alg_of(sign))?;
    put_string(alloc, params, b"keyid", Some(sign.keyid.bytes()))?;
    put_string(alloc, params, b"tag", tag_of(sign))
}

/// The parameters that are asked for.
fn asked_params(
    alloc: Global,
    sign: &SignConf,
    now: u64,
    nonce: Option<&[u8]>,
) -> Result<Params, Memory>
    requires { now ≤ MAX_MOMENT }
    ensures { IfOk result (λ params. params
        ≡ asked_params sign.now now (option_copied nonce.entry)) }
{
    let mut params = Params::new(alloc);
    put_asked(alloc, &mut params, sign, now, nonce)?;
    Ok(params)
}

/// The components that are covered.
fn covered_ids(sign: &SignConf, of_request: bool) -> &[ComponentId]
    ensures { result.now ≡ covered_ids sign.now of_request }
{
    if of_request {
        sign.components_request.as_slice()
    } else {
        sign.components_response.as_slice()
    }
}

/// The components and the parameters that are asked for.
fn asked_sig_params(
    alloc: Global,
    sign: &SignConf,
    of_request: bool,
    now: u64,
    nonce: Option<&[u8]>,
) -> Result<SigParams, Memory>
    requires { now ≤ MAX_MOMENT }
    ensures { IfOk result (λ params. params ≡ record {
      ids = covered_ids sign.now of_request;
      params = asked_params sign.now now (option_copied nonce.entry);
    }) }
{
    Ok(SigParams {
        ids: copy_of_ids(alloc, covered_ids(sign, of_request))?,
        params: asked_params(alloc, sign, now, nonce)?,
    })
}

/// What the configuration asks to be signed, of a request or a response (RFC 9421 section 2.3):
/// `created` and, where they are asked for, `expires`, `nonce` and `alg`, then `keyid` and, where
/// it is asked for, `tag`.
pub fn spec_of(
    alloc: Global,
    conf: &Conf,
    of_request: bool,
    now: u64,
    nonce: Option<&[u8]>,
) -> Result<SignSpec, Memory>
    requires sign { IsSome (meaning conf.now).sign }
    requires now { now ≤ MAX_MOMENT }
    requires nonce { IfSome nonce (λ text. IsTrue (list_all is_string_byte text.now)) }
    ensures is { IfOk result
        (IsSpecOf (meaning conf.now) of_request now (option_copied nonce.entry)) }
    ensures valid { IfOk result IsValidSpec }
{
    let Some(sign) = conf.sign() else {
        unreachable!()
    };
    let Some(key) = conf.hmac_key(sign.keyid.bytes()) else {
        unreachable!()
    };
    let params = asked_sig_params(alloc, sign, of_request, now, nonce)?;
    let digest = digest_algorithm(sign.digest);
    SignSpec::new(alloc, &sign.label, params, key, digest)
}
