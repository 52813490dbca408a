//! By what a sample is judged, and how it is signed.

ghost use Rattle.std.specs.Prelude.{◌≡◌, ◌++◌, ◌∷◌, [], IfOk, OnOk};
ghost use Rattle.settings.specs.ConfMeaning.{meaning};
ghost use Rattle.samples.specs.Requests.{plain, sample_configuration, sample_params, sample_spec};

use crate::limits::MOMENT;
use component_ids::{ComponentId, Ids, Scheme, SigParams, Types};
use content_digest::Algorithm;
use hmac_sha256::HmacKey;
use settings::{Conf, DigestUse, Keys, MAX_ENTRIES, Policies, Policy};
use sfv_text::{BareItem, Memory, Params, Text};
use signing::SignSpec;
use std::alloc::Global;

/// The key of a sample: the bytes from 0 to 31.
const SAMPLE_KEY: [u8; 32] = [
    0, 1, 2, 3, 4, 5, 6, 7, 8, 9, 10, 11, 12, 13, 14, 15, 16, 17, 18, 19, 20, 21, 22, 23, 24, 25,
    26, 27, 28, 29, 30, 31,
];

/// The configuration of a sample.
pub(crate) fn sample_conf(alloc: Global) -> Result<Conf, Memory>
    ensures { IfOk result (λ conf. meaning conf ≡ sample_configuration) }
{
    let mut policy = Policy::standard(alloc);
    policy.digest = DigestUse::Always;
    let types = Types::standard(alloc)?;
    let mut policies = Policies::new(alloc);
    policies.push(policy)?;
    let mut conf = Conf::new(
        Scheme::Https,
        Keys::new(alloc),
        types,
        policies,
        MAX_ENTRIES,
    );
    conf.add_key(b"sample", &SAMPLE_KEY)?;
    Ok(conf)
}

/// Adds a component without parameters.
fn push_plain(alloc: Global, ids: &mut Ids, name: &[u8]) -> Result<(), Memory>
    ensures { OnOk result (ids.new ≡ ids.old ++ plain name.now ∷ []) }
{
    ids.push(ComponentId {
        name: Text::from_bytes(alloc, name)?,
        params: Params::new(alloc),
    })
}

/// Adds the covered components of a sample's signature to none.
fn push_covered(alloc: Global, ids: &mut Ids) -> Result<(), Memory>
    requires { ids.old ≡ [] }
    ensures { OnOk result (ids.new ≡ sample_params.ids) }
{
    push_plain(alloc, ids, b"@method")?;
    push_plain(alloc, ids, b"@authority")?;
    push_plain(alloc, ids, b"@path")?;
    push_plain(alloc, ids, b"date")?;
    push_plain(alloc, ids, b"content-digest")
}

/// Adds the parameters of a sample's signature to none.
fn put_parameters(alloc: Global, params: &mut Params) -> Result<(), Memory>
    requires { params.old ≡ [] }
    ensures { OnOk result (params.new ≡ sample_params.params) }
{
    let created = Text::from_bytes(alloc, b"created")?;
    params.put(created, BareItem::Integer(MOMENT as i64))?;
    let keyid = BareItem::Str(Text::from_bytes(alloc, b"sample")?);
    params.put(Text::from_bytes(alloc, b"keyid")?, keyid)
}

/// The covered components and the parameters of a sample's signature.
fn sample_params(alloc: Global) -> Result<SigParams, Memory>
    ensures { IfOk result (λ params. params ≡ sample_params) }
{
    let mut ids = Ids::new(alloc);
    push_covered(alloc, &mut ids)?;
    let mut params = Params::new(alloc);
    put_parameters(alloc, &mut params)?;
    Ok(SigParams { ids, params })
}

/// How the request of a sample is signed.
pub(crate) fn sample_spec(alloc: Global) -> Result<SignSpec, Memory>
    ensures { IfOk result (λ spec. spec ≡ sample_spec) }
{
    Ok(SignSpec {
        label: Text::from_bytes(alloc, b"s")?,
        params: sample_params(alloc)?,
        key: HmacKey::of(alloc, &SAMPLE_KEY)?,
        digest: Some(Algorithm::Sha256),
    })
}
