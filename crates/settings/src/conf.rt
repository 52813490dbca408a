//! Configurations.

ghost use Rattle.settings.specs.Valid.{IsValid};

use crate::gateway_conf::GatewayConf;
use crate::keys::Keys;
use crate::policies::Policies;
use crate::sign_conf::SignConf;
use component_ids::{Scheme, Types};

/// A configuration: what no message says, and has to be known to verify or to sign one.
///
/// Its keyids have 1 to `MAX_KEYID_BYTES` printable bytes of ASCII, its keys 1 to `MAX_KEY_BYTES`
/// bytes. How signatures are judged and messages are signed is valid: no two policies are for one
/// tag, `max-age` and twice `skew` of each are at most `MAX_WINDOW`, `sign.keyid` has a key, a line
/// can write each step, and so on.
///
/// It has no `Debug`, since that would print its keys.
#[derive(Drop)]
pub struct Conf {
    pub(crate) scheme: Scheme,
    pub(crate) keys: Keys,
    pub(crate) types: Types,
    pub(crate) policies: Policies,
    pub(crate) nonces: usize,
    pub(crate) sign: Option<SignConf>,
    pub(crate) gateway: Option<GatewayConf>,
    ghost valid: { ∥ IsValid (record {
      scheme = scheme;
      keys = keys;
      types = types;
      policies = policies;
      nonces = nonces;
      sign = sign;
      gateway = gateway;
    }) ∥₁ },
}
