//! What a configuration is asked for.

ghost use Rattle.std.specs.Prelude.{◌≡◌, ◌≤◌, None, Some, IfOk, IfSome, OnOk, OnErr, IsTrue, option_copied};
ghost use Rattle.std.specs.List.{Contains};
ghost use Rattle.std.specs.FinMap as map;
ghost use Rattle.settings.specs.Chosen.{policy_for};
ghost use Rattle.settings.specs.ConfMeaning.{meaning};
ghost use Rattle.settings.specs.Keys.{IsHmacKey, is_keyid};
ghost use Rattle.settings.specs.Standard.{standard_configuration};
ghost use Rattle.settings.specs.Valid.{IsValid, IsValidSign};
ghost use Rattle.settings.specs.ValidSections.{IsValidGateway, IsValidPolicy};
ghost use Rattle.settings.specs.ValidPolicies.{AreValidPolicies};
ghost use Rattle.nonces.specs.declared.limits.TheConstants.{MAX_ENTRIES};

use crate::conf::Conf;
use crate::gateway_conf::GatewayConf;
use crate::keys::Keys;
use crate::policies::{Policies, policy_for};
use crate::policy::Policy;
use crate::sign_conf::SignConf;
use component_ids::{Scheme, Types};
use hmac_sha256::HmacKey;
use nonces::MAX_ENTRIES;
use sfv_text::Memory;
use std::alloc::Global;

impl Conf {
    /// The configuration of these parts, by which nothing is signed and without a gateway.
    pub fn new(scheme: Scheme, keys: Keys, types: Types, policies: Policies, nonces: usize) -> Conf
        requires { IsValid (record {
          scheme = scheme;
          keys = keys;
          types = types;
          policies = policies;
          nonces = nonces;
          sign = None;
          gateway = None;
        }) }
        ensures { meaning result ≡ record {
          scheme = scheme;
          keys = keys;
          types = types;
          policies = policies;
          nonces = nonces;
          sign = None;
          gateway = None;
        } }
    {
        Conf {
            scheme,
            keys,
            types,
            policies,
            nonces,
            sign: None,
            gateway: None,
        }
    }

    /// The same configuration with this way to sign, in place of the one that it has.
    pub fn with_sign(self, sign: SignConf) -> Conf
        requires { IsValidSign (meaning self).keys sign }
        ensures { meaning result ≡ record (meaning self) { sign = Some sign } }
    {
        let Conf {
            scheme,
            keys,
            types,
            policies,
            nonces,
            sign: _,
            gateway,
        } = self;
        Conf {
            scheme,
            keys,
            types,
            policies,
            nonces,
            sign: Some(sign),
            gateway,
        }
    }

    /// The same configuration with a gateway, in place of the one that it has.
    pub fn with_gateway(self, gateway: GatewayConf) -> Conf
        requires { IsValidGateway gateway }
        ensures { meaning result ≡ record (meaning self) { gateway = Some gateway } }
    {
        let Conf {
            scheme,
            keys,
            types,
            policies,
            nonces,
            sign,
            gateway: _,
        } = self;
        Conf {
            scheme,
            keys,
            types,
            policies,
            nonces,
            sign,
            gateway: Some(gateway),
        }
    }

    /// The configuration where nothing is said: `https`, no keys, the standard types and policy.
    pub fn standard(alloc: Global) -> Result<Conf, Memory>
        ensures { IfOk result (λ conf. meaning conf ≡ standard_configuration) }
    {
        let types = Types::standard(alloc)?;
        let mut policies = Policies::new(alloc);
        policies.push(Policy::standard(alloc))?;
        Ok(Conf::new(
            Scheme::Https,
            Keys::new(alloc),
            types,
            policies,
            MAX_ENTRIES,
        ))
    }

    /// The scheme of requests that don't name it (RFC 9421 section 2.2.4).
    pub fn scheme(&self) -> Scheme
        ensures { result ≡ (meaning self.now).scheme }
    {
        self.scheme
    }

    /// Which fields are structured, and how (RFC 9421 section 2.1.1).
    pub fn types(&self) -> &Types
        ensures { result.now ≡ (meaning self.now).types }
    {
        &self.types
    }

    /// How signatures are judged: at least one policy, and no two for one tag.
    pub fn policies(&self) -> &Policies
        ensures is { result.now ≡ (meaning self.now).policies }
        ensures valid { AreValidPolicies result.now }
    {
        &self.policies
    }

    /// How a signature with this parameter `tag`, or with none, is judged (RFC 9421 section 2.3):
    /// by the policy that selects the tag, or else by the one that selects none. There is no such
    /// policy where there is neither. It takes no memory.
    pub fn policy_for(&self, tag: Option<&[u8]>) -> Option<&Policy>
        ensures is { option_copied result
            ≡ policy_for (meaning self.now).policies (option_copied tag.entry) }
        ensures valid { IfSome result (λ policy. IsValidPolicy policy.now) }
        ensures one { IfSome result (λ policy. Contains (meaning self.now).policies policy.now) }
    {
        policy_for(self.policies.as_slice(), tag)
    }

    /// How many nonces are remembered.
    pub fn nonces(&self) -> usize
        ensures is { result ≡ (meaning self.now).nonces }
        ensures least { 1 ≤ result }
        ensures most { result ≤ MAX_ENTRIES }
    {
        self.nonces
    }

    /// How messages are signed, where it is configured.
    pub fn sign(&self) -> Option<&SignConf>
        ensures is { option_copied result ≡ (meaning self.now).sign }
        ensures valid { IfSome result (λ sign. IsValidSign (meaning self.now).keys sign.now) }
    {
        self.sign.as_ref()
    }

    /// What a gateway does, where it is configured.
    pub fn gateway(&self) -> Option<&GatewayConf>
        ensures is { option_copied result ≡ (meaning self.now).gateway }
        ensures valid { IfSome result (λ gateway. IsValidGateway gateway.now) }
    {
        self.gateway.as_ref()
    }

    /// The key of the keyid, where it has one. It takes no memory.
    pub fn key(&self, keyid: &[u8]) -> Option<&[u8]>
        ensures is { option_copied result ≡ map.get (meaning self.now).keys keyid.now }
        ensures valid { IfSome result (λ key. IsHmacKey key.now) }
        ensures keyid { IfSome result (λ _. IsTrue (is_keyid keyid.now)) }
    {
        match self.hmac_key(keyid) {
            Some(key) => Some(key.bytes()),
            None => None,
        }
    }

    /// The key of the keyid, with its pads hashed. It takes no memory.
    pub fn hmac_key(&self, keyid: &[u8]) -> Option<&HmacKey>
        ensures is { option_copied result ≡ map.get (meaning self.now).keys keyid.now }
        ensures valid { IfSome result (λ key. IsHmacKey key.now) }
        ensures keyid { IfSome result (λ _. IsTrue (is_keyid keyid.now)) }
    {
        self.keys.get(keyid)
    }

    /// Adds the key of a keyid that has none.
    pub fn add_key(&mut self, keyid: &[u8], key: &[u8]) -> Result<(), Memory>
        requires keyid { IsTrue (is_keyid keyid.now) }
        requires new { map.get (meaning self.old).keys keyid.now ≡ None }
        requires key { IsHmacKey key.now }
        ensures keys { OnOk result ((meaning self.new).keys
            ≡ map.insert (meaning self.old).keys keyid.now key.now) }
        ensures err { OnErr result ((meaning self.new).keys ≡ (meaning self.old).keys) }
        ensures scheme { (meaning self.new).scheme ≡ (meaning self.old).scheme }
        ensures types { (meaning self.new).types ≡ (meaning self.old).types }
        ensures policies { (meaning self.new).policies ≡ (meaning self.old).policies }
        ensures nonces { (meaning self.new).nonces ≡ (meaning self.old).nonces }
        ensures sign { (meaning self.new).sign ≡ (meaning self.old).sign }
        ensures gateway { (meaning self.new).gateway ≡ (meaning self.old).gateway }
    {
        self.keys.add(keyid, key)
    }
}
