//! Signature parameters.

ghost use Rattle.std.specs.Prelude.{◌≡◌, ◌<◌, not, length, IsErrOf, option_copied, IsTrue, IfOk, MatchResult};
ghost use Rattle.std.specs.List.{find};
ghost use Rattle.byte_grammar.specs.Causes.{AnswersWhere};
ghost use Rattle.sfv_text.specs.Range.{is_inner_in_range};
ghost use Rattle.sfv_text.specs.Strict.{inner_text};
ghost use Rattle.component_ids.specs.declared.fault.IdFault.{IdFault};
ghost use Rattle.component_ids.specs.declared.params.SigParams.{SigParams};
ghost use Rattle.component_ids.specs.declared.params.TheConstants.{MAX_COMPONENTS};
ghost use Rattle.component_ids.specs.Causes.{IsIdFault};
ghost use Rattle.component_ids.specs.tools.Reads.{ExplainsParams};
ghost use Rattle.component_ids.specs.SignatureParams.{string_keys, is_typed, list_of, sig_params_text, are_sig_params_in_range, IsSigParams};
ghost use Rattle.component_ids.specs.Table.{is_listed};

use crate::fault::IdFault;
use crate::id::{ComponentId, Ids};
use crate::read_ids::read_ids;
use byte_grammar::is_listed;
use sfv_text::{BareItem, InnerList, Memory, Pair, Params};
use std::alloc::Global;

/// How many covered components signature parameters have at most. RFC 9421 sets no limit.
pub const MAX_COMPONENTS: usize = 128;

/// The keys of parameters that are Strings.
const STRING_KEYS: [&[u8]; 4] = [b"nonce", b"alg", b"keyid", b"tag"];

/// Signature parameters (RFC 9421 section 2.3): the covered components, and the parameters of the
/// signature.
#[derive(Drop)]
pub struct SigParams {
    /// At most `MAX_COMPONENTS`, no two of them the same.
    pub ids: Ids,
    /// `created`, `expires`, `nonce`, `alg`, `keyid` and `tag` of their types, and others.
    pub params: Params,
}

/// Equal identifiers of their own.
pub fn copy_of_ids(alloc: Global, ids: &[ComponentId]) -> Result<Ids, Memory>
    ensures { IfOk result (λ copies. copies ≡ ids.now) }
{
    let mut copies = Ids::with_capacity(alloc, ids.len())?;
    for id in ids {
        copies.push(id.copy(alloc)?)?;
    }
    Ok(copies)
}

impl SigParams {
    /// Equal signature parameters of their own.
    pub fn copy(&self, alloc: Global) -> Result<SigParams, Memory>
        ensures { IfOk result (λ params. params ≡ self.now) }
    {
        Ok(SigParams {
            ids: copy_of_ids(alloc, self.ids.as_slice())?,
            params: self.params.copy(alloc)?,
        })
    }
}

/// Whether a parameter of the key has to be a String (RFC 9421 section 2.3).
pub fn is_string_key(key: &[u8]) -> bool
    ensures { result ≡ is_listed string_keys key.now }
{
    is_listed(&STRING_KEYS, key)
}

fn is_typed(param: &Pair<BareItem>) -> bool
    ensures { result ≡ is_typed param.now }
{
    let key = param.key.bytes();
    if key == b"created".as_slice() || key == b"expires".as_slice() {
        return param.value.is_integer();
    }
    if is_string_key(key) {
        return param.value.is_string();
    }
    true
}

/// The first parameter of a wrong type.
fn first_ill_typed(params: &Params) -> Option<&Pair<BareItem>>
    ensures { option_copied result ≡ find (λ p. not (is_typed p)) params.now }
{
    params.iter().find(|param| !is_typed(param))
}

/// The value of the list, or the first fault whose cause holds.
fn judge_list(alloc: Global, list: &InnerList) -> Result<SigParams, IdFault>
    ensures explains { ExplainsParams list.now result }
    ensures too_many { MAX_COMPONENTS < length list.now.items → IsErrOf result IdFault.TooMany }
{
    let ids = read_ids(alloc, list.items.as_slice())?;
    if let Some(param) = first_ill_typed(&list.params) {
        return Err(IdFault::BadParameter(param.key.copy(alloc)?));
    }
    Ok(SigParams {
        ids,
        params: list.params.copy(alloc)?,
    })
}

/// Reads an Inner List as signature parameters (RFC 9421 section 2.3).
///
/// Of several faults the first in the order of `IdFault` is answered.
pub fn read_params(alloc: Global, list: &InnerList) -> Result<SigParams, IdFault>
    ensures ok { IfOk result (λ params. IsSigParams params) }
    ensures stands_for { IfOk result (λ params. list_of params ≡ list.now) }
    ensures only { (params : SigParams) → IsSigParams params → list_of params ≡ list.now
        → MatchResult result (λ given. given ≡ params) (λ fault. fault ≡ IdFault.Memory) }

    // The first fault whose cause holds is answered, and no other.
    ensures too_many { MAX_COMPONENTS < length list.now.items → IsErrOf result IdFault.TooMany }
    ensures fault { (fault : IdFault) → ¬ (fault ≡ IdFault.Memory)
        → AnswersWhere IdFault.Memory result fault (IsIdFault list.now fault) }

    // What was read prints as the list does, and may be printed where the list may.
    ensures text { IfOk result (λ params. sig_params_text params ≡ inner_text list.now) }
    ensures in_range { IfOk result (λ params. IsTrue (is_inner_in_range list.now)
        → IsTrue (are_sig_params_in_range params)) }
{
    judge_list(alloc, list)
}
