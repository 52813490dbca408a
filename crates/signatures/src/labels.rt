//! The keys of a Dictionary, which are labels of signatures.

ghost use Rattle.std.specs.Prelude.{◌≡◌, map, IfOk};

use crate::label::Labels;
use sfv_text::{Dict, Memory};
use std::alloc::Global;

/// The keys of a Dictionary, in order.
pub(crate) fn keys_of(alloc: Global, dict: &Dict) -> Result<Labels, Memory>
    ensures { IfOk result (λ keys. keys ≡ map (λ member. member.key) dict.now) }
{
    let members = dict.as_slice();
    let mut keys = Labels::with_capacity(alloc, members.len())?;
    for member in members {
        keys.push(member.key.copy(alloc)?)?;
    }
    Ok(keys)
}
