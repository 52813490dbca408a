//! Lists of covered components.

ghost use Rattle.std.specs.Prelude.{◌≡◌, List, IfOk, MatchOption};
ghost use Rattle.component_ids.specs.declared.id.ComponentId.{ComponentId};
ghost use Rattle.settings.specs.Covered.{IsCoveredList};
ghost use Rattle.settings.specs.ReadList.{IsReadList};
ghost use Rattle.settings.specs.tools.Lists.{is_id_memory, is_sf_memory, IsIdsOf};

use component_ids::{IdFault, Ids, SigParams, read_params};
use sfv_read::{SfError, read_inner};
use sfv_text::{InnerList, Memory};
use std::alloc::Global;

fn is_id_memory(fault: &IdFault) -> bool
    ensures { result ≡ is_id_memory fault.now }
{
    matches!(fault, IdFault::Memory)
}

fn is_sf_memory(error: SfError) -> bool
    ensures { result ≡ is_sf_memory error }
{
    matches!(error, SfError::Memory)
}

/// The components of an Inner List, where it covers some without parameters of its own.
fn ids_of(alloc: Global, list: &InnerList) -> Result<Option<Ids>, Memory>
    ensures { IfOk result (IsIdsOf list.now) }
{
    if !list.params.is_empty() {
        return Ok(None);
    }
    match read_params(alloc, list) {
        Ok(SigParams { ids, params: _ }) => Ok(Some(ids)),
        Err(fault) => {
            if is_id_memory(&fault) {
                Err(Memory)
            } else {
                Ok(None)
            }
        }
    }
}

/// The components that the text covers, where it is an Inner List of them without parameters of its
/// own (RFC 9421 section 2.3).
pub fn read_covered(alloc: Global, text: &[u8]) -> Result<Option<Ids>, Memory>
    ensures { IfOk result (λ o. MatchOption o
        ((ids : List ComponentId) → ¬ IsCoveredList text.now ids) (IsReadList text.now)) }
{
    match read_inner(alloc, text) {
        Ok(list) => ids_of(alloc, &list),
        Err(error) => {
            if is_sf_memory(error) {
                Err(Memory)
            } else {
                Ok(None)
            }
        }
    }
}
