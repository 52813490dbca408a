//! Items as component identifiers.

ghost use Rattle.std.specs.Prelude.{◌≡◌, ◌≤◌, ◌<◌, length, IsErrOf, map, IsTrue, IfOk, IfErr};
ghost use Rattle.component_ids.specs.declared.params.TheConstants.{MAX_COMPONENTS};
ghost use Rattle.component_ids.specs.Identifiers.{is_identifier, item_of, AreDistinct};
ghost use Rattle.component_ids.specs.tools.Reads.{AreIdentifiers, IsItemFault, IsIdsFault};

use crate::fault::{BadReason, IdFault};
use crate::id::{ComponentId, Ids};
use crate::params::MAX_COMPONENTS;
use crate::same::first_repeated;
use crate::table::reason_against_name;
use sfv_text::Item;
use std::alloc::Global;

/// Why an item isn't read.
#[derive(Drop)]
enum ItemFault {
    Memory,
    Bad(BadReason),
}

impl From<sfv_text::Memory> for ItemFault {
    ghost use Rattle.std.specs.Prelude.{◌≡◌};
    ghost use Rattle.component_ids.specs.declared.read_ids.ItemFault.TheVariants.{Memory};

    ghost from_gives = { λ _ fault. fault ≡ Memory };

    fn from(_memory: sfv_text::Memory) -> ItemFault {
        ItemFault::Memory
    }
}

fn read_id(alloc: Global, item: &Item) -> Result<ComponentId, ItemFault>
    ensures is { IfOk result (λ id. item_of id ≡ item.now) }
    ensures allowed { IfOk result (λ id. IsTrue (is_identifier item.now)) }
    ensures fault { IfErr result (λ fault. IsItemFault item.now fault) }
{
    let Some(name) = item.bare.as_string() else {
        return Err(ItemFault::Bad(BadReason::NotAString));
    };
    if let Some(reason) = reason_against_name(name.bytes(), &item.params) {
        return Err(ItemFault::Bad(reason));
    }
    Ok(ComponentId {
        name: name.copy(alloc)?,
        params: item.params.copy(alloc)?,
    })
}

/// Reads each item.
fn read_each(alloc: Global, items: &[Item]) -> Result<Ids, IdFault>
    requires { length items.now ≤ MAX_COMPONENTS }
    ensures is { IfOk result (λ ids. map item_of ids ≡ items.now) }
    ensures each { IfOk result (λ ids. AreIdentifiers items.now) }
    ensures fault { IfErr result (λ fault. IsIdsFault items.now fault) }
{
    let mut ids = Ids::with_capacity(alloc, items.len())?;
    for (index, item) in items.iter().enumerate() {
        match read_id(alloc, item) {
            Ok(id) => ids.push(id)?,
            Err(ItemFault::Memory) => return Err(IdFault::Memory),
            Err(ItemFault::Bad(reason)) => return Err(IdFault::BadComponent(index, reason)),
        }
    }
    Ok(ids)
}

/// Reads items as identifiers, no two of them the same.
pub(crate) fn read_ids(alloc: Global, items: &[Item]) -> Result<Ids, IdFault>
    ensures is { IfOk result (λ ids. map item_of ids ≡ items.now) }
    ensures each { IfOk result (λ ids. AreIdentifiers items.now) }
    ensures distinct { IfOk result (λ ids. AreDistinct ids) }
    ensures too_many { MAX_COMPONENTS < length items.now → IsErrOf result IdFault.TooMany }
    ensures fault { IfErr result (λ fault. IsIdsFault items.now fault) }
{
    if items.len() > MAX_COMPONENTS {
        return Err(IdFault::TooMany);
    }
    let ids = read_each(alloc, items)?;
    if let Some(index) = first_repeated(ids.as_slice()) {
        return Err(IdFault::Repeated(index));
    }
    Ok(ids)
}
